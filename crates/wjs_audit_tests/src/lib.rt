//! Tests of logs over full copies. What bytes are a log, and how each is judged, rows of `tests/audit.jsonl` tell.
#![tactic(auto)]

#[cfg(test)]
mod tests;
