//! Tests of what a host does with the machine: runs, turns and walks come to their ends over full copies.
#![tactic(auto)]

#[cfg(test)]
mod hosting;
