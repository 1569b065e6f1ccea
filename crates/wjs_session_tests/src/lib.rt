//! Tests of sessions: beside full copies, and beside one another.
#![tactic(auto)]

#[cfg(test)]
mod acting;
#[cfg(test)]
mod drawn;
#[cfg(test)]
mod pair;
#[cfg(test)]
mod turns;
