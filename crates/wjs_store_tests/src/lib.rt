//! Tests of the stores of worlds: full copies and sparse worlds answer the same actions alike.
#![tactic(auto)]

#[cfg(test)]
mod looks;
#[cfg(test)]
mod rows;
#[cfg(test)]
mod stores;
