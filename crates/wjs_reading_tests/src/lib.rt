//! Tests of the calls that read a script: its tokens with their places, and its expressions.
#![tactic(auto)]

#[cfg(test)]
mod expressions;
#[cfg(test)]
mod tokens;
