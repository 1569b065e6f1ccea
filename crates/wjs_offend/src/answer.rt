//! What may be wrong with the tokens of a script.

/// Where tokens stop being the front of a program, whose height, jumps and labels aren't asked.
#[derive(Clone, Copy, Debug, PartialEq, Eq)]
pub enum Offence {
    /// The token at this place, counted from 0: the tokens up to it begin some program, with it none.
    At(usize),
    /// The tokens begin some program, and are none.
    End,
    /// Some program stands for the tokens.
    NoToken,
}
