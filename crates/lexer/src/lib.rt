// Tokens of a text: classes of bytes, numbers, tokens at an offset, and the token reader, which holds the text and an offset.
#![tactic(auto)]

mod bytes; // classes of bytes
mod number; // runs that are numbers
pub mod token; // tokens at an offset
pub mod token_reader; // the text and an offset
