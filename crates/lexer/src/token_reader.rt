// A token reader: it holds the text and an offset.
ghost use Rattle.std.specs.Prelude.{◌≡◌};
ghost use Rattle.lexer.specs.Answered.{Answered};

use crate::token::{Lexeme, token_at};

#[derive(Clone, Copy)]
pub struct TokenReader<'a> {
    text: &'a [u8],
    at: usize,
}

impl<'a> TokenReader<'a> {
    // A reader at the start of a text.
    pub fn new(text: &'a [u8]) -> TokenReader<'a>
        ensures { (result.text ≡ text.entry) × (result.at ≡ 0) }
    {
        TokenReader { text, at: 0 }
    }

    // Its next token; none at the end of the text, and where the text has no byte at the offset.
    pub fn token(self) -> Option<Lexeme>
        ensures { Answered self.entry.text.now self.entry.at result }
    {
        if self.text.len() <= self.at {
            return None;
        }
        token_at(self.text, self.at)
    }

    // The reader with its offset moved.
    pub fn moved(self, at: usize) -> TokenReader<'a>
        ensures { (result.text ≡ self.entry.text) × (result.at ≡ at) }
    {
        TokenReader { at, ..self }
    }
}

// The next token of a reader of a text that has been moved to an offset.
pub fn token_from(text: &[u8], at: usize) -> Option<Lexeme>
    ensures { Answered text.now at result }
{
    TokenReader::new(text).moved(at).token()
}
