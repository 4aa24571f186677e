// Tokens, taken from the text one after another.
ghost use Rattle.std.specs.Prelude.{◌≡◌, ◌≢◌, ◌+◌, ◌≤◌, ◌<◌, true, false, [], List, ℕ, length, get_or};
ghost use Rattle.reading.specs.Token.{flag_of, is_separating, run};
ghost use Rattle.reading.specs.Meaning.{is_name, meaning_of};
ghost use Rattle.lexer.specs.Told.{Skipped, RunTo, said, Lexed, Told};

use crate::bytes::{is_running, is_separating};
use crate::number::{Number, is_numeral, numeral_of};
use words::ground::Ground;

// What a token is.
#[derive(Clone, Copy)]
pub enum Token {
    Open,
    Close,
    Boolean(bool),
    Number(Number),
    Name,
}

// A token, or the ground on which it is refused: where it starts, and where the next one is looked for.
#[derive(Clone, Copy)]
pub struct Lexeme {
    pub from: usize,
    pub token: Result<Token, Ground>,
    pub next: usize,
}

// Past the separators.
pub fn skip(text: &[u8], from: usize) -> usize
    requires { from ≤ length text.now }
    ensures { Skipped text.now from result }
{
    for at in from..text.len() {
        if !is_separating(text[at]) {
            return at;
        }
    }
    text.len()
}

// The end of the longest run.
fn run_end(text: &[u8], from: usize) -> usize
    requires { from ≤ length text.now }
    ensures { RunTo text.now from result }
{
    for at in from..text.len() {
        if !is_running(text[at]) {
            return at;
        }
    }
    text.len()
}

// A run that does not start as a number is a name: 1 to 63 bytes, no single dot.
fn is_name(word: &[u8]) -> bool
    ensures { result ≡ is_name word.now }
{
    if word.len() == 0 {
        return false;
    }
    if words::NAME_LENGTH < word.len() {
        return false;
    }
    if word.len() == 1 {
        return word[0] != b'.';
    }
    true
}

// The token that a run is.
fn run_token(word: &[u8]) -> Result<Token, Ground>
    requires { 1 ≤ length word.now }
    ensures { said word.now result ≡ meaning_of (run word.now) }
{
    if is_numeral(word) {
        return Ok(Token::Number(numeral_of(word)?));
    }
    if is_name(word) {
        return Ok(Token::Name);
    }
    Err(Ground::BadToken)
}

// The longest run from a place on; where there is none, the byte there is refused.
fn run_at(text: &[u8], at: usize) -> Lexeme
    requires in_text { at < length text.now }
    requires no_separator { is_separating (get_or text.now at 0) ≡ false }
    requires alone { (get_or text.now at 0 ≢ 40) × (get_or text.now at 0 ≢ 41) × (get_or text.now at 0 ≢ 35) }
    ensures { Lexed text.now at result }
{
    let to = run_end(text, at);
    if to == at {
        return Lexeme {
            from: at,
            token: Err(Ground::BadToken),
            next: at + 1,
        };
    }
    Lexeme {
        from: at,
        token: run_token(&text[at..to]),
        next: to,
    }
}

// What a byte behind a # makes of it: #t and #f are tokens.
#[tactic(auto, unfolding(reading::specs::Token::flag_of, reading::specs::Meaning::meaning_of))]
fn flag_of(b: u8) -> Result<Token, Ground>
    ensures { (word : List ℕ) → said word result ≡ meaning_of (flag_of b) }
{
    match b {
        b't' => Ok(Token::Boolean(true)),
        b'f' => Ok(Token::Boolean(false)),
        _ => Err(Ground::BadToken),
    }
}

// A #, with the byte behind it where there is one.
fn flag_at(text: &[u8], at: usize) -> Lexeme
    requires { (at < length text.now) × (get_or text.now at 0 ≡ 35) }
    ensures { Lexed text.now at result }
{
    let behind = at + 1;
    if behind == text.len() {
        return Lexeme {
            from: at,
            token: Err(Ground::BadToken),
            next: behind,
        };
    }
    Lexeme {
        from: at,
        token: flag_of(text[behind]),
        next: behind + 1,
    }
}

// The token at a place where one stands.
fn lexeme_at(text: &[u8], at: usize) -> Lexeme
    requires in_text { at < length text.now }
    requires no_separator { is_separating (get_or text.now at 0) ≡ false }
    ensures { Lexed text.now at result }
{
    let next = at + 1;
    match text[at] {
        b'(' => Lexeme {
            from: at,
            token: Ok(Token::Open),
            next,
        },
        b')' => Lexeme {
            from: at,
            token: Ok(Token::Close),
            next,
        },
        b'#' => flag_at(text, at),
        _ => run_at(text, at),
    }
}

// The first token from a place on.
pub fn token_at(text: &[u8], from: usize) -> Option<Lexeme>
    requires { from ≤ length text.now }
    ensures { Told text.now from result }
{
    let at = skip(text, from);
    if at == text.len() {
        return None;
    }
    Some(lexeme_at(text, at))
}
