// Prints the tokens of the text that it is given, one to a line, each after its offset. A token on which reading turns the text
// back shows its ground in place of its bytes; a text that is too long shows ground 2 at the first byte past the limit. Where standard
// input cannot be read, standard error says why, and nothing is printed.
#![tactic(auto)]

ghost use Rattle.std.specs.Prelude.{◌≤◌, length};

use input::read_full;
use lexer::token::Lexeme;
use lexer::token_reader::token_from;
use std::io;
use words::ground::Ground;

// Bytes of a buffer that any text fits, and that a text which is too long fills.
const BUFFER: usize = words::TEXT_BYTES + 1;

// An offset, then the ground on which reading turns the text back there.
fn print_ground(rt: &impl Print, from: usize, ground: Ground) -> io::Result<()> {
    println!(rt; "{from} ground {ground}")
}

// An offset, then the bytes of the token there, or its ground.
fn print_lexeme(rt: &impl Print, text: &[u8], lexeme: Lexeme) -> io::Result<()>
    requires { (lexeme.from ≤ lexeme.next) × (lexeme.next ≤ length text.now) }
{
    if let Err(ground) = lexeme.token {
        return print_ground(rt, lexeme.from, ground);
    }
    let from = lexeme.from;
    print!(rt; "{from} ")?;
    rt.write_all(&text[from..lexeme.next])?;
    rt.write_all(b"\n")
}

// One token after another.
fn print_tokens(rt: &impl Print, text: &[u8]) -> io::Result<()> {
    let mut at = 0;
    while let Some(lexeme) = token_from(text, at) {
        print_lexeme(rt, text, lexeme)?;
        at = lexeme.next;
    }
    Ok(())
}

fn main(rt: HostRuntime) -> io::Result<()> {
    let mut text = [0u8; BUFFER];
    let n = match read_full(&mut rt.stdin(), &mut text) {
        Ok(n) => n,
        Err(e) => return eprintln!(rt; "standard input: {e}"),
    };
    print_tokens(&rt, &text[..n])?;
    if words::TEXT_BYTES < n {
        print_ground(&rt, words::TEXT_BYTES, Ground::LongText)?;
    }
    Ok(())
}
