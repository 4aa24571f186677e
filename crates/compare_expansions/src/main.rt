// The comparing program: the recipe in the file that its first argument names is expanded, with the most fuel and the largest tables, the
// supplier's text in the file that its second names is held against the term, and yes, no, or refused, the ground and whose text it is about is printed.
#![tactic(auto)]

ghost use Rattle.std.specs.Prelude.{◌≤◌, length, IfOk, IfSome};
ghost use Rattle.comparison_output.specs.Output.{output};
ghost use Rattle.program_laws.specs.Printed.{Printed};
ghost use Rattle.compare_expansions.specs.Line.{line_most};

mod line; // what is printed
mod pair; // a recipe and a supplier's text, in lent tables

use input::load;
use line::line;
use pair::compared;
use std::env::{Env, FillError};
use std::rt::Files;
use std::{fs, io, str};
use words::{CORE_RATE, FUEL, ITEM_WORDS, MOST_ITEMS, NAME_BYTES, TEXT_BYTES, WORK_RATE};

// Bytes of a buffer that any text fits, and that a text which is too long fills; and of one that any path fits.
const BUFFER: usize = TEXT_BYTES + 1;

const PATH: usize = 4096;

// Words of the tables that any recipe can be expanded in, 294,912 and 36,864. With the two texts and the tables of reading they are
// 1.7 million bytes of stack; beside them expansion takes at most 6.6 million (include/grebetallboy.h), which 8 MiB have room for. When
// expansion has given its stack back, comparing goes as deep as the term, at most 64 levels of the recipe and one for each two of the 8,192
// items that macros make.
const WORK: usize = WORK_RATE * (MOST_ITEMS + FUEL as usize);

const CORE: usize = CORE_RATE * (MOST_ITEMS + FUEL as usize);

// Bytes of the longest output. specs/Line.antt has the same number.
const LINE: usize = 26;

// The output of a recipe's text and a supplier's, at the beginning of out; its length. Any output fits.
fn output(recipe: &[u8], text: &[u8], out: &mut [u8]) -> usize
    requires { line_most ≤ length out.old }
    ensures { Printed (output recipe.now text.now) out.old out.new result }
{
    let mut items = [0; ITEM_WORDS];
    let mut names = [0; NAME_BYTES];
    let mut work = [0; WORK];
    let mut core = [0; CORE];
    let mut text_items = [0; ITEM_WORDS];
    let mut text_names = [0; NAME_BYTES];
    let answer = compared(
        recipe,
        text,
        &mut items,
        &mut names,
        &mut work,
        &mut core,
        &mut text_items,
        &mut text_names,
    );
    line(answer, out)
}

// The bytes of a file, as many as the buffer holds, at its beginning; how many.
fn read_file(rt: &impl Files, path: &str, bytes: &mut [u8]) -> io::Result<usize>
    ensures { IfOk result (λ n. n ≤ length bytes.new) }
{
    let mut file = fs::open(rt, path)?;
    load(&mut file, bytes)
}

// The bytes of the file that argument i names, as many as a buffer holds, at its beginning; how many. Where it cannot be read, standard
// error says why.
fn load_argument(
    rt: &(impl Env + Files + Eprint),
    i: usize,
    bytes: &mut [u8],
) -> io::Result<Option<usize>>
    ensures { IfOk result (λ o. IfSome o (λ n. n ≤ length bytes.new)) }
{
    let mut path = [0u8; PATH];
    let Ok(length) = rt.arg(i, &mut path) else {
        eprintln!(rt; "argument: File name too long")?;
        return Ok(None);
    };
    let Ok(name) = str::from_utf8(&path[..length]) else {
        let escaped = path[..length].escape_ascii();
        eprintln!(rt; "{escaped}: not UTF-8")?;
        return Ok(None);
    };
    match read_file(rt, name, bytes) {
        Ok(count) => Ok(Some(count)),
        Err(e) => {
            eprintln!(rt; "{name}: {e}")?;
            Ok(None)
        }
    }
}

// Whether argument i is given.
fn is_given(rt: &impl Env, i: usize) -> bool {
    !matches!(rt.arg(i, &mut []), Err(FillError::NotPresent))
}

// Prints the output of two texts.
fn print(rt: &(impl Print + Eprint), recipe: &[u8], text: &[u8]) -> io::Result<()> {
    let mut out = [0u8; LINE];
    let end = output(recipe, text, &mut out);
    match rt.write_all(&out[..end]) {
        Ok(()) => Ok(()),
        Err(e) => eprintln!(rt; "standard output: {e}"),
    }
}

// A text of more than 65,535 bytes fills its buffer, and is refused by its length.
fn main(rt: HostRuntime) -> io::Result<()> {
    if !is_given(&rt, 2) || is_given(&rt, 3) {
        return eprintln!(rt; "usage: compare_expansions RECIPE TEXT");
    }
    let mut recipe = [0u8; BUFFER];
    let Some(recipe_length) = load_argument(&rt, 1, &mut recipe)? else {
        return Ok(());
    };
    let mut text = [0u8; BUFFER];
    let Some(text_length) = load_argument(&rt, 2, &mut text)? else {
        return Ok(());
    };
    print(&rt, &recipe[..recipe_length], &text[..text_length])
}
