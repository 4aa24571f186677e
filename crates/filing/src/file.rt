// The whole output of a recipe's text, in lent tables.
ghost use Rattle.std.specs.Prelude.{◌≡◌, List, ℕ, ◌<◌, length, IfSome};
ghost use Rattle.std.proofs.Math.Option.{some};
ghost use Rattle.words.specs.Limits.{operations_most};
ghost use Rattle.words.specs.Code.Ground.{number_of};
ghost use Rattle.datum.specs.NameTable.{has_name};
ghost use Rattle.expansion.specs.CoreTerm.{Named};
ghost use Rattle.output.specs.Output.{refusal, acceptance};
ghost use Rattle.writer.specs.Writing.{text_of};
ghost use Rattle.writer.specs.Wrote.{Wrote};
ghost use Rattle.filing.specs.File.{Spared};
ghost use Rattle.filing.specs.Filed.{Expanded, Filed};

use crate::lines::{accepted_line, refused_line};
use expander::expand;
use reader::read;
use words::ground::Ground;
use words::{ITEM, OPERATIONS, SLOT};
use writer::bytes::byte;
use writer::write;

// The output of what is refused. It is measured, then laid.
fn refused(ground: Ground, steps: u32, sum: u32, out: &mut [u8]) -> Result<usize, Ground>
    ensures { Wrote (some (refusal (number_of ground) steps sum)) out.old out.new result }
{
    let Some(_) = refused_line(ground, steps, sum, out, 0, false) else {
        return Err(Ground::NoRoom);
    };
    let Some(to) = refused_line(ground, steps, sum, out, 0, true) else {
        return Err(Ground::NoRoom);
    };
    Ok(to)
}

// The text of the words' term from a place on, where it and one byte more fit; its end.
fn term_at(words: &[u32], names: &[u8], out: &mut [u8], from: usize) -> Option<usize>
    requires { from < length out.old }
    ensures within { IfSome result (λ to. to < length out.old) }
    ensures laid { (x : List ℕ) → text_of words.now operations_most names.now ≡ some x → Spared x from out.old out.new result }
{
    let last = out.len() - 1;
    match write(words, OPERATIONS, names, &mut out[from..last]) {
        Ok(length) => Some(from + length),
        Err(_) => None,
    }
}

// The output of an accepted term. The term is written at its place, where all fits; then its line before it, and LF behind it.
fn accepted(
    words: &[u32],
    names: &[u8],
    steps: u32,
    sum: u32,
    out: &mut [u8],
) -> Result<usize, Ground>
    ensures { (x : List ℕ) → text_of words.now operations_most names.now ≡ some x → Wrote (some (acceptance steps sum x)) out.old out.new result }
{
    let Some(from) = accepted_line(steps, sum, out, 0, false) else {
        return Err(Ground::NoRoom);
    };
    if from >= out.len() {
        return Err(Ground::NoRoom);
    }
    let Some(to) = term_at(words, names, out, from) else {
        return Err(Ground::NoRoom);
    };
    let Some(end) = byte(b'\n', out, to, true) else {
        return Err(Ground::NoRoom);
    };
    let Some(_) = accepted_line(steps, sum, out, 0, true) else {
        return Err(Ground::NoRoom);
    };
    Ok(end)
}

// The output of a recipe's items, with the name table of the same reading.
fn expanded(
    items: &[u32],
    fuel: u32,
    names: &[u8],
    work: &mut [u32],
    core: &mut [u32],
    out: &mut [u8],
) -> Result<usize, Ground>
    ensures { Named (has_name names.now) items.now → Expanded items.now fuel names.now work.old work.new core.old core.new out.old out.new result }
{
    match expand(items, fuel, work, core) {
        Ok(run) => {
            let end = run.length as usize;
            accepted(&core[..end], names, run.steps, run.sum, out)
        }
        Err(run) => refused(run.ground, run.steps, run.sum, out),
    }
}

// The output of a text with fuel, by way of four lent tables; nothing is laid where it does not fit. The tables stay apart, as `Filed` says
// of each what is left in it.
pub fn file(
    text: &[u8],
    fuel: u32,
    items: &mut [u32],
    names: &mut [u8],
    work: &mut [u32],
    core: &mut [u32],
    out: &mut [u8],
) -> Result<usize, Ground>
    ensures { Filed text.now fuel items.old items.new names.old names.new work.old work.new core.old core.new out.old out.new result }
{
    match read(text, items, names) {
        Ok(counts) => {
            let words = ITEM * counts.items;
            let bytes = SLOT * counts.names;
            expanded(&items[..words], fuel, &names[..bytes], work, core, out)
        }
        Err(ground) => refused(ground, 0, 0, out),
    }
}
