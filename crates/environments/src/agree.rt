// Ground 17: driving lists are of one length, anywhere in a template; in an element that gets no copies none are compared. The lists of
// an ellipsis depend on the index of the ellipsis next outside it alone, so that it is enough to go through the copies there.

ghost use Rattle.std.specs.Prelude.{Some, ◌<◌};
ghost use Rattle.rule_cells.specs.Cells.{template_at};
ghost use Rattle.environments.specs.Sound.{Plain};
ghost use Rattle.environments.specs.Lengths.{LengthsAgree};
ghost use Rattle.environments.specs.Reached.{CountedIn, AgreesIn};

use crate::lengths::Differ;
use crate::{environment, lengths, marks};
use rule_cells::cells;

// The largest number of copies that an element gets in the first n copies of what is round it. Lists that are the same in all of these
// are counted once, and where all are so, no copy is entered.
fn reached(work: &[u32], env: &[u32; environment::WORDS], e: u32, n: u32) -> Result<u32, Differ>
    requires { (0 < n) × Plain (template_at work.now e) }
    ensures { CountedIn work.now env.now e (Some n) result }
{
    let mut drive = [0u32; marks::WORDS];
    marks::mark(work, 0, e, &mut drive);
    let still = marks::gather(work, env, &drive, 0, words::VARIABLES, None)?;
    if !marks::any(&drive, 1, words::VARIABLES) {
        return Ok(still.unwrap_or(0));
    }
    let mut kept = [0u32; environment::WORDS];
    marks::keep(env, &drive, &mut kept);
    let mut table = [0u32; environment::WORDS];
    let moving = environment::begin(&kept, &mut table);
    let mut largest = 0;
    for _ in 0..n {
        environment::enter(work, &mut table, moving);
        let x = marks::gather(work, &table, &drive, 1, words::VARIABLES, still)?;
        largest = largest.max(x.unwrap_or(0));
    }
    Ok(largest)
}

// How many copies an element gets, the largest number where the first copies of an element are round it, so many of them.
fn counted(
    work: &[u32],
    env: &[u32; environment::WORDS],
    e: u32,
    round: Option<u32>,
) -> Result<u32, Differ>
    requires { Plain (template_at work.now e) }
    ensures { CountedIn work.now env.now e round result }
{
    let Some(n) = round else {
        return lengths::copies(work, env, e);
    };
    if n == 0 {
        return Ok(0);
    }
    reached(work, env, e, n)
}

// Whether driving lists are of one length in a part of a template, wherever it is reached.
fn agree(work: &[u32], env: &[u32; environment::WORDS], t: u32, round: Option<u32>) -> bool
    requires { Plain (template_at work.now t) }
    ensures { AgreesIn work.now env.now t round result }
{
    let head = arena::cells::reference(work, t, cells::HEAD);
    let rest = arena::cells::reference(work, t, cells::REST);
    match arena::cells::word(work, t, cells::TAG) {
        cells::PAIR => agree(work, env, head, round) && agree(work, env, rest, round),
        cells::ELLIPSIS => {
            let Ok(c) = counted(work, env, head, round) else {
                return false;
            };
            agree(work, env, head, Some(c)) && agree(work, env, rest, round)
        }
        _ => true,
    }
}

// Whether driving lists are of one length in all of a template.
pub fn lengths_agree(work: &[u32], env: &[u32; environment::WORDS], t: u32) -> bool
    requires { Plain (template_at work.now t) }
    ensures { LengthsAgree work.now env.now t result }
{
    agree(work, env, t, None)
}
