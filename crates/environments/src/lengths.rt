// Driving lists: how many copies an element gets, where the lists that drive it are of one length (ground 17).

ghost use Rattle.std.specs.Prelude.{◌≡◌, Ok, ◌+◌, ◌^◌, ◌<◌};
ghost use Rattle.environments.specs.Lengths.{deeper, also, Drives, Counted};

use crate::environment;
use rule_cells::cells;

// That two lists which drive one element differ in length (ground 17).
#[derive(Clone, Copy)]
pub struct Differ;

// The ellipses round the first part of a template's cell: one more for an element.
pub fn deeper(tag: u32, j: u32) -> u32
    requires { j + 1 < 2 ^ 32 }
    ensures { result ≡ deeper tag j }
{
    if tag == cells::ELLIPSIS {
        return j + 1;
    }
    j
}

// The length of the lists, where there are any, with one list more, of this length.
#[tactic(auto, unfolding(crate::specs::Lengths::also))]
pub fn also(before: Result<Option<u32>, Differ>, length: u32) -> Result<Option<u32>, Differ>
    ensures { result ≡ also before length }
{
    match before {
        Ok(None) => Ok(Some(length)),
        Ok(Some(c)) => {
            if c == length {
                return before;
            }
            Err(Differ)
        }
        Err(_) => before,
    }
}

// The length of the lists that drive the copies of an element, and of others; t is the part of it under j ellipses.
fn drivers(
    work: &[u32],
    env: &[u32; environment::WORDS],
    j: u32,
    t: u32,
    before: Option<u32>,
) -> Result<Option<u32>, Differ>
    requires { j + t < 2 ^ 32 }
    ensures { Drives work.now env.now j t (Ok before) result }
{
    let tag = arena::cells::word(work, t, cells::TAG);
    match tag {
        cells::VARIABLE => {
            let d = arena::cells::word(work, t, cells::DEPTH);
            if d <= j {
                return Ok(before);
            }
            let k = arena::cells::word(work, t, cells::NUMBER);
            also(Ok(before), environment::copies(work, env, k, d - j - 1))
        }
        cells::PAIR | cells::ELLIPSIS => {
            let head = arena::cells::reference(work, t, cells::HEAD);
            let first = drivers(work, env, deeper(tag, j), head, before)?;
            let rest = arena::cells::reference(work, t, cells::REST);
            drivers(work, env, j, rest, first)
        }
        _ => Ok(before),
    }
}

// How many copies an element gets: as many as each list that drives it has elements, none where there is no such list.
pub fn copies(work: &[u32], env: &[u32; environment::WORDS], e: u32) -> Result<u32, Differ>
    ensures { Counted work.now env.now e result }
{
    Ok(drivers(work, env, 0, e, None)?.unwrap_or(0))
}
