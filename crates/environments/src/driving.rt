// Driving lists by what variables take: how many copies an element gets in a copy of what is round it (ground 17).

ghost use Rattle.std.specs.Prelude.{Ok, ◌+◌, ◌^◌, ◌<◌};
ghost use Rattle.environments.specs.Driving.{DrivenBy, CountedBy};

use crate::lengths::Differ;
use crate::{entries, lengths, taken};
use rule_cells::cells;

// The length of the lists that drive the copies of an element in copy `inner` of what is round it, and of others; t is the part of it under j ellipses.
// A visit for each cell of the part, and a list's count in one step.
fn drivers(
    work: &[u32],
    env: &[u32; entries::WORDS],
    j: u32,
    t: u32,
    inner: u32,
    before: Option<u32>,
) -> Result<Option<u32>, Differ>
    requires { j + t < 2 ^ 32 }
    ensures { DrivenBy work.now env.now j t inner (Ok before) result }
{
    let tag = arena::cells::word(work, t, cells::TAG);
    match tag {
        cells::VARIABLE => {
            let d = arena::cells::word(work, t, cells::DEPTH);
            if d <= j {
                return Ok(before);
            }
            let k = arena::cells::word(work, t, cells::NUMBER);
            lengths::also(Ok(before), taken::copies(work, env, k, d - j - 1, inner))
        }
        cells::PAIR | cells::ELLIPSIS => {
            let head = arena::cells::reference(work, t, cells::HEAD);
            let first = drivers(work, env, lengths::deeper(tag, j), head, inner, before)?;
            let rest = arena::cells::reference(work, t, cells::REST);
            drivers(work, env, j, rest, inner, first)
        }
        _ => Ok(before),
    }
}

// How many copies an element gets in copy `inner` of what is round it: as many as each list that drives it has elements, none where there
// is no such list. A visit for each of its cells.
pub fn copies(work: &[u32], env: &[u32; entries::WORDS], e: u32, inner: u32) -> Result<u32, Differ>
    ensures { CountedBy work.now env.now e inner result }
{
    Ok(drivers(work, env, 0, e, inner, None)?.unwrap_or(0))
}
