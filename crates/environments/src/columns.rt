// The entries of a pattern's variables: a visit for each of the pattern's cells.

ghost use Rattle.environments.specs.Columns.{Columned, Words};

use crate::entries;
use crate::entries::Entry;
use rule_cells::cells;

// The entries of a part of a pattern, x the next slot's; the one after. The first entry of a variable stays.
pub fn columns(work: &[u32], env: &mut [u32; entries::WORDS], p: u32, x: Entry) -> Entry
    requires { Words x }
    ensures { Columned work.now p x env.old env.new result }
{
    let tag = arena::cells::word(work, p, cells::TAG);
    if tag == cells::VARIABLE {
        let k = arena::cells::word(work, p, cells::PATTERN_NUMBER);
        entries::set(env, k, entries::found(work, x));
        return entries::next(x);
    }
    let rest = arena::cells::reference(work, p, cells::REST);
    let head = arena::cells::reference(work, p, cells::HEAD);
    if tag == cells::ELLIPSIS {
        columns(work, env, head, entries::inside(work, x));
        return columns(work, env, rest, entries::next(x));
    }
    if tag != cells::PAIR {
        return x;
    }
    let y = columns(work, env, head, x);
    columns(work, env, rest, y)
}
