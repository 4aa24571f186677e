// A macro's use: one step, and its result in the use's place.

ghost use Rattle.std.specs.Prelude.{◌≡◌, ◌≤◌, length};
ghost use Rattle.arena.specs.Arena.{tree_at};
ghost use Rattle.turns.specs.Memory.{macros_at};
ghost use Rattle.turns.specs.Uses.{rules_word, outcome_of, UseRoom, UseLeft};

use crate::answers::{Reached, Refused, Turn};
use crate::listed::Listed;
use arena::{cells, lists};
use steps::apply;

// The rules of macro n, of `count` so far; none past them.
fn rules_of(macros: &[u32], count: u32, n: u32) -> u32
    requires { count ≤ length macros.now }
    ensures { result ≡ rules_word macros.now count n }
{
    if n < count {
        return macros[n as usize];
    }
    0
}

// Step m marks the use with m, transcribes, then marks the result with m. Both marks wait.
pub fn macro_use(
    work: &mut [u32],
    macros: &[u32],
    fuel: u32,
    list: Listed,
    number: u32,
    reached: Reached,
) -> Result<Turn, Refused>
    requires { UseRoom work.old macros.now fuel list.node list.wrap reached }
    ensures { UseLeft (outcome_of (macros_at work.old macros.now reached.macros) number fuel (tree_at work.old list.node list.wrap) reached) fuel reached work.old work.new result }
{
    let m = reached.steps + 1;
    let limit = fuel - reached.sum;
    let rules = rules_of(macros, reached.macros, number);
    let operands = lists::rest(work, list.node);
    let used = cells::put_mark(work, reached.top, m, list.wrap);
    match apply::apply(work, used, rules, operands, used, limit) {
        Err(why) => Err(reached.refused(why)),
        Ok(done) => {
            let result = cells::put_mark(work, done.root, m, 0);
            Ok(Turn::Again(done.root, result, reached.stepped(result, done.cost)))
        }
    }
}
