// Core words, written one after another.

ghost use Rattle.std.specs.Prelude.{[], ◌∷◌};
ghost use Rattle.core_term.specs.Node.{if_code};
ghost use Rattle.turns.specs.Memory.{CoreRoom, Moved, HeaderMoved};

use crate::answers::Reached;
use arena::lists;
use core_term::codes;
use forms::quotes;

// A node's two words; the numbers are carried on.
pub fn put_node(core: &mut [u32], reached: Reached, a: u32, b: u32) -> Reached
    requires { CoreRoom core.old reached.at 2 }
    ensures { Moved (a ∷ b ∷ []) reached core.old core.new result }
{
    let at = quotes::put(core, reached.at as usize, &[a, b]);
    reached.moved(at as u32)
}

// The header of an application with a named head, which is a variable or an operation: how many operands, and the head.
pub fn put_application(
    work: &[u32],
    core: &mut [u32],
    list: u32,
    code: u32,
    number: u32,
    reached: Reached,
) -> Reached
    requires { CoreRoom core.old reached.at 4 }
    ensures { HeaderMoved list code number reached work.now core.old core.new result }
{
    let count = lists::count(work, list);
    let header = [codes::APPLICATION, count, code, number];
    let at = quotes::put(core, reached.at as usize, &header);
    reached.moved(at as u32)
}

// The word of an if.
pub fn put_if(core: &mut [u32], reached: Reached) -> Reached
    requires { CoreRoom core.old reached.at 1 }
    ensures { Moved (if_code ∷ []) reached core.old core.new result }
{
    let at = quotes::put(core, reached.at as usize, &[codes::IF]);
    reached.moved(at as u32)
}
