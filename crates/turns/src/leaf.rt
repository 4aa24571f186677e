// Expressions that are done at once: constants and bare names.

ghost use Rattle.std.specs.Prelude.{◌≤◌, Ok};
ghost use Rattle.words.specs.Limits.{core_rate};
ghost use Rattle.datum.specs.Constant.{decimal_kind};
ghost use Rattle.arena.specs.Arena.{name_at};
ghost use Rattle.resolution.specs.Names.{lookup_in};
ghost use Rattle.turns.specs.Memory.{CoreRoom};
ghost use Rattle.turns.specs.Leaves.{Leaf, name_end, ConstantLeft};

use crate::answers::{Reached, Refused};
use crate::output;
use core_term::codes;
use forms::quotes;
use resolution::names;
use resolution::names::Meaning;
use words::ground::Ground;

// A constant stands for itself.
pub fn constant(core: &mut [u32], kind: u32, first: u32, second: u32, reached: Reached) -> Reached
    requires { (CoreRoom core.old reached.at core_rate) × (kind ≤ decimal_kind) }
    ensures { ConstantLeft kind first second reached core.old core.new (Ok result) }
{
    let at = quotes::put_constant(core, reached.at as usize, kind, first, second);
    reached.moved(at as u32)
}

// A bare name is a variable or an operation (grounds 11 and 12).
pub fn bare_name(
    work: &[u32],
    core: &mut [u32],
    operations: &[u16],
    node: u32,
    wrap: u32,
    reached: Reached,
) -> Result<Reached, Refused>
    requires { CoreRoom core.old reached.at 2 }
    ensures { Leaf (name_end (lookup_in operations.now (name_at work.now node wrap))) 2 reached core.old core.new result }
{
    let Some(found) = names::lookup(work, operations, node, wrap) else {
        return Err(reached.refused(Ground::Unbound));
    };
    match found {
        Meaning::Variable(v) => Ok(output::put_node(core, reached, codes::VARIABLE, v)),
        Meaning::Operation(p) => Ok(output::put_node(core, reached, codes::OPERATION, p)),
        Meaning::Macro(_) => Err(reached.refused(Ground::BareForm)),
        Meaning::Form(_) => Err(reached.refused(Ground::BareForm)),
    }
}
