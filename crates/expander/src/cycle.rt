// The cycle: an expression is expanded turn by turn in one loop, its operands one after another; the stack grows with nesting alone.

ghost use Rattle.std.specs.Prelude.{◌-◌};
ghost use Rattle.recipe.specs.Tree.{size};
ghost use Rattle.arena.specs.Arena.{tree_at};
ghost use Rattle.turns.specs.Memory.{tables, Placed, Ready};
ghost use Rattle.turns.specs.Turns.{ExpandsBy, ExpandsAllBy};
ghost use Rattle.expander.specs.Cycle.{Lending};

use arena::nodes::Node;
use arena::{cells, nodes};
use turns::answers::{Reached, Refused, Turn};
use turns::{dispatch, leaf};
use words::ground::Ground;

#[cycle(expression_operand_operands)]
pub fn expression(
    work: &mut [u32],
    core: &mut [u32],
    known: &mut [u32],
    operations: &[u16],
    fuel: u32,
    start: u32,
    outer: u32,
    from: Reached,
) -> Result<Reached, Refused>
    requires { (Lending operations.now) × (Placed work.old from.top start outer) × (Ready fuel (size (tree_at work.old start outer)) from (tables work.old core.old known.old)) }
    ensures { ExpandsBy operations.now fuel (tree_at work.old start outer) from (tables work.old core.old known.old) (tables work.new core.new known.new) result }
{
    let mut node = start;
    let mut wrap = outer;
    let mut reached = from;
    loop {
        match dispatch::turn(work, core, known, operations, fuel, node, wrap, reached)? {
            Turn::Again(n, w, q) => {
                node = n;
                wrap = w;
                reached = q;
            }
            Turn::Operands(l, w, q) => {
                return operands(work, core, known, operations, fuel, l, w, q);
            }
            Turn::Over(q) => {
                return Ok(q);
            }
        }
    }
}

// An operand: a pair is expanded by turns; a name, a constant or an empty list is done at once.
#[cycle(expression_operand_operands)]
fn operand(
    work: &mut [u32],
    core: &mut [u32],
    known: &mut [u32],
    operations: &[u16],
    fuel: u32,
    node: u32,
    wrap: u32,
    from: Reached,
) -> Result<Reached, Refused>
    requires { (Lending operations.now) × (Placed work.old from.top node wrap) × (Ready fuel (size (tree_at work.old node wrap)) from (tables work.old core.old known.old)) }
    ensures { ExpandsBy operations.now fuel (tree_at work.old node wrap) from (tables work.old core.old known.old) (tables work.new core.new known.new) result }
{
    match nodes::opened(work, node) {
        Node::Empty => Err(from.refused(Ground::BadForm)),
        Node::Name(_, _) => leaf::bare_name(work, core, operations, node, wrap, from),
        Node::Pair(_, _) => expression(work, core, known, operations, fuel, node, wrap, from),
        Node::Constant(kind, first, second) => Ok(leaf::constant(core, kind, first, second, from)),
    }
}

#[cycle(expression_operand_operands)]
fn operands(
    work: &mut [u32],
    core: &mut [u32],
    known: &mut [u32],
    operations: &[u16],
    fuel: u32,
    first: u32,
    wrap: u32,
    from: Reached,
) -> Result<Reached, Refused>
    requires { (Lending operations.now) × (Placed work.old from.top first wrap) × (Ready fuel (size (tree_at work.old first wrap) - 1) from (tables work.old core.old known.old)) }
    ensures { ExpandsAllBy operations.now fuel (tree_at work.old first wrap) from (tables work.old core.old known.old) (tables work.new core.new known.new) result }
{
    let mut list = first;
    let mut reached = from;
    while cells::word(work, list, cells::KIND) == cells::PAIR {
        let head = cells::reference(work, list, cells::HEAD);
        match operand(work, core, known, operations, fuel, head, wrap, reached) {
            Ok(next) => reached = next,
            Err(refused) => return Err(refused),
        }
        list = cells::reference(work, list, cells::TAIL);
    }
    Ok(reached)
}
