// One turn of an expression: what it is, and what its head finds, says which.

ghost use Rattle.std.specs.Prelude.{Ok};
ghost use Rattle.words.specs.Limits.{macros_most};
ghost use Rattle.arena.specs.Arena.{name_at, tree_at};
ghost use Rattle.arena.specs.Nodes.{OpensPair};
ghost use Rattle.recipe.specs.Tree.{size};
ghost use Rattle.turns.specs.Memory.{tables, CoreRoom, Placed, Ready};
ghost use Rattle.turns.specs.Turns.{TurnedBy};
ghost use Rattle.turns.specs.Dispatch.{Headed, FormHead, FormRoom, Turns, Applies};

use crate::answers::{Reached, Refused, Turn};
use crate::listed::Listed;
use crate::macros::RulesStand;
use crate::{base_forms, leaf, macros, output, uses};
use arena::nodes::Node;
use arena::{lists, nodes};
use core_term::codes;
use resolution::names;
use resolution::names::Meaning;
use words::ground::Ground;

// A list whose head finds base form k.
fn form(
    work: &mut [u32],
    core: &mut [u32],
    macros: &mut [u32],
    k: u32,
    list: Listed,
    reached: Reached,
) -> Result<Turn, Refused>
    requires { (FormHead work.old list.node list.tail list.wrap k) × (FormRoom work.old core.old macros.old list.node list.wrap reached) }
    ensures { Turns macros_most (tree_at work.old list.node list.wrap) reached (tables work.old core.old macros.old) (tables work.new core.new macros.new) result }
{
    if k == names::QUOTE {
        return Ok(Turn::Over(base_forms::quoted(work, core, list.node, reached)?));
    }
    if k == names::IF {
        return base_forms::condition(work, core, list, reached);
    }
    if k == names::LAMBDA {
        return base_forms::lambda(work, core, list, reached);
    }
    if k == names::LET_SYNTAX {
        return macros::let_syntax(
            work,
            macros,
            list,
            RulesStand::Outside,
            words::MACROS,
            reached,
        );
    }
    if k == names::LETREC_SYNTAX {
        return macros::let_syntax(
            work,
            macros,
            list,
            RulesStand::Inside,
            words::MACROS,
            reached,
        );
    }
    Err(reached.refused(Ground::BareForm))
}

// A list whose head is a name.
fn named(
    work: &mut [u32],
    core: &mut [u32],
    macros: &mut [u32],
    operations: &[u16],
    fuel: u32,
    list: Listed,
    reached: Reached,
) -> Result<Turn, Refused>
    requires { (Placed work.old reached.top list.node list.wrap) × (Ready fuel (size (tree_at work.old list.node list.wrap)) reached (tables work.old core.old macros.old)) × (Headed work.old list.node list.tail list.wrap (name_at work.old list.head list.wrap)) }
    ensures { TurnedBy operations.now fuel (tree_at work.old list.node list.wrap) reached (tables work.old core.old macros.old) (tables work.new core.new macros.new) result }
{
    let Some(found) = names::lookup(work, operations, list.head, list.wrap) else {
        return Err(reached.refused(Ground::Unbound));
    };
    match found {
        Meaning::Variable(v) => {
            let headed = output::put_application(
                work,
                core,
                list.tail,
                codes::VARIABLE,
                v,
                reached,
            );
            Ok(Turn::Operands(list.tail, list.wrap, headed))
        }
        Meaning::Operation(p) => {
            let headed = output::put_application(
                work,
                core,
                list.tail,
                codes::OPERATION,
                p,
                reached,
            );
            Ok(Turn::Operands(list.tail, list.wrap, headed))
        }
        Meaning::Macro(n) => uses::macro_use(work, macros, fuel, list, n, reached),
        Meaning::Form(k) => form(work, core, macros, k, list, reached),
    }
}

// An application whose head is no name: its header, and the head is the first of what is left.
fn applied(work: &[u32], core: &mut [u32], list: Listed, reached: Reached) -> Turn
    requires { CoreRoom core.old reached.at 2 }
    ensures { Applies macros_most work.now list.node list.tail list.wrap reached core.old core.new (Ok result) }
{
    let count = lists::count(work, list.tail);
    Turn::Operands(
        list.node,
        list.wrap,
        output::put_node(core, reached, codes::APPLICATION, count),
    )
}

// A list goes by its head: a name, or an expression that is applied.
fn list(
    work: &mut [u32],
    core: &mut [u32],
    macros: &mut [u32],
    operations: &[u16],
    fuel: u32,
    list: Listed,
    reached: Reached,
) -> Result<Turn, Refused>
    requires { (Placed work.old reached.top list.node list.wrap) × (Ready fuel (size (tree_at work.old list.node list.wrap)) reached (tables work.old core.old macros.old)) × (OpensPair work.old list.node list.head list.tail) }
    ensures { TurnedBy operations.now fuel (tree_at work.old list.node list.wrap) reached (tables work.old core.old macros.old) (tables work.new core.new macros.new) result }
{
    if nodes::is_name(work, list.head) {
        return named(work, core, macros, operations, fuel, list, reached);
    }
    Ok(applied(work, core, list, reached))
}

// An empty list is refused, a name or a constant is done at once.
pub fn turn(
    work: &mut [u32],
    core: &mut [u32],
    macros: &mut [u32],
    operations: &[u16],
    fuel: u32,
    node: u32,
    wrap: u32,
    reached: Reached,
) -> Result<Turn, Refused>
    requires { (Placed work.old reached.top node wrap) × (Ready fuel (size (tree_at work.old node wrap)) reached (tables work.old core.old macros.old)) }
    ensures { TurnedBy operations.now fuel (tree_at work.old node wrap) reached (tables work.old core.old macros.old) (tables work.new core.new macros.new) result }
{
    match nodes::opened(work, node) {
        Node::Empty => Err(reached.refused(Ground::BadForm)),
        Node::Name(_, _) => {
            let done = leaf::bare_name(work, core, operations, node, wrap, reached)?;
            Ok(Turn::Over(done))
        }
        Node::Pair(head, tail) => {
            let at = Listed {
                node,
                head,
                tail,
                wrap,
            };
            list(work, core, macros, operations, fuel, at, reached)
        }
        Node::Constant(kind, first, second) => {
            Ok(Turn::Over(leaf::constant(core, kind, first, second, reached)))
        }
    }
}
