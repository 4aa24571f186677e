// The start: the arena of an item table, and the expansion of its recipe's expression.

ghost use Rattle.std.specs.Prelude.{◌+◌, ◌*◌, ◌≤◌, length};
ghost use Rattle.words.specs.Limits.{macros_most};
ghost use Rattle.recipe.specs.Table.{item_count, tree_of};
ghost use Rattle.expansion.specs.Run.{ended, expand_recipe};
ghost use Rattle.turns.specs.Memory.{macro_items};
ghost use Rattle.expander.specs.Start.{Lends, Expanded};

use crate::cycle;
use arena::lists;
use turns::answers::{Reached, Refused};

// A macro takes at least six items, and an expansion has at most its table's and one for each unit of fuel.
const MACRO_ITEMS: usize = 6;

// A word for each macro: of most recipes, and of 4,096 items with a fuel of 8,192.
const FEW_MACROS: usize = 128;

const MACRO_WORDS: usize = 2048;

// The run of the recipe, with a table for its macros.
fn run(
    items: &[u32],
    work: &mut [u32],
    core: &mut [u32],
    known: &mut [u32],
    operations: &[u16],
    fuel: u32,
) -> Result<Reached, Refused>
    requires { (Lends items.now work.old core.old operations.now fuel) × (item_count items.now + fuel ≤ macro_items * length known.old) }
    ensures { Expanded (ended (expand_recipe macros_most fuel (tree_of items.now))) core.new result }
{
    let top = arena::item_nodes::lay_out(items, work);
    let body = lists::element(work, top, 1);
    let from = Reached::start(top);
    cycle::expression(work, core, known, operations, fuel, body, 0, from)
}

// Past the tests of grounds 7 to 10: the run of the recipe, its term's words from the core table's start.
pub fn expand_recipe(
    items: &[u32],
    work: &mut [u32],
    core: &mut [u32],
    operations: &[u16],
    fuel: u32,
) -> Result<Reached, Refused>
    requires { Lends items.now work.old core.old operations.now fuel }
    ensures { Expanded (ended (expand_recipe macros_most fuel (tree_of items.now))) core.new result }
{
    if items.len() / 3 + fuel as usize <= MACRO_ITEMS * FEW_MACROS {
        let mut few = [0u32; FEW_MACROS];
        return run(items, work, core, &mut few, operations, fuel);
    }
    let mut known = [0u32; MACRO_WORDS];
    run(items, work, core, &mut known, operations, fuel)
}
