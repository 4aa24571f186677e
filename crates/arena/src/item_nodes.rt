// The first arena: the nodes of an item table, the last item's first.

ghost use Rattle.std.specs.Prelude.{◌≡◌, ◌+◌, ◌<◌, ◌≤◌, true, length};
ghost use Rattle.words.specs.Limits.{items_most};
ghost use Rattle.recipe.specs.Table.{is_layout, tree_of};
ghost use Rattle.arena.specs.Arena.{tree_at};
ghost use Rattle.arena.specs.LayOut.{node_of, Laid, Laying, LaidOut};

use crate::{cells, origins};

// The reference of an item's node.
#[tactic(auto, unfolding(crate::specs::LayOut::node_of))]
fn node_of(count: u32, item: u32) -> u32
    requires { count ≤ items_most }
    ensures { result ≡ node_of count item }
{
    if count < item {
        return 0;
    }
    3 * (count - item)
}

// The node of the item before those that are laid out; answers the new top.
fn lay_item(items: &[u32], work: &mut [u32], count: u32, laid: u32) -> u32
    requires { Laying items.now work.old count laid }
    ensures { Laid items.now work.new (laid + 1) }
{
    let item = count - 1 - laid;
    let at = 3 * (item as usize);
    let top = 3 * laid;
    let kind = items[at];
    if kind == cells::EMPTY {
        return cells::put_empty(work, top);
    }
    if kind == cells::NAME {
        let number = items[at + 1];
        let origin = origins::of_item(number, item);
        return cells::put_name(work, top, origin, 0);
    }
    let first = items[at + 1];
    let second = items[at + 2];
    if kind == cells::PAIR {
        let head = node_of(count, first);
        let tail = node_of(count, second);
        return cells::put_pair(work, top, head, tail);
    }
    cells::put_constant(work, top, kind, first, second)
}

// The nodes of all items; answers the top, which is the root's reference. Ground 7 has passed, and ground 9 gives the room.
pub fn lay_out(items: &[u32], work: &mut [u32]) -> u32
    requires { (is_layout items.now ≡ true) × (length items.now ≤ length work.old) }
    ensures { LaidOut items.now work.new result }
{
    let count = (items.len() / 3) as u32;
    for laid in 0..count {
        lay_item(items, work, count, laid);
    }
    3 * count
}
