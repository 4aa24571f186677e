// What an ellipsis takes of a list, and what it leaves.

ghost use Rattle.environments.specs.Parts.{Shares, After, LooksAhead};

use arena::lists;
use rule_cells::cells;

// The node behind as many elements as follow the ellipsis of a pattern's cell, gone along from a list's first; none where the list has
// fewer.
pub fn look_ahead(work: &[u32], p: u32, list: u32) -> Option<u32>
    ensures { LooksAhead work.now p list result }
{
    let n = arena::cells::word(work, p, cells::FOLLOWING);
    let mut node = list;
    let mut k = n;
    while k != 0 {
        if arena::cells::word(work, node, arena::cells::KIND) != arena::cells::PAIR {
            return None;
        }
        node = arena::cells::reference(work, node, arena::cells::TAIL);
        k -= 1;
    }
    Some(node)
}

// How many elements of a list it takes: all but as many as follow the ellipsis of a pattern's cell.
pub fn share(work: &[u32], p: u32, list: u32) -> u32
    ensures { Shares work.now p list result }
{
    let n = arena::cells::word(work, p, cells::FOLLOWING);
    let c = lists::count(work, list);
    if c <= n {
        return 0;
    }
    c - n
}

// The list behind these elements. A second node is ahead of the first by as many elements as follow the ellipsis.
pub fn after(work: &[u32], p: u32, list: u32) -> u32
    ensures { After work.now p list result }
{
    let mut node = list;
    let mut ahead = lists::skip(work, list, arena::cells::word(work, p, cells::FOLLOWING));
    while arena::cells::word(work, ahead, arena::cells::KIND) == arena::cells::PAIR {
        node = arena::cells::reference(work, node, arena::cells::TAIL);
        ahead = arena::cells::reference(work, ahead, arena::cells::TAIL);
    }
    node
}
