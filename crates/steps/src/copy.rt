// Trees of the use, copied into fresh nodes above the top while there is fuel for each item (ground 18), and lists turned round.
// A name from the use gets the use's pending wrap, joined with its own.

ghost use Rattle.std.specs.Prelude.{◌≡◌, ◌*◌, ◌≤◌};
ghost use Rattle.recipe.specs.Tree.{name};
ghost use Rattle.arena.specs.Arena.{word_at, name_at, tree_at};
ghost use Rattle.arena.specs.Cells.{Room};
ghost use Rattle.steps.specs.Build.{Fresh, Waiting, Pays, ElementsBackwards, Reversed};

use arena::{cells, lists, origins};

// The root of what was built, which is the new top, and the fuel that is left. There is none where there is not fuel enough.
#[derive(Clone, Copy)]
pub struct Built {
    pub at: u32,
    pub left: u32,
}

// A fresh name from a name's node and a wrap that waits on it.
pub fn copy_name(work: &mut [u32], top: u32, node: u32, w: u32) -> u32
    requires { (Room work.old top 6) × (node ≤ top) × (w ≤ top) }
    ensures { Fresh (name (name_at work.old node w)) work.old work.new top result }
{
    let origin = origins::produced(cells::word(work, node, cells::ORIGIN));
    let own = cells::reference(work, node, cells::OWN);
    if own == 0 {
        return cells::put_name(work, top, origin, w);
    }
    let joined = cells::put_join(work, top, w, own);
    cells::put_name(work, joined, origin, joined)
}

// A fresh copy of a node that is no pair.
fn copy_leaf(work: &mut [u32], top: u32, fuel: u32, node: u32, w: u32) -> Option<Built>
    requires { (Waiting work.old top fuel node w) × (word_at work.old node 3 ≡ 4 → ⊥) }
    ensures { Pays (tree_at work.old node w) work.old work.new top fuel result }
{
    let left = fuel.checked_sub(1)?;
    let kind = cells::word(work, node, cells::KIND);
    if kind == cells::EMPTY {
        return Some(Built {
            at: cells::put_empty(work, top),
            left,
        });
    }
    if kind == cells::NAME {
        return Some(Built {
            at: copy_name(work, top, node, w),
            left,
        });
    }
    let a = cells::word(work, node, cells::FIRST);
    let b = cells::word(work, node, cells::SECOND);
    Some(Built {
        at: cells::put_constant(work, top, kind, a, b),
        left,
    })
}

// A fresh copy of a part of a tree. A part that is no pair is copied in place, without a call more.
#[cycle(copy_part_copy_tree)]
fn copy_part(work: &mut [u32], top: u32, fuel: u32, node: u32, w: u32) -> Option<Built>
    requires { Waiting work.old top fuel node w }
    ensures { Pays (tree_at work.old node w) work.old work.new top fuel result }
{
    if cells::word(work, node, cells::KIND) == cells::PAIR {
        return copy_tree(work, top, fuel, node, w);
    }
    copy_leaf(work, top, fuel, node, w)
}

// A fresh copy of a tree, its tail before its head.
#[cycle(copy_part_copy_tree)]
pub fn copy_tree(work: &mut [u32], top: u32, fuel: u32, node: u32, w: u32) -> Option<Built>
    requires { Waiting work.old top fuel node w }
    ensures { Pays (tree_at work.old node w) work.old work.new top fuel result }
{
    if cells::word(work, node, cells::KIND) != cells::PAIR {
        return copy_leaf(work, top, fuel, node, w);
    }
    let spare = fuel.checked_sub(1)?;
    let first = cells::reference(work, node, cells::HEAD);
    let rest = cells::reference(work, node, cells::TAIL);
    let tail = copy_part(work, top, spare, rest, w)?;
    let head = copy_part(work, tail.at, tail.left, first, w)?;
    Some(Built {
        at: cells::put_pair(work, head.at, head.at, tail.at),
        left: head.left,
    })
}

// The first c elements of a list, copied, the last first.
pub fn copy_elements(
    work: &mut [u32],
    top: u32,
    fuel: u32,
    list: u32,
    w: u32,
    c: u32,
) -> Option<Built>
    requires { Waiting work.old top fuel list w }
    ensures { ElementsBackwards work.old work.new top fuel list w c result }
{
    let mut at = top;
    let mut node = list;
    let mut left = fuel;
    for _ in 0..c {
        let spare = left.checked_sub(1)?;
        let first = lists::first(work, node);
        let head = copy_part(work, at, spare, first, w)?;
        node = lists::rest(work, node);
        at = cells::put_pair(work, head.at, head.at, at);
        left = head.left;
    }
    Some(Built { at, left })
}

// The first c elements of a list, each in front of the ones before it and of a tail.
pub fn put_reversed(work: &mut [u32], top: u32, list: u32, tail: u32, c: u32) -> u32
    requires { (Room work.old top (3 * c)) × (list ≤ top) × (tail ≤ top) }
    ensures { Reversed work.old work.new top list tail c result }
{
    let mut at = top;
    let mut node = list;
    let mut rest = tail;
    for _ in 0..c {
        let first = lists::first(work, node);
        at = cells::put_pair(work, at, first, rest);
        rest = at;
        node = lists::rest(work, node);
    }
    rest
}
