// Lists in the arena: elements, tails, lengths, tests. Node 0 is the empty list, which is answered where there is none to answer.
// What a node means is said under every wrap, since opening a list hands its wrap on.

ghost use Rattle.recipe.specs.Tree.{element, tail, past, is_list, is_list_of};
ghost use Rattle.arena.specs.Lists.{Means, Counts, Tests};

use crate::cells;

// The first element of a list.
pub fn first(work: &[u32], node: u32) -> u32
    ensures { Means work.now node result (element 0) }
{
    if cells::word(work, node, cells::KIND) != cells::PAIR {
        return 0;
    }
    cells::reference(work, node, cells::HEAD)
}

// The list after its first element.
pub fn rest(work: &[u32], node: u32) -> u32
    ensures { Means work.now node result tail }
{
    if cells::word(work, node, cells::KIND) != cells::PAIR {
        return 0;
    }
    cells::reference(work, node, cells::TAIL)
}

// The list after its first n elements.
pub fn skip(work: &[u32], list: u32, n: u32) -> u32
    ensures { Means work.now list result (past n) }
{
    let mut node = list;
    for _ in 0..n {
        node = rest(work, node);
    }
    node
}

// Element i of a list, from 0.
pub fn element(work: &[u32], list: u32, i: u32) -> u32
    ensures { Means work.now list result (element i) }
{
    let node = skip(work, list, i);
    first(work, node)
}

// How many elements a list has.
pub fn count(work: &[u32], list: u32) -> u32
    ensures { Counts work.now list result }
{
    let mut node = list;
    let mut k = 0;
    while cells::word(work, node, cells::KIND) == cells::PAIR {
        node = cells::reference(work, node, cells::TAIL);
        k += 1;
    }
    k
}

// Whether a node is a list, empty or not.
pub fn is_list(work: &[u32], node: u32) -> bool
    ensures { Tests is_list work.now node result }
{
    let kind = cells::word(work, node, cells::KIND);
    kind == cells::EMPTY || kind == cells::PAIR
}

// Whether a node is a list of exactly n elements.
pub fn is_list_of(work: &[u32], node: u32, n: u32) -> bool
    ensures { Tests (is_list_of n) work.now node result }
{
    is_list(work, node) && count(work, node) == n
}
