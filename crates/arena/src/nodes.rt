// Opening a node: what it is, and the nodes that it refers to. A list hands its pending wrap on unchanged.

ghost use Rattle.recipe.specs.Tree.{is_name};
ghost use Rattle.arena.specs.Nodes.{Opens};
ghost use Rattle.arena.specs.Lists.{Tests};

use crate::cells;

// A name's origin and own wrap, a pair's head and tail, a constant's kind and two words.
#[derive(Clone, Copy)]
pub enum Node {
    Empty,
    Name(u32, u32),
    Pair(u32, u32),
    Constant(u32, u32, u32),
}

pub fn opened(work: &[u32], node: u32) -> Node
    ensures { Opens work.now node result }
{
    let kind = cells::word(work, node, cells::KIND);
    if kind == cells::EMPTY {
        return Node::Empty;
    }
    if kind == cells::NAME {
        let origin = cells::word(work, node, cells::ORIGIN);
        let own = cells::reference(work, node, cells::OWN);
        return Node::Name(origin, own);
    }
    if kind == cells::PAIR {
        let head = cells::reference(work, node, cells::HEAD);
        let tail = cells::reference(work, node, cells::TAIL);
        return Node::Pair(head, tail);
    }
    let first = cells::word(work, node, cells::FIRST);
    let second = cells::word(work, node, cells::SECOND);
    Node::Constant(kind, first, second)
}

pub fn is_name(work: &[u32], node: u32) -> bool
    ensures { Tests is_name work.now node result }
{
    cells::word(work, node, cells::KIND) == cells::NAME
}
