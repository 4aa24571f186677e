// Whether a node may stand where it stands, and how many variables are bound behind it.
ghost use Rattle.std.specs.Prelude.{◌≡◌};
ghost use Rattle.words.specs.Lists.{all_of};
ghost use Rattle.core_term.specs.Code.Opened.{node_in, OpenedAs};
ghost use Rattle.core_term.specs.Code.Window.{good_name, window, head_of};

use crate::flags::in_scope;
use crate::nodes::Node;
use words::{NAME_LENGTH, NAMES, SLOT};

// What stays the same on a walk: the count of operations, whether names are in a table, and the window's first variable.
#[derive(Clone, Copy)]
pub struct Walk {
    pub operations: u32,
    pub tabled: bool,
    pub base: usize,
}

// A name below 1,024, whose slot exists with length 1 to 63 where a table is lent.
pub fn name_good(n: usize, names: &[u8], tabled: bool) -> bool
    ensures { result ≡ good_name tabled names.now n }
{
    if n >= NAMES {
        return false;
    }
    if !tabled {
        return true;
    }
    let start = SLOT * n;
    if names.len() < start + SLOT {
        return false;
    }
    let length = usize::from(names[start]);
    length >= 1 && length <= NAME_LENGTH
}

// Every name of a lambda's variables is good.
fn names_good(formals: &[u32], names: &[u8], tabled: bool) -> bool
    ensures { result ≡ all_of (good_name tabled names.now) formals.now }
{
    for i in 0..formals.len() {
        if !name_good(formals[i] as usize, names, tabled) {
            return false;
        }
    }
    true
}

// How many variables are bound behind the node at the beginning of words, if it may stand: inside quote a datum, a variable in scope,
// an operation below the count, good names, and a lambda whose first number is the count of variables before it.
pub fn standing(
    node: Node,
    words: &[u32],
    names: &[u8],
    flags: &[u8],
    walk: Walk,
    bound: usize,
    quoted: bool,
) -> Option<usize>
    requires { OpenedAs words.now node }
    ensures { result ≡ head_of (window walk.operations (good_name walk.tabled names.now) walk.base) quoted flags.now bound (node_in words.now node) }
{
    match node {
        Node::Variable(n) => {
            if quoted {
                return None;
            }
            in_scope(n as usize, bound, walk.base, flags).then_some(bound)
        }
        Node::Operation(n) => {
            if quoted {
                return None;
            }
            (n < walk.operations).then_some(bound)
        }
        Node::Integer(_) | Node::Boolean(_) | Node::Decimal(_, _) | Node::List(_) => Some(bound),
        Node::Name(n) => name_good(n as usize, names, walk.tabled).then_some(bound),
        Node::If | Node::Application(_) => (!quoted).then_some(bound),
        Node::Lambda(first, count) => {
            if quoted {
                return None;
            }
            if first as usize != bound {
                return None;
            }
            let formals = &words[3..3 + count as usize];
            names_good(formals, names, walk.tabled).then_some(bound + count as usize)
        }
    }
}
