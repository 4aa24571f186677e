// Shapes of forms (ground 13), and what a form binds.

ghost use Rattle.expansion.specs.Forms.{is_lambda, is_macro, is_macros};
ghost use Rattle.arena.specs.Lists.{Means, Tests};
ghost use Rattle.forms.specs.Shapes.{own_name, binds_one, binds_all};

use arena::{cells, lists};
use resolution::names;

// What a form's list binds: formals, each a name, as a lambda's; or keywords, each (name rules), as a let-syntax's and a
// letrec-syntax's.
#[derive(Clone, Copy, Debug, PartialEq, Eq)]
pub enum Bound {
    Formals,
    Keywords,
}

// The node of the name that an element binds.
pub(crate) fn own_name(work: &[u32], node: u32, bound: Bound) -> u32
    ensures { Means work.now node result (own_name bound) }
{
    match bound {
        Bound::Formals => node,
        Bound::Keywords => lists::element(work, node, 0),
    }
}

// (name rules)
fn is_macro(work: &[u32], node: u32) -> bool
    ensures { Tests is_macro work.now node result }
{
    if !lists::is_list_of(work, node, 2) {
        return false;
    }
    let own = lists::element(work, node, 0);
    names::is_ordinary(work, own)
}

// Whether an element of the list binds as it should.
fn binds_one(work: &[u32], node: u32, bound: Bound) -> bool
    ensures { Tests (binds_one bound) work.now node result }
{
    match bound {
        Bound::Formals => names::is_ordinary(work, node),
        Bound::Keywords => is_macro(work, node),
    }
}

// Whether all elements of a list do, and are at most so many.
fn binds_all(work: &[u32], list: u32, bound: Bound, most: u32) -> bool
    ensures { Tests (binds_all bound most) work.now list result }
{
    let mut node = list;
    let mut left = most;
    while cells::word(work, node, cells::KIND) == cells::PAIR {
        if left == 0 {
            return false;
        }
        let first = cells::reference(work, node, cells::HEAD);
        if !binds_one(work, first, bound) {
            return false;
        }
        node = cells::reference(work, node, cells::TAIL);
        left -= 1;
    }
    true
}

// (lambda (name ...) body)
pub fn is_lambda(work: &[u32], node: u32) -> bool
    ensures { Tests is_lambda work.now node result }
{
    if !lists::is_list_of(work, node, 3) {
        return false;
    }
    let list = lists::element(work, node, 1);
    if !lists::is_list(work, list) {
        return false;
    }
    binds_all(work, list, Bound::Formals, words::FORMALS)
}

// (let-syntax ((name rules) ...) body), at most `limit` macros
pub fn is_macros(work: &[u32], node: u32, limit: u32) -> bool
    ensures { Tests (is_macros limit) work.now node result }
{
    if !lists::is_list_of(work, node, 3) {
        return false;
    }
    let list = lists::element(work, node, 1);
    if cells::word(work, list, cells::KIND) != cells::PAIR {
        return false;
    }
    binds_all(work, list, Bound::Keywords, limit)
}
