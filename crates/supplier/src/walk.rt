// The walk: a text's element against the words of our term, in one recursion. Its meaning stands in specs/Walk.antt.
ghost use Rattle.std.specs.Prelude.{◌≡◌, false, List, ℕ, ◌<◌, ◌≤◌, length};
ghost use Rattle.words.specs.Limits.{names_most};
ghost use Rattle.datum.specs.Datum.{Data, Datum};
ghost use Rattle.core_term.specs.Node.{node_at};
ghost use Rattle.supplier.specs.Items.{DatumAt, DataAt, Held, HeldAll};
ghost use Rattle.supplier.specs.Names.{Slot};
ghost use Rattle.supplier.specs.Scope.{Kept, scope_of};
ghost use Rattle.supplier.specs.Walk.{left_of, joined, ours_of, is_place, quoted_name, free, name_here, walk, walk_from};
ghost use Rattle.supplier.specs.Told.{found_of, Fronted, Within, Told};
ghost use Rattle.supplier.specs.Forms.{Room, Spelling};

use crate::front::{Difference, Front, Sort, Walked, constant, own, takes};
use crate::grammar::{Place, Start, list};
use crate::names::{any_name, same_name};
use crate::scope::{Formal, innermost, variable};
use core_term::has_name;
use layout::item::{NAME, PAIR, head, is_list_kind, kind, tail};

// A quoted name, by spelling.
fn quoted_name(words: &[u32], theirs: &[u8], ours: &[u8], n: usize) -> Walked
    requires { Slot theirs.now n }
    ensures { (operations : List ℕ) → Told words.now (quoted_name theirs.now ours.now operations n (ours_of (node_at words.now))) result }
{
    let node = own(words);
    if node.sort != Sort::Name {
        return Err(Difference::Other);
    }
    let m = node.first as usize;
    if !has_name(ours, m) {
        return Err(Difference::Other);
    }
    if same_name(theirs, n, ours, m) {
        return Ok(node.size);
    }
    Err(Difference::Other)
}

// Our node is an operation of this spelling.
fn is_place(node: Front, theirs: &[u8], ours: &[u8], operations: &[u16], n: usize) -> bool
    requires { Spelling theirs.now ours.now operations.now × (n < names_most) }
    ensures { (ws : List ℕ) → Fronted ws node → result ≡ is_place theirs.now ours.now operations.now n (ours_of (node_at ws)) }
{
    if node.sort != Sort::Operation {
        return false;
    }
    let p = node.first as usize;
    if operations.len() <= p {
        return false;
    }
    same_name(theirs, n, ours, usize::from(operations[p]))
}

// A name that no formal has: an operation of its spelling.
fn free(words: &[u32], theirs: &[u8], ours: &[u8], operations: &[u16], n: usize) -> Walked
    requires { Spelling theirs.now ours.now operations.now × (n < names_most) }
    ensures { Told words.now (free theirs.now ours.now operations.now n (ours_of (node_at words.now))) result }
{
    let node = own(words);
    if is_place(node, theirs, ours, operations, n) {
        return Ok(node.size);
    }
    if any_name(theirs, n, ours, operations) {
        return Err(Difference::Other);
    }
    Err(Difference::Open)
}

// A name as an expression: the variable of its innermost formal, or free.
fn reference(
    words: &[u32],
    theirs: &[u8],
    ours: &[u8],
    operations: &[u16],
    scope: &[Formal],
    top: usize,
    n: usize,
) -> Walked
    requires { Spelling theirs.now ours.now operations.now × (n < names_most) × (top ≤ length scope.now) }
    ensures { Told words.now (name_here theirs.now ours.now operations.now false (scope_of scope.now top) n (ours_of (node_at words.now))) result }
{
    if n < 3 {
        return Err(Difference::Outside);
    }
    match innermost(scope, top, n) {
        Some(k) => takes(words, Sort::Variable, variable(scope, k)),
        None => free(words, theirs, ours, operations, n),
    }
}

// The words of ours that are left: none after a difference.
fn left(words: &[u32], found: Walked) -> &[u32]
    requires { Within words.now found }
    ensures { result.now ≡ left_of (found_of words.now found) }
{
    let taken = found.unwrap_or(words.len());
    &words[taken..]
}

// One thing found behind another: 21 before 22 before no.
fn joined(words: &[u32], before: Walked, found: Walked) -> Walked
    requires { Within words.now before × Within (left_of (found_of words.now before)) found }
    ensures { Told words.now (joined (found_of words.now before) (found_of (left_of (found_of words.now before)) found)) result }
{
    match before {
        Ok(taken) => Ok(taken + found?),
        Err(first) => match found {
            Ok(_) => Err(first),
            Err(second) => {
                if first < second {
                    return Err(second);
                }
                Err(first)
            }
        },
    }
}

// The element at a place.
#[cycle(all_expression)]
pub fn expression(
    items: &[u32],
    words: &[u32],
    theirs: &[u8],
    ours: &[u8],
    operations: &[u16],
    scope: &mut [Formal],
    at: Place,
) -> Walked
    requires { Held items.now at.i × Room items.now scope.old at.top at.i × Spelling theirs.now ours.now operations.now }
    ensures walked { (d : Datum) → DatumAt items.now at.i d → Told words.now (walk theirs.now ours.now operations.now d at.quoted (scope_of scope.old at.top) words.now) result }
    ensures kept { Kept at.top scope.old scope.new }
{
    let k = kind(items, at.i);
    if k == NAME {
        let n = head(items, at.i);
        if at.quoted {
            return quoted_name(words, theirs, ours, n);
        }
        return reference(words, theirs, ours, operations, scope, at.top, n);
    }
    if !is_list_kind(k) {
        return constant(words, k, head(items, at.i), tail(items, at.i));
    }
    let from = list(items, words, scope, at);
    all(items, words, theirs, ours, operations, scope, from)
}

// The elements of a list, one behind the other.
#[cycle(all_expression)]
fn all(
    items: &[u32],
    words: &[u32],
    theirs: &[u8],
    ours: &[u8],
    operations: &[u16],
    scope: &mut [Formal],
    from: Start,
) -> Walked
    requires { HeldAll items.now from.place.i × Room items.now scope.old from.place.top from.place.i × Spelling theirs.now ours.now operations.now × Within words.now from.found }
    ensures walked { (ds : Data) → DataAt items.now from.place.i ds → Told words.now (walk_from theirs.now ours.now operations.now ds 0 from.place.quoted (scope_of scope.old from.place.top) (found_of words.now from.found)) result }
    ensures kept { Kept from.place.top scope.old scope.new }
{
    let mut j = from.place.i;
    let mut found = from.found;
    while kind(items, j) == PAIR {
        let at = Place {
            i: head(items, j),
            ..from.place
        };
        let rest = left(words, found);
        let next = expression(items, rest, theirs, ours, operations, scope, at);
        found = joined(words, found, next);
        j = tail(items, j);
    }
    found
}
