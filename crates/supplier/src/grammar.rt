// The lists of a text: how many elements, which form, a lambda's formals, and how the walk through one begins.
ghost use Rattle.std.specs.Prelude.{◌≡◌, cond, ℕ, ◌+◌, ◌*◌, ◌≤◌, ◌<◌, eqb, length};
ghost use Rattle.datum.specs.Datum.{Data, Datum, count};
ghost use Rattle.core_term.specs.Node.{node_at};
ghost use Rattle.supplier.specs.Items.{DatumAt, DataAt, Held, HeldAll};
ghost use Rattle.supplier.specs.Scope.{Kept};
ghost use Rattle.supplier.specs.Walk.{outside, same, quotes, form_of, takes, if_sort, ours_of};
ghost use Rattle.supplier.specs.Told.{Told};
ghost use Rattle.supplier.specs.Forms.{form_number, FormalsAre, Room, Started, LambdaStarted};

use crate::front::{Difference, Sort, Walked, own, takes};
use crate::scope::{Formal, is_bound};
use layout::item::{EMPTY, NAME, PAIR, head, kind, tail};

// Formals of one lambda.
pub const FORMALS: usize = words::FORMALS as usize;

// The forms that an element may head.
#[derive(Clone, Copy)]
pub enum Form {
    Quote,
    If,
    Lambda,
}

// An element or a list of the text: its item, how many formals are round it, whether it is quoted.
#[derive(Clone, Copy)]
pub struct Place {
    pub i: usize,
    pub top: usize,
    pub quoted: bool,
}

// A list whose elements are walked through, and what was found before them.
#[derive(Clone, Copy)]
pub struct Start {
    pub place: Place,
    pub found: Walked,
}

// How many elements a list has: a loop along its cells, which no iterator yields.
pub fn count(items: &[u32], i: usize) -> usize
    requires { HeldAll items.now i }
    ensures { (ds : Data) → DataAt items.now i ds → result ≡ count ds }
{
    let mut j = i;
    let mut n = 0;
    while kind(items, j) == PAIR {
        j = tail(items, j);
        n = n + 1;
    }
    n
}

// What stands behind quote: one element, and no constant.
fn is_quotation(items: &[u32], i: usize) -> bool
    requires { HeldAll items.now i }
    ensures { (ds : Data) → DataAt items.now i ds → result ≡ quotes ds }
{
    if count(items, i) != 1 {
        return false;
    }
    let k = kind(items, head(items, i));
    if k == NAME {
        return true;
    }
    if k == EMPTY {
        return true;
    }
    if k == PAIR {
        return true;
    }
    false
}

// How many formals a lambda has, where it may bind them: from item i on, put into the scope behind its first `top`, for our variables from
// `first` on.
pub fn formals(
    items: &[u32],
    i: usize,
    scope: &mut [Formal],
    top: usize,
    first: u32,
) -> Option<usize>
    requires { Held items.now i × (top + 8 ≤ length scope.old) }
    ensures formals { (d : Datum) → DatumAt items.now i d → FormalsAre d top first scope.old scope.new result }
    ensures kept { Kept top scope.old scope.new }
{
    let mut j = i;
    let mut n = 0;
    while kind(items, j) == PAIR {
        if n == FORMALS {
            return None;
        }
        let at = head(items, j);
        if kind(items, at) != NAME {
            return None;
        }
        let name = head(items, at);
        if name < 3 {
            return None;
        }
        if is_bound(scope, top, top + n, name) {
            return None;
        }
        scope[top + n] = Formal {
            name,
            variable: first as usize + n,
        };
        n = n + 1;
        j = tail(items, j);
    }
    if kind(items, j) != EMPTY {
        return None;
    }
    Some(n)
}

// The form that an item heads, by the fixed numbers of the forms' names.
pub fn form_at(items: &[u32], i: usize) -> Option<Form>
    requires { Held items.now i }
    ensures { (d : Datum) → DatumAt items.now i d → form_number result ≡ form_of d }
{
    if kind(items, i) != NAME {
        return None;
    }
    match head(items, i) {
        0 => Some(Form::Quote),
        1 => Some(Form::If),
        2 => Some(Form::Lambda),
        _ => None,
    }
}

// A quotation has no node of its own.
fn quotation(items: &[u32], i: usize, words: &[u32]) -> Walked
    requires { HeldAll items.now i }
    ensures { (ds : Data) → DataAt items.now i ds → Told words.now (cond (quotes ds) (same words.now) outside) result }
{
    if is_quotation(items, i) {
        return Ok(0);
    }
    Err(Difference::Outside)
}

fn conditional(items: &[u32], i: usize, words: &[u32]) -> Walked
    requires { HeldAll items.now i }
    ensures { (ds : Data) → DataAt items.now i ds → Told words.now (cond (eqb (count ds) 3) (takes if_sort 0 (ours_of (node_at words.now))) outside) result }
{
    if count(items, i) != 3 {
        return Err(Difference::Outside);
    }
    takes(words, Sort::If, 0)
}

// What stands behind lambda: its formals and its body. Our name words are not heeded.
fn lambda(items: &[u32], words: &[u32], scope: &mut [Formal], at: Place) -> Start
    requires { HeldAll items.now at.i × Room items.now scope.old at.top at.i }
    ensures { LambdaStarted items.now words.now scope.old scope.new at result }
{
    let at = Place {
        quoted: false,
        ..at
    };
    let outside = Start {
        place: at,
        found: Err(Difference::Outside),
    };
    if count(items, at.i) != 2 {
        return outside;
    }
    let node = own(words);
    let Some(n) = formals(items, head(items, at.i), scope, at.top, node.second) else {
        return outside;
    };
    let place = Place {
        i: tail(items, at.i),
        top: at.top + n,
        ..at
    };
    Start {
        place,
        found: takes(words, Sort::Lambda, n),
    }
}

// How the walk through a list begins: behind the own words of our node, where there is one for it.
pub fn list(items: &[u32], words: &[u32], scope: &mut [Formal], at: Place) -> Start
    requires { HeldAll items.now at.i × Room items.now scope.old at.top at.i }
    ensures { Started items.now words.now scope.old scope.new at result }
{
    if at.quoted {
        return Start {
            place: at,
            found: takes(words, Sort::List, count(items, at.i)),
        };
    }
    if kind(items, at.i) != PAIR {
        return Start {
            place: at,
            found: Err(Difference::Outside),
        };
    }
    let next = Place {
        i: tail(items, at.i),
        ..at
    };
    match form_at(items, head(items, at.i)) {
        Some(Form::Quote) => Start {
            place: Place {
                quoted: true,
                ..next
            },
            found: quotation(items, next.i, words),
        },
        Some(Form::If) => Start {
            place: next,
            found: conditional(items, next.i, words),
        },
        Some(Form::Lambda) => lambda(items, words, scope, next),
        None => Start {
            place: at,
            found: takes(words, Sort::Application, count(items, next.i)),
        },
    }
}
