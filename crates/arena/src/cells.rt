// Cells of the arena: guarded reads, and one constructor for each kind of cell. specs/Arena.antt says what cells mean.
// A cell is referred to by its end. Nothing else knows where its words stand.

ghost use Rattle.std.specs.Prelude.{◌≡◌, ◌+◌, ◌-◌, ◌<◌, ◌≤◌, true, false, length, ◌≢◌};
ghost use Rattle.words.specs.Lists.{within};
ghost use Rattle.recipe.specs.Name.{mark_name};
ghost use Rattle.recipe.specs.Tree.{empty, constant, name, pair};
ghost use Rattle.arena.specs.Arena.{word_at, reference_at, step_limit, wrap_at, origin_name, tree_at};
ghost use Rattle.arena.specs.Cells.{Room, Cell, Wrapped, Bound, Grown};

use std::num;

// The words of the lent table: kinds, tags and places are numbers, since the table that C lends holds words.

// Kinds of nodes, as of items; every other is a constant's.
pub use datum::kinds::{EMPTY, NAME, PAIR};

// Tags of wraps.
pub const MARK: u32 = 1;

pub const JOIN: u32 = 2;

pub const BINDER: u32 = 3;

// Where the words of a node stand, counted back from its end: its kind; a name's origin and own wrap; a pair's head and tail;
// a constant's two words.
pub const KIND: u32 = 3;

pub const ORIGIN: u32 = 2;

pub const OWN: u32 = 1;

pub const HEAD: u32 = 2;

pub const TAIL: u32 = 1;

pub const FIRST: u32 = 2;

pub const SECOND: u32 = 1;

// Where the words of a wrap stand: its tag, the wrap inside it; a mark's step; a join's outer wrap.
pub const TAG: u32 = 1;

pub const INNER: u32 = 2;

pub const STEP: u32 = 3;

pub const OUTER: u32 = 3;

// A binder's: the key of the new binding, then what is known of its own name.
pub const KEY: u32 = 3;

pub const BOUND_KEY: u32 = 4;

pub const BOUND_NUMBER: u32 = 5;

pub const BOUND_COUNT: u32 = 6;

pub const BOUND_NEWEST: u32 = 7;

pub const BOUND_PENDING: u32 = 8;

pub const BOUND_OWN: u32 = 9;

// Whether word k is one of the last three.
#[tactic(auto, unfolding(words::specs::Lists::within))]
fn is_last(k: u32) -> bool
    ensures { result ≡ within 1 3 k }
{
    1 <= k && k <= 3
}

// A word before the last three. Counted back past the table's start, it wraps to an index that no table has, so that one test is
// enough.
fn further_word(work: &[u32], at: u32, k: u32) -> u32
    requires { within 1 3 k ≡ false }
    ensures { result ≡ word_at work.now at k }
{
    let i = num::wrapping_sub_usize(at as usize, k as usize);
    if i < work.len() {
        return work[i];
    }
    0
}

// How many places there are for three words.
fn places(work: &[u32]) -> usize
    ensures { result ≡ length work.now - 2 }
{
    work.len().saturating_sub(2)
}

// One of the last three words. The test is the same for each of them, so that who has found one gets the others without a test.
fn last_word(work: &[u32], at: u32, k: u32) -> u32
    requires { within 1 3 k ≡ true }
    ensures { result ≡ word_at work.now at k }
{
    let i = num::wrapping_sub_usize(at as usize, 3);
    if i < places(work) {
        return work[i + (3 - k as usize)];
    }
    0
}

// Word k of the cell that ends at `at`, counted back from its end.
pub fn word(work: &[u32], at: u32, k: u32) -> u32
    ensures { result ≡ word_at work.now at k }
{
    if is_last(k) {
        return last_word(work, at, k);
    }
    further_word(work, at, k)
}

// A reference that the cell holds, where it falls.
pub fn reference(work: &[u32], at: u32, k: u32) -> u32
    ensures { result ≡ reference_at work.now at k }
{
    let r = word(work, at, k);
    if r < at { r } else { 0 }
}

// Three words at the top; answers the new top, which is the cell's reference.
fn put(work: &mut [u32], top: u32, a: u32, b: u32, c: u32) -> u32
    requires { Room work.old top 3 }
    ensures { Cell a b c work.old work.new top result }
{
    let at = top as usize;
    work[at] = a;
    work[at + 1] = b;
    work[at + 2] = c;
    top + 3
}

// A mark after what `parent` means. The step is below the limit, since steps are at most the fuel.
pub fn put_mark(work: &mut [u32], top: u32, step: u32, parent: u32) -> u32
    requires { (Room work.old top 3) × (step < step_limit) × (parent ≤ top) }
    ensures { Wrapped (λ x. mark_name step (wrap_at work.old parent x)) 3 work.old work.new top result }
{
    put(work, top, step, parent, MARK)
}

// What `outer` means after what `inner` means.
pub fn put_join(work: &mut [u32], top: u32, outer: u32, inner: u32) -> u32
    requires { (Room work.old top 3) × (outer ≤ top) × (inner ≤ top) }
    ensures { Wrapped (λ x. wrap_at work.old outer (wrap_at work.old inner x)) 3 work.old work.new top result }
{
    put(work, top, outer, inner, JOIN)
}

// A binder: its own name by number, key, count of marks, newest mark and the two wraps that its marks come from; the key of the
// new binding, and the wrap inside.
#[derive(Clone, Copy)]
pub struct Binder {
    pub number: u32,
    pub binding: u32,
    pub count: u32,
    pub newest: u32,
    pub own: u32,
    pub pending: u32,
    pub key: u32,
    pub parent: u32,
}

// A binder after what its parent means.
pub fn put_binder(work: &mut [u32], top: u32, binder: Binder) -> u32
    requires { (Room work.old top 9) × (binder.own ≤ top) × (binder.pending ≤ top) × (binder.parent ≤ top) }
    ensures { Bound binder work.old work.new top result }
{
    let p = put(work, top, binder.own, binder.pending, binder.newest);
    let q = put(work, p, binder.count, binder.number, binder.binding);
    put(work, q, binder.key, binder.parent, BINDER)
}

// A pair of two nodes.
pub fn put_pair(work: &mut [u32], top: u32, head: u32, tail: u32) -> u32
    requires { (Room work.old top 3) × (head ≤ top) × (tail ≤ top) }
    ensures { Grown (λ w. pair (tree_at work.old head w) (tree_at work.old tail w)) work.old work.new top result }
{
    put(work, top, PAIR, head, tail)
}

// A name by its origin, with a wrap of its own.
pub fn put_name(work: &mut [u32], top: u32, origin: u32, own: u32) -> u32
    requires { (Room work.old top 3) × (own ≤ top) }
    ensures { Grown (λ w. name (wrap_at work.old w (wrap_at work.old own (origin_name origin)))) work.old work.new top result }
{
    put(work, top, NAME, origin, own)
}

// An empty list.
pub fn put_empty(work: &mut [u32], top: u32) -> u32
    requires { Room work.old top 3 }
    ensures { Grown (λ w. empty) work.old work.new top result }
{
    put(work, top, EMPTY, 0, 0)
}

// A constant, by its item's three words.
pub fn put_constant(work: &mut [u32], top: u32, kind: u32, first: u32, second: u32) -> u32
    requires { (Room work.old top 3) × (kind ≢ 0) × (kind ≢ 3) × (kind ≢ 4) }
    ensures { Grown (λ w. constant (record { kind = kind; first = first; second = second })) work.old work.new top result }
{
    put(work, top, kind, first, second)
}
