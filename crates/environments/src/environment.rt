// Environments: what each variable of a rule's pattern takes at a place of the template, a table of entries. Under an ellipsis the
// entries go along the lists that the variables take, so that no copy is looked for from a list's start. specs/Entries.antt says
// what the table means.

ghost use Rattle.std.specs.Prelude.{◌≡◌, ℕ, ◌<◌, true, List, length, ◌≢◌};
ghost use Rattle.words.specs.Limits.{pattern_variables_most};
ghost use Rattle.environments.specs.Entries.{table_words, entry_at, taken_in, level, next_level, CountsCopies, Listed, Under, Moving, begun, Stored, AlongAll, Within, Next, Enters};

use crate::{parts, shares};
use arena::lists;
use rule_cells::cells;

// The words of an entry; entries, one for each of the most variables of a pattern; and words of all.
const ENTRY: usize = 7;

const ENTRIES: usize = words::VARIABLES as usize;

pub const WORDS: usize = ENTRY * ENTRIES;

// What a variable takes under none, one and two of the innermost indices; the ellipses of the pattern that a first and a second
// index enter, 0 where there is none; and what is left of the lists that these indices count.
#[derive(Clone, Copy)]
pub struct Entry {
    pub whole: u32,
    pub one: u32,
    pub two: u32,
    pub first: u32,
    pub second: u32,
    pub along: u32,
    pub across: u32,
}

// Entry k. Here a table is a slice, since of a slice, and of no array behind a reference, the length is known.
pub fn get(env: &[u32], k: usize) -> Entry
    requires { (length env.now ≡ table_words) × (k < pattern_variables_most) }
    ensures { result ≡ entry_at env.now k }
{
    let i = ENTRY * k;
    Entry {
        whole: env[i],
        one: env[i + 1],
        two: env[i + 2],
        first: env[i + 3],
        second: env[i + 4],
        along: env[i + 5],
        across: env[i + 6],
    }
}

// Entry k is x from now on.
pub fn put(env: &mut [u32], k: usize, x: Entry)
    requires { (length env.old ≡ table_words) × (k < pattern_variables_most) }
    ensures { Stored k x env.old env.new }
{
    let i = ENTRY * k;
    env[i] = x.whole;
    env[i + 1] = x.one;
    env[i + 2] = x.two;
    env[i + 3] = x.first;
    env[i + 4] = x.second;
    env[i + 5] = x.along;
    env[i + 6] = x.across;
}

// The word of an entry that d indices lead to.
fn level(d: u32) -> usize
    ensures { result ≡ level d }
{
    if d < 2 {
        return d as usize;
    }
    2
}

// The node that variable k takes under the innermost d indices.
pub fn taken(env: &[u32; WORDS], k: u32, d: u32) -> u32
    ensures { result ≡ taken_in env.now k d }
{
    let table: &[u32] = env;
    if words::VARIABLES <= k {
        return 0;
    }
    table[ENTRY * (k as usize) + level(d)]
}

// Whether a template's cell is a variable under one ellipsis of the pattern, which has it for its element: it takes a list, and
// copy i of it is the list's element i.
pub fn is_listed(work: &[u32], env: &[u32; WORDS], e: u32) -> bool
    ensures { result ≡ true → Listed work.now env.now e }
{
    let table: &[u32] = env;
    if arena::cells::word(work, e, cells::TAG) != cells::VARIABLE {
        return false;
    }
    if arena::cells::word(work, e, cells::DEPTH) != 1 {
        return false;
    }
    let k = arena::cells::word(work, e, cells::NUMBER);
    if words::VARIABLES <= k {
        return false;
    }
    let q = table[ENTRY * (k as usize) + 3];
    let element = arena::cells::reference(work, q, cells::HEAD);
    arena::cells::word(work, element, cells::TAG) == cells::VARIABLE
}

// The word of an entry that has the list which the index after d others counts; its ellipsis stands three words behind.
fn next_level(d: u32) -> usize
    ensures { result ≡ next_level d }
{
    if d == 0 {
        return 0;
    }
    1
}

// How many copies the list of variable k drives, under d indices.
pub fn copies(work: &[u32], env: &[u32; WORDS], k: u32, d: u32) -> u32
    ensures { CountsCopies work.now env.now k d result }
{
    let table: &[u32] = env;
    if words::VARIABLES <= k {
        return 0;
    }
    let i = ENTRY * (k as usize) + next_level(d);
    let ellipsis = table[i + 3];
    if ellipsis == 0 {
        return 0;
    }
    shares::share(work, ellipsis, table[i])
}

// ---- copies of an element

// An entry before the first copy, from the entry outside.
fn begun(x: Entry) -> Entry
    ensures { result ≡ begun x }
{
    Entry {
        one: x.whole,
        two: x.one,
        along: x.whole,
        across: x.one,
        ..x
    }
}

// The environment before the first copy, and a number of entries past which none moves along a list.
pub fn begin(outer: &[u32; WORDS], inner: &mut [u32; WORDS]) -> usize
    ensures { ((work : List ℕ) → AlongAll work outer.now 0 inner.new) × ((b : ℕ) → Under outer.now b → Under inner.new b) × (Moving outer.now result) }
{
    let from: &[u32] = outer;
    let to: &mut [u32] = inner;
    let mut moving: usize = 0;
    for k in 0..ENTRIES {
        let x = get(from, k);
        if x.first != 0 {
            moving = k + 1;
        }
        put(to, k, begun(x));
    }
    moving
}

// What variable k takes of a list's first element by the pattern of ellipsis q's element; without one, what it took before.
fn within(work: &[u32], q: u32, k: u32, list: u32, before: u32) -> u32
    ensures { Within work.now q k list before result }
{
    if q == 0 {
        return before;
    }
    let element = arena::cells::reference(work, q, cells::HEAD);
    let first = lists::first(work, list);
    parts::part(work, element, k, first)
}

// The entry of variable k in the next copy.
fn next(work: &[u32], k: u32, x: Entry) -> Entry
    requires { x.first ≢ 0 }
    ensures { Next work.now k x result }
{
    let one = within(work, x.first, k, x.along, x.one);
    let two = within(work, x.second, k, x.across, x.two);
    let along = lists::rest(work, x.along);
    let across = lists::rest(work, x.across);
    Entry {
        one,
        two,
        along,
        across,
        ..x
    }
}

// The environment of the next copy. Only entries below this number move.
pub fn enter(work: &[u32], env: &mut [u32; WORDS], moving: usize)
    requires { Moving env.old moving }
    ensures { Enters work.now env.old env.new }
{
    let table: &mut [u32] = env;
    for k in 0..moving {
        let x = get(table, k);
        if x.first != 0 {
            put(table, k, next(work, k as u32, x));
        }
    }
}
