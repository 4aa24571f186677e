// Entries: where what a variable takes stands. They are found once for a rule and a use, and never change: a place of the template is two
// numbers, the copies of the two ellipses next round it, by which blocks are read.

ghost use Rattle.std.specs.Prelude.{◌≡◌, ◌<◌, length};
ghost use Rattle.words.specs.Limits.{pattern_variables_most};
ghost use Rattle.environments.specs.Columns.{entries_words, entry_of, EntryStored, EntrySet, advance, inside, found};

use crate::blocks;

// The words of an entry, and of all.
const ENTRY: usize = 4;

pub const WORDS: usize = ENTRY * words::VARIABLES as usize;

// One more than the ellipses over the variable, 0 where it is none of the pattern's; its node or the block of its outermost ellipsis; its
// column there, and in the block of its second.
#[derive(Clone, Copy)]
pub struct Entry {
    pub level: u32,
    pub whole: u32,
    pub first: u32,
    pub second: u32,
}

// Entry k.
pub fn get(env: &[u32], k: usize) -> Entry
    requires { (length env.now ≡ entries_words) × (k < pattern_variables_most) }
    ensures { result ≡ entry_of env.now k }
{
    let i = ENTRY * k;
    Entry {
        level: env[i],
        whole: env[i + 1],
        first: env[i + 2],
        second: env[i + 3],
    }
}

// Entry k is x from now on.
fn put(env: &mut [u32], k: usize, x: Entry)
    requires { (length env.old ≡ entries_words) × (k < pattern_variables_most) }
    ensures { EntryStored k x env.old env.new }
{
    let i = ENTRY * k;
    env[i] = x.level;
    env[i + 1] = x.whole;
    env[i + 2] = x.first;
    env[i + 3] = x.second;
}

// The entry of variable k, where it has none yet.
pub fn set(env: &mut [u32; WORDS], k: u32, x: Entry)
    ensures { EntrySet k x env.old env.new }
{
    if words::VARIABLES <= k {
        return;
    }
    let table: &mut [u32] = env;
    let old = get(table, k as usize);
    if old.level != 0 {
        return;
    }
    put(table, k as usize, x);
}

// ---- the next slot's entry, on a walk of the pattern: at level 1 its word's place, then its column

// The slot after it.
#[tactic(auto, unfolding(crate::specs::Columns::advance))]
pub fn next(x: Entry) -> Entry
    ensures { result ≡ advance x 1 }
{
    if x.level == 1 {
        return Entry {
            whole: x.whole.wrapping_add(1),
            ..x
        };
    }
    if x.level == 2 {
        return Entry {
            first: x.first.wrapping_add(1),
            ..x
        };
    }
    Entry {
        second: x.second.wrapping_add(1),
        ..x
    }
}

// The first slot of the element, where it is an ellipsis.
pub fn inside(work: &[u32], x: Entry) -> Entry
    ensures { result ≡ inside work.now x }
{
    if x.level == 1 {
        return Entry {
            level: 2,
            whole: blocks::at(work, x.whole as usize),
            first: 0,
            second: 0,
        };
    }
    Entry {
        level: 3,
        second: 0,
        ..x
    }
}

// The variable's own, where it is one.
pub fn found(work: &[u32], x: Entry) -> Entry
    ensures { result ≡ found work.now x }
{
    if x.level == 1 {
        return Entry {
            whole: blocks::at(work, x.whole as usize),
            ..x
        };
    }
    x
}
