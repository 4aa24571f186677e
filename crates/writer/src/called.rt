// The names of variables, by number: noted in a table where it holds them all, or else found in the words.
ghost use Rattle.std.specs.Prelude.{◌≡◌, ◌+◌, ◌<◌, ◌≤◌, length, take, slice_index};
ghost use Rattle.std.proofs.Math.Seq.{paste};
ghost use Rattle.core_term.specs.Code.Scan.{called_in, IsTerm};
ghost use Rattle.writer.specs.Called.{called_by, Tells};

use core_term::nodes::shape_at;

// Where the names of variables stand, by number: in a table, or in the words of their term.
#[derive(Clone, Copy)]
pub enum Called<'a> {
    Table(&'a [u32]),
    Words(&'a [u32]),
}

// Names into the table, from `at` on.
fn put(names: &[u32], table: &mut [u32], at: usize)
    requires { at + length names.now ≤ length table.old }
    ensures { table.new ≡ paste table.old at names.now (length names.now) }
{
    for i in 0..names.len() {
        table[at + i] = names[i];
    }
}

// The names that the words' lambdas hold, one after another: all of them, of which there are so many.
pub fn note(words: &[u32], count: usize, table: &mut [u32])
    requires { IsTerm words.now × (count ≡ length (called_in words.now)) × (count ≤ length table.old) }
    ensures { take count table.new ≡ called_in words.now }
{
    let mut at = 0;
    let mut seen = 0;
    while seen < count {
        let Some(node) = shape_at(&words[at..]) else {
            return;
        };
        let end = at + node.own;
        put(&words[end - node.names..end], table, seen);
        seen += node.names;
        at = end;
    }
}

// The name of variable n, noted in a table.
fn noted(table: &[u32], n: usize) -> usize
    requires { n < length table.now }
    ensures { result ≡ slice_index table.now n }
{
    table[n] as usize
}

// The name of variable n, by going through the words up to its lambda.
fn find(words: &[u32], n: usize) -> usize
    requires { IsTerm words.now × (n < length (called_in words.now)) }
    ensures { result ≡ slice_index (called_in words.now) n }
{
    let mut at = 0;
    let mut seen = 0;
    while at < words.len() {
        let Some(node) = shape_at(&words[at..]) else {
            return 0;
        };
        let end = at + node.own;
        if n - seen < node.names {
            return words[end - node.names + (n - seen)] as usize;
        }
        seen += node.names;
        at = end;
    }
    0
}

// The name of variable n, in a table or in the words.
pub fn name_of(n: usize, called: Called) -> usize
    requires { (n < length (called_by called)) × (Tells called) }
    ensures { result ≡ slice_index (called_by called.entry) n }
{
    match called {
        Called::Table(table) => noted(table, n),
        Called::Words(words) => find(words, n),
    }
}
