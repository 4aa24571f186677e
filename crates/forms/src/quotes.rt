// Quoting: the core words of a node without marks and bindings, whatever waits on it. Recursion goes with nesting alone.

ghost use Rattle.std.specs.Prelude.{◌+◌, ◌≤◌, length};
ghost use Rattle.datum.specs.Constant.{decimal_kind, constant_words};
ghost use Rattle.datum.specs.ConstantLaws.{made};
ghost use Rattle.arena.specs.Arena.{tree_at};
ghost use Rattle.forms.specs.Quotes.{quoted_at, elements_at, Quotable, Written};

use arena::{cells, lists};
use core_term::codes;
use datum::constants;
use resolution::names;

// Words from `at`; answers where the next stand. One by one: a few words copied as a slice would go through memory.
pub fn put(core: &mut [u32], at: usize, words: &[u32]) -> usize
    requires { at + length words.now ≤ length core.old }
    ensures { Written words.now core.old core.new at result }
{
    for i in 0..words.len() {
        core[at + i] = words[i];
    }
    at + words.len()
}

// The words of a constant: its code and its value, and a decimal's places.
pub fn put_constant(core: &mut [u32], at: usize, kind: u32, first: u32, second: u32) -> usize
    requires { (at + length (constant_words (made kind first second)) ≤ length core.old) × (kind ≤ decimal_kind) }
    ensures { Written (constant_words (made kind first second)) core.old core.new at result }
{
    if kind != constants::DECIMAL {
        return put(core, at, &[kind + 1, first]);
    }
    put(core, at, &[codes::DECIMAL, first, second])
}

// The words of a node, from `at`; answers where the next stand.
#[cycle(quote_quote_all)]
pub fn quote(work: &[u32], node: u32, core: &mut [u32], at: usize) -> usize
    requires { (at + length (quoted_at work.now node) ≤ length core.old) × (Quotable (tree_at work.now node 0)) }
    ensures { Written (quoted_at work.now node) core.old core.new at result }
{
    let kind = cells::word(work, node, cells::KIND);
    if kind == cells::PAIR {
        let count = lists::count(work, node);
        let n = put(core, at, &[codes::LIST, count]);
        return quote_all(work, node, core, n);
    }
    if kind == cells::NAME {
        let number = names::number_of(work, node);
        return put(core, at, &[codes::NAME, number]);
    }
    if kind == cells::EMPTY {
        return put(core, at, &[codes::LIST, 0]);
    }
    let first = cells::word(work, node, cells::FIRST);
    let second = cells::word(work, node, cells::SECOND);
    put_constant(core, at, kind, first, second)
}

// The words of a list's elements.
#[cycle(quote_quote_all)]
fn quote_all(work: &[u32], list: u32, core: &mut [u32], at: usize) -> usize
    requires { (at + length (elements_at work.now list) ≤ length core.old) × (Quotable (tree_at work.now list 0)) }
    ensures { Written (elements_at work.now list) core.old core.new at result }
{
    let mut rest = list;
    let mut n = at;
    while cells::word(work, rest, cells::KIND) == cells::PAIR {
        let first = cells::reference(work, rest, cells::HEAD);
        n = quote(work, first, core, n);
        rest = cells::reference(work, rest, cells::TAIL);
    }
    n
}
