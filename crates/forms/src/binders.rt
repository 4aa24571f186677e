// Names that a form binds: whether no two are the same (ground 14), and their binders. Formals are bound to variables, keywords
// to macros.

ghost use Rattle.std.specs.Prelude.{◌≡◌, ℕ, ◌+◌, ◌^◌, ◌≤◌, ◌<◌, length};
ghost use Rattle.words.specs.Lists.{any_of};
ghost use Rattle.std.proofs.Math.Option.{some};
ghost use Rattle.recipe.specs.Name.{same, distinct, binding_key};
ghost use Rattle.arena.specs.Arena.{name_at, tree_at};
ghost use Rattle.forms.specs.NumberLaws.{numbers_in};
ghost use Rattle.forms.specs.Quotes.{Written};
ghost use Rattle.forms.specs.declared.shapes.Bound.TheVariants.{Formals};
ghost use Rattle.forms.specs.Binders.{AllNames, names_in, HasNames, bound_names, binds_to, Space, Scoped};

use crate::shapes;
use crate::shapes::Bound;
use arena::{cells, lists};
use resolution::names;

// Whether a name is the same as one that the list binds.
fn is_among(work: &[u32], node: u32, list: u32, wrap: u32, bound: Bound) -> bool
    requires { AllNames bound (tree_at work.now list wrap) }
    ensures { result ≡ any_of (same (name_at work.now node wrap)) (names_in bound (tree_at work.now list wrap)) }
{
    let mut at = list;
    while cells::word(work, at, cells::KIND) == cells::PAIR {
        let first = cells::reference(work, at, cells::HEAD);
        let own = shapes::own_name(work, first, bound);
        if names::same_names(work, node, wrap, own, wrap) {
            return true;
        }
        at = cells::reference(work, at, cells::TAIL);
    }
    false
}

// Whether no two of the names that a list binds are the same.
fn are_distinct(work: &[u32], list: u32, wrap: u32, bound: Bound) -> bool
    requires { AllNames bound (tree_at work.now list wrap) }
    ensures { result ≡ distinct (names_in bound (tree_at work.now list wrap)) }
{
    let mut at = list;
    while cells::word(work, at, cells::KIND) == cells::PAIR {
        let first = cells::reference(work, at, cells::HEAD);
        let own = shapes::own_name(work, first, bound);
        at = cells::reference(work, at, cells::TAIL);
        if is_among(work, own, at, wrap, bound) {
            return false;
        }
    }
    true
}

// No two names that a form binds are the same.
pub fn names_distinct(work: &[u32], node: u32, wrap: u32, bound: Bound) -> bool
    requires { HasNames bound (tree_at work.now node wrap) }
    ensures { result ≡ distinct (bound_names bound (tree_at work.now node wrap)) }
{
    let list = lists::element(work, node, 1);
    are_distinct(work, list, wrap, bound)
}

// The key of variable or macro n.
fn key_of(bound: Bound, n: u32) -> u32
    requires { n < 2 ^ 30 }
    ensures { result ≡ binding_key (some (binds_to bound n)) }
{
    match bound {
        Bound::Formals => names::variable_key(n),
        Bound::Keywords => names::macro_key(n),
    }
}

// The wrap that binds, and the new top.
#[derive(Clone, Copy)]
pub struct Scope {
    pub wrap: u32,
    pub top: u32,
}

// A binder for each name that the list binds, numbered from `number`, after what `parent` means. Each own name is resolved
// under `wrap`, which waits on the form.
fn bind_names(
    work: &mut [u32],
    list: u32,
    wrap: u32,
    bound: Bound,
    number: u32,
    parent: u32,
    top: u32,
) -> Scope
    requires { (AllNames bound (tree_at work.old list wrap)) × (Space (names_in bound (tree_at work.old list wrap)) work.old list wrap number parent top) }
    ensures { Scoped (binds_to bound) number (names_in bound (tree_at work.old list wrap)) parent work.old work.new top result.wrap result.top }
{
    let mut at = list;
    let mut n = number;
    let mut scope = parent;
    let mut end = top;
    while cells::word(work, at, cells::KIND) == cells::PAIR {
        let first = cells::reference(work, at, cells::HEAD);
        let own = shapes::own_name(work, first, bound);
        at = cells::reference(work, at, cells::TAIL);
        let key = key_of(bound, n);
        scope = names::bind(work, end, own, wrap, key, scope);
        end = scope;
        n += 1;
    }
    Scope {
        wrap: scope,
        top: end,
    }
}

// Binders for the names that a form binds, numbered from `first`.
pub fn bind(work: &mut [u32], node: u32, wrap: u32, bound: Bound, first: u32, top: u32) -> Scope
    requires { (HasNames bound (tree_at work.old node wrap)) × (Space (bound_names bound (tree_at work.old node wrap)) work.old node wrap first wrap top) }
    ensures { Scoped (binds_to bound) first (bound_names bound (tree_at work.old node wrap)) wrap work.old work.new top result.wrap result.top }
{
    let list = lists::element(work, node, 1);
    bind_names(work, list, wrap, bound, first, wrap, top)
}

// The numbers of the names that a lambda's list binds, into the core table from `at`; answers where the next word stands.
pub fn put_numbers(work: &[u32], list: u32, core: &mut [u32], at: usize) -> usize
    requires { (w : ℕ) × (AllNames Formals (tree_at work.now list w)) × (at + length (names_in Formals (tree_at work.now list w)) ≤ length core.old) }
    ensures { (w : ℕ) → AllNames Formals (tree_at work.now list w) → Written (numbers_in (tree_at work.now list w)) core.old core.new at result }
{
    let mut node = list;
    let mut n = at;
    while cells::word(work, node, cells::KIND) == cells::PAIR {
        let first = cells::reference(work, node, cells::HEAD);
        let own = shapes::own_name(work, first, Bound::Formals);
        core[n] = names::number_of(work, own);
        node = cells::reference(work, node, cells::TAIL);
        n += 1;
    }
    n
}
