// Names in the arena: resolved, compared, looked up. The definition's functions of names are in recipe/specs/Name.antt and
// expansion/specs/Lookup.antt. Where what waits on a name is walked, its marks in hand are put into a small table, and where they are
// more than that has room for, into larger ones. Slices that are handed on to a walk that is seldom made are handed on as parts, so
// that they are put into memory there alone.

ghost use Rattle.std.specs.Prelude.{◌≡◌, ◌+◌, ◌*◌, ◌≤◌, ◌<◌, length, MatchOption};
ghost use Rattle.std.proofs.Math.Option.{some};
ghost use Rattle.recipe.specs.Name.{variable, macro, same, binding_key};
ghost use Rattle.recipe.specs.Tree.{is_ordinary_name};
ghost use Rattle.arena.specs.Arena.{step_limit, name_at, number_of};
ghost use Rattle.arena.specs.Cells.{Room, Binds};
ghost use Rattle.arena.specs.Lists.{Tests};
ghost use Rattle.resolution.specs.Names.{Resolved, Summed, found_of, lookup_in, unbound_in, Agrees};

use crate::wraps::InHand;
use crate::{direct, marks, wraps};
use arena::cells::Binder;
use arena::{cells, origins};

// The numbers of the names that begin base forms, and of `...` and `_`.
pub use datum::base_names::{ELLIPSIS, IF, LAMBDA, LET_SYNTAX, LETREC_SYNTAX, QUOTE, WILDCARD};

const BASE_NAMES: u32 = words::BASE_NAMES as u32;

// Room for the marks of two names, and for those of a binder's own name behind them: as many as most names have, 512 of each,
// however many they are.
const FEW_WORDS: usize = 32;

const MORE_WORDS: usize = 1536;

const LARGE_WORDS: usize = 24583;

// What a name means: bound variable n, macro n, form k, or the place of an operation.
#[derive(Clone, Copy)]
pub enum Meaning {
    Variable(u32),
    Macro(u32),
    Form(u32),
    Operation(u32),
}

// The key of a variable's binding; variables are fewer than items and fuel together.
#[tactic(auto, unfolding(recipe::specs::Name::binding_key))]
pub fn variable_key(n: u32) -> u32
    requires { n < 2147483647 }
    ensures { result ≡ binding_key (some (variable n)) }
{
    1 + 2 * n
}

// The key of a macro's binding.
#[tactic(auto, unfolding(recipe::specs::Name::binding_key))]
pub fn macro_key(n: u32) -> u32
    requires { n < 2147483647 }
    ensures { result ≡ binding_key (some (macro n)) }
{
    2 + 2 * n
}

// The number of a name node.
pub fn number_of(work: &[u32], node: u32) -> u32
    ensures { result ≡ number_of work.now node }
{
    origins::number(cells::word(work, node, cells::ORIGIN))
}

// A name node under a pending wrap: its marks from `start`, their count, and its binding's key.
fn resolve(work: &[u32], table: &mut [u32], start: usize, node: u32, w: u32) -> Option<InHand>
    requires { start ≤ length table.old }
    ensures { MatchOption result (length table.new ≤ start + step_limit + step_limit) (λ r. Resolved work.now node w table.old table.new start r.count r.binding) }
{
    let number = number_of(work, node);
    let own = cells::reference(work, node, cells::OWN);
    let plain = InHand {
        count: 0,
        binding: 0,
    };
    let held = wraps::walked(work, table, start, number, plain, own)?;
    wraps::walk(work, table, start, number, held, w)
}

// Whether a node is a name that may be bound: other than `...` and `_`, which are known by number alone.
pub fn is_ordinary(work: &[u32], node: u32) -> bool
    ensures { Tests is_ordinary_name work.now node result }
{
    if cells::word(work, node, cells::KIND) != cells::NAME {
        return false;
    }
    let number = number_of(work, node);
    number != ELLIPSIS && number != WILDCARD
}

// A name as a binder keeps it: its binding's key, how many marks it has, and the newest.
#[derive(Clone, Copy)]
pub struct Summary {
    pub binding: u32,
    pub count: usize,
    pub newest: u32,
}

// A name's summary, where the table has room for its marks.
fn summary_in(work: &[u32], table: &mut [u32], node: u32, w: u32) -> Option<Summary>
    ensures { MatchOption result (length table.new ≤ 2 * step_limit) (λ s. Summed (name_at work.now node w) s.binding s.count s.newest) }
{
    let held = resolve(work, table, 0, node, w)?;
    Some(Summary {
        binding: held.binding,
        count: held.count,
        newest: marks::newest_of(table, 0, held.count),
    })
}

// A name's summary, in the table or, where its marks do not fit, in a larger one. It calls itself with that, and what calls
// itself is not inlined: the large frame is taken only where it is needed.
fn summary_grown(work: &[u32], table: &mut [u32], node: u32, w: u32) -> Summary
    ensures { Summed (name_at work.now node w) result.binding result.count result.newest }
{
    if let Some(s) = summary_in(work, table, node, w) {
        return s;
    }
    let mut larger = [0u32; LARGE_WORDS];
    summary_grown(work, &mut larger, node, w)
}

// A name's summary, by walking what waits on it.
fn summary_walked(work: &[u32], node: u32, w: u32) -> Summary
    ensures { Summed (name_at work.now node w) result.binding result.count result.newest }
{
    let mut few = [0u32; FEW_WORDS];
    if let Some(s) = summary_in(work, &mut few, node, w) {
        return s;
    }
    let mut more = [0u32; MORE_WORDS];
    summary_grown(work, &mut more, node, w)
}

// A name's summary: of one mark or none where that is all that waits, else by walking what waits.
fn summary_of(work: &[u32], node: u32, w: u32) -> Summary
    ensures { Summed (name_at work.now node w) result.binding result.count result.newest }
{
    let number = number_of(work, node);
    let own = cells::reference(work, node, cells::OWN);
    if let Some(newest) = direct::only_mark(work, number, own, w) {
        return Summary {
            binding: 0,
            count: direct::count_of(newest) as usize,
            newest,
        };
    }
    summary_walked(&work[0..], node, w)
}

// The key of a name's binding, found from the outside in or else by walking what waits.
pub fn binding_of(work: &[u32], node: u32, w: u32) -> u32
    ensures { result ≡ binding_key (name_at work.now node w).binding }
{
    let number = number_of(work, node);
    let own = cells::reference(work, node, cells::OWN);
    if let Some(key) = direct::binding(work, number, own, w) {
        return key;
    }
    summary_walked(&work[0..], node, w).binding
}

// Whether two names are the same, where the table has room for the marks of both: number, marks and binding together.
fn compare(work: &[u32], table: &mut [u32], a: u32, v: u32, b: u32, w: u32) -> Option<bool>
    ensures { MatchOption result (length table.new ≤ 3 * step_limit) (λ t. t ≡ same (name_at work.now a v) (name_at work.now b w)) }
{
    if number_of(work, a) != number_of(work, b) {
        return Some(false);
    }
    let x = resolve(work, table, 0, a, v)?;
    let y = resolve(work, table, x.count, b, w)?;
    if x.binding != y.binding {
        return Some(false);
    }
    if x.count != y.count {
        return Some(false);
    }
    Some(marks::equal_marks(table, 0, x.count, x.count))
}

// Whether two names are the same, in the table or, where their marks do not fit, in a larger one, as `summary_grown`.
fn same_grown(work: &[u32], table: &mut [u32], a: u32, v: u32, b: u32, w: u32) -> bool
    ensures { result ≡ same (name_at work.now a v) (name_at work.now b w) }
{
    if let Some(same) = compare(work, table, a, v, b, w) {
        return same;
    }
    let mut larger = [0u32; LARGE_WORDS];
    same_grown(work, &mut larger, a, v, b, w)
}

// Whether two names are the same, by walking what waits on them.
fn same_walked(work: &[u32], a: u32, v: u32, b: u32, w: u32) -> bool
    ensures { result ≡ same (name_at work.now a v) (name_at work.now b w) }
{
    let mut few = [0u32; FEW_WORDS];
    if let Some(same) = compare(work, &mut few, a, v, b, w) {
        return same;
    }
    let mut more = [0u32; MORE_WORDS];
    same_grown(work, &mut more, a, v, b, w)
}

// Whether two names are the same. Their numbers tell most apart.
pub fn same_names(work: &[u32], a: u32, v: u32, b: u32, w: u32) -> bool
    ensures { result ≡ same (name_at work.now a v) (name_at work.now b w) }
{
    if number_of(work, a) != number_of(work, b) {
        return false;
    }
    same_walked(&work[0..], a, v, b, w)
}

// A binder of a name under wrap w, after what `parent` means: the binding with this key goes to every name that is the same.
pub fn bind(work: &mut [u32], top: u32, node: u32, w: u32, key: u32, parent: u32) -> u32
    requires { (Room work.old top 9) × (node ≤ top) × (w ≤ top) × (parent ≤ top) }
    ensures { Binds node w key parent work.old work.new top result }
{
    let number = number_of(work, node);
    let s = summary_of(work, node, w);
    let own = cells::reference(work, node, cells::OWN);
    let binder = Binder {
        number,
        binding: s.binding,
        count: s.count as u32,
        newest: s.newest,
        own,
        pending: w,
        key,
        parent,
    };
    cells::put_binder(work, top, binder)
}

// What a name without a binding means: a base form, an operation by the table of their places, or nothing.
fn unbound(operations: &[u16], number: u32) -> Option<Meaning>
    ensures { found_of result ≡ unbound_in operations.now number }
{
    if number < BASE_NAMES {
        return Some(Meaning::Form(number));
    }
    let place = *operations.get(number as usize)?;
    if place == 0 {
        return None;
    }
    Some(Meaning::Operation(u32::from(place) - 1))
}

// A lookup finds the binding; without one, a base form, an operation, or nothing.
pub fn lookup(work: &[u32], operations: &[u16], node: u32, w: u32) -> Option<Meaning>
    ensures { found_of result ≡ lookup_in operations.now (name_at work.now node w) }
{
    let b = binding_of(work, node, w);
    if b == 0 {
        return unbound(operations, number_of(work, node));
    }
    if b % 2 == 1 {
        return Some(Meaning::Variable(b / 2));
    }
    Some(Meaning::Macro(b / 2 - 1))
}

// Whether a literal, by its number and its binding's key, agrees with a name.
pub fn agrees(work: &[u32], number: u32, binding: u32, node: u32, w: u32) -> bool
    ensures { Agrees number binding (name_at work.now node w) result }
{
    let b = binding_of(work, node, w);
    b == binding && (b != 0 || number == number_of(work, node))
}
