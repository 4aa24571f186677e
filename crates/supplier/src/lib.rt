// The comparison service (request L4): the supplier's expansions held against ours. Its meaning stands in
// comparison/specs/Compare.antt, its promise in specs/Service.antt.
#![tactic(auto)]

mod front; // our node as numbers
mod grammar; // the text's lists: forms, formals, where the walk goes on
mod names; // names of two tables
mod scope; // the formals round an expression
mod walk; // the walk

ghost use Rattle.std.specs.Prelude.{◌≡◌, ◌≤◌, length};
ghost use Rattle.supplier.specs.Items.{Held};
ghost use Rattle.words.specs.Limits.{item_words_least};
ghost use Rattle.supplier.specs.Forms.{Spelling};
ghost use Rattle.supplier.specs.Text.{OperationSlots, ElementRight, TextRight};
ghost use Rattle.supplier.specs.Service.{Compared};

use core_term::is_term;
use front::Difference;
use grammar::{FORMALS, Place};
use layout::{is_layout, operation};
use names::all_named;
use reader::read_elements;
use scope::Formal;
use words::ground::Ground;
use words::{ITEM, MOST_ITEMS, NAMES, OPERATIONS};

// Formals round an expression: a lambda's eight behind those of the lambdas round it, two items of the text for each; there
// is no heap for a scope that grows.
const SCOPE: usize = MOST_ITEMS / 2 + FORMALS;

// The element of a text that was read, which item 1 begins: grounds 21 and 22, then yes or no.
fn decided(
    items: &[u32],
    theirs: &[u8],
    words: &[u32],
    ours: &[u8],
    operations: &[u16],
) -> Result<bool, Ground>
    requires { Held items.now 1 × (length items.now ≤ item_words_least) × Spelling theirs.now ours.now operations.now }
    ensures { ElementRight items.now theirs.now words.now ours.now operations.now result }
{
    let nobody = Formal {
        name: 0,
        variable: 0,
    };
    let mut scope = [nobody; SCOPE];
    let at = Place {
        i: 1,
        top: 0,
        quoted: false,
    };
    let found = walk::expression(items, words, theirs, ours, operations, &mut scope, at);
    match found {
        Ok(_) => Ok(true),
        Err(Difference::Other) => Ok(false),
        Err(Difference::Open) => Err(Ground::OpenName),
        Err(Difference::Outside) => Err(Ground::OutsideGrammar),
    }
}

// A text against our term. Once it is read from, a refusal zeroes its tables.
fn held(
    words: &[u32],
    ours: &[u8],
    operations: &[u16],
    text: &[u8],
    items: &mut [u32],
    names: &mut [u8],
) -> Result<bool, Ground>
    requires { OperationSlots ours.now operations.now }
    ensures { TextRight words.now ours.now operations.now text.now items.old items.new names.old names.new result }
{
    let counts = read_elements(text, items, names, 1)?;
    let answer = decided(
        &items[..ITEM * counts.items],
        names,
        words,
        ours,
        operations,
    );
    if answer.is_err() {
        items.fill(0);
        names.fill(0);
    }
    answer
}

// Whether a supplier's text is our term up to the choice of bound names: the recipe's item and name tables, our words,
// the text and its own two tables.
pub fn compare(
    recipe: &[u32],
    ours: &[u8],
    words: &[u32],
    text: &[u8],
    items: &mut [u32],
    names: &mut [u8],
) -> Result<bool, Ground>
    ensures { Compared recipe.now ours.now words.now text.now items.old items.new names.old names.new result }
{
    if !is_layout(recipe) {
        return Err(Ground::BadLayout);
    }
    let mut places = [0u16; NAMES];
    if !operation::operations(recipe, &mut places) {
        return Err(Ground::BadOperations);
    }
    let mut list = [0u16; OPERATIONS as usize];
    let count = operation::numbers(recipe, &mut list);
    if !is_term(words, count as u32, ours) {
        return Err(Ground::NoTerm);
    }
    if !all_named(ours, &list[..count]) {
        return Err(Ground::NoTerm);
    }
    held(words, ours, &list[..count], text, items, names)
}
