// A caller of each service, here and for C and Rust, that asks for nothing and restates what the service gives: a service that asked for
// something, or gave less, would have none.
#![tactic(auto)]

ghost use Rattle.std.specs.Prelude.{◌≡◌, [], ◌∷◌, length};
ghost use Rattle.lexer.specs.Answered.{Answered};
ghost use Rattle.reading.specs.Read.{read, read_elements, read_numbers, items_after, names_after};
ghost use Rattle.reader.specs.Served as R;
ghost use Rattle.writer.specs.Writing.{text_of, outcome, ground_number, size, after};
ghost use Rattle.writer.specs.Wrote.{Wrote};
ghost use Rattle.expansion.specs.Run.{run};
ghost use Rattle.expander.specs.Service as E;
ghost use Rattle.comparison.specs.Compare.{compare, items_left, names_left};
ghost use Rattle.supplier.specs.Service as C;
ghost use Rattle.runner.specs.Service.{Ran};
ghost use Rattle.recipe_runner.specs.Service.{RecipeRan};
ghost use Rattle.grebetallboy.specs.Calls.{told, tells_read, tells_run, tells_verdict, verdict_ground, RunCalled, RecipeRunCalled};

use expander::{Expanded, Refused};
use lexer::token::Lexeme;
use reader::Counts;
use recipe_runner::RecipeError;
use runner::Outcome;
use words::ground::Ground;

// ---- the services

pub fn next_token(text: &[u8], at: usize) -> Option<Lexeme>
    ensures { Answered text.now at result }
{
    lexer::token_reader::token_from(text, at)
}

pub fn read_recipe(text: &[u8], items: &mut [u32], names: &mut [u8]) -> Result<Counts, Ground>
    ensures { R.Served text.now items.old items.new names.old names.new result }
{
    reader::read(text, items, names)
}

pub fn read_elements(
    text: &[u8],
    items: &mut [u32],
    names: &mut [u8],
    wanted: usize,
) -> Result<Counts, Ground>
    ensures { R.ServedElements wanted text.now items.old items.new names.old names.new result }
{
    reader::read_elements(text, items, names, wanted)
}

pub fn expand_recipe(
    items: &[u32],
    fuel: u32,
    work: &mut [u32],
    core: &mut [u32],
) -> Result<Expanded, Refused>
    ensures { E.Served items.now fuel work.old work.new core.old core.new result }
{
    expander::expand(items, fuel, work, core)
}

pub fn write_term(
    words: &[u32],
    operations: u32,
    names: &[u8],
    out: &mut [u8],
) -> Result<usize, Ground>
    ensures { Wrote (text_of words.now operations names.now) out.old out.new result }
{
    writer::write(words, operations, names, out)
}

pub fn compare_text(
    recipe: &[u32],
    ours: &[u8],
    words: &[u32],
    text: &[u8],
    items: &mut [u32],
    names: &mut [u8],
) -> Result<bool, Ground>
    ensures { C.Compared recipe.now ours.now words.now text.now items.old items.new names.old names.new result }
{
    supplier::compare(recipe, ours, words, text, items, names)
}

pub fn run_term(words: &[u32], budget: u32, table: &mut [u32]) -> Result<Outcome, Ground>
    ensures { Ran words.now budget table.old table.new result }
{
    runner::run(words, budget, table)
}

pub fn run_recipe(
    items: &[u32],
    fuel: u32,
    work: &mut [u32],
    core: &mut [u32],
    budget: u32,
    table: &mut [u32],
) -> Result<Outcome, RecipeError>
    ensures { RecipeRan items.now fuel work.old work.new core.old core.new budget table.old table.new result }
{
    recipe_runner::run_recipe(items, fuel, work, core, budget, table)
}

// ---- for C and Rust

pub fn called_read(text: &[u8], items: &mut [u32], names: &mut [u8], counts: &mut [u64]) -> u32
    ensures { (result ≡ (read_numbers (read text.now (length items.old) (length names.old))).ground_number)
        × (items.new ≡ items_after (read text.now (length items.old) (length names.old)) items.old)
        × (names.new ≡ names_after (read text.now (length items.old) (length names.old)) names.old)
        × (counts.new ≡ tells_read (read_numbers (read text.now (length items.old) (length names.old))) counts.old) }
{
    grebetallboy::grebetallboy_read(text, items, names, counts)
}

pub fn called_expand(
    items: &[u32],
    fuel: u32,
    work: &mut [u32],
    core: &mut [u32],
    counts: &mut [u64],
) -> u32
    ensures { (result ≡ (E.run_numbers (run items.now fuel (length work.old) (length core.old))).ground_number)
        × (work.new ≡ E.work_after (run items.now fuel (length work.old) (length core.old)) work.old)
        × (core.new ≡ E.core_after (run items.now fuel (length work.old) (length core.old)) core.old)
        × (counts.new ≡ tells_run (E.run_numbers (run items.now fuel (length work.old) (length core.old))) counts.old) }
{
    grebetallboy::grebetallboy_expand(items, fuel, work, core, counts)
}

pub fn called_write(
    words: &[u32],
    operations: u32,
    names: &[u8],
    out: &mut [u8],
    counts: &mut [u64],
) -> u32
    ensures { (result ≡ ground_number (outcome out.old (text_of words.now operations names.now)))
        × (out.new ≡ after (outcome out.old (text_of words.now operations names.now)) out.old)
        × (counts.new ≡ told (size (outcome out.old (text_of words.now operations names.now))) 0 0 counts.old) }
{
    grebetallboy::grebetallboy_write(words, operations, names, out, counts)
}

pub fn called_compare(
    items: &[u32],
    names: &[u8],
    words: &[u32],
    text: &[u8],
    text_items: &mut [u32],
    text_names: &mut [u8],
    counts: &mut [u64],
) -> u32
    ensures { (result ≡ verdict_ground (compare items.now names.now words.now text.now (length text_items.old) (length text_names.old)).verdict)
        × (text_items.new ≡ items_left (compare items.now names.now words.now text.now (length text_items.old) (length text_names.old)) (read_elements 1 text.now (length text_items.old) (length text_names.old)) text_items.old)
        × (text_names.new ≡ names_left (compare items.now names.now words.now text.now (length text_items.old) (length text_names.old)) (read_elements 1 text.now (length text_items.old) (length text_names.old)) text_names.old)
        × (counts.new ≡ tells_verdict (compare items.now names.now words.now text.now (length text_items.old) (length text_names.old)).verdict counts.old) }
{
    grebetallboy::grebetallboy_compare(items, names, words, text, text_items, text_names, counts)
}

pub fn called_run(words: &[u32], budget: u32, table: &mut [u32], counts: &mut [u64]) -> u32
    ensures { RunCalled words.now budget table.old table.new counts.old counts.new result }
{
    grebetallboy::grebetallboy_run(words, budget, table, counts)
}

pub fn called_run_recipe(
    items: &[u32],
    fuel: u32,
    work: &mut [u32],
    core: &mut [u32],
    budget: u32,
    table: &mut [u32],
    counts: &mut [u64],
) -> u32
    ensures { RecipeRunCalled items.now fuel work.old work.new core.old core.new budget table.old table.new counts.old counts.new result }
{
    grebetallboy::grebetallboy_run_recipe(items, fuel, work, core, budget, table, counts)
}
