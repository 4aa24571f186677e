// The services as C and Rust call them; `grebetallboy_c` exports each under its name here. Each call answers the ground of documents 01 and
// 02, 0 where it accepts, and tells its numbers in a lent table.
// No call has a requirement: it tests what it is lent.
#![tactic(auto)]

ghost use Rattle.std.specs.Prelude.{◌≡◌, [], ◌∷◌, length};
ghost use Rattle.reading.specs.Read.{read, read_elements, read_numbers, items_after, names_after};
ghost use Rattle.writer.specs.Writing.{text_of, outcome, ground_number, size, after};
ghost use Rattle.expansion.specs.Run.{run};
ghost use Rattle.expander.specs.Service.{run_numbers, core_after, work_after};
ghost use Rattle.comparison.specs.Compare.{compare, items_left, names_left};
ghost use Rattle.runner.specs.Service as M;
ghost use Rattle.recipe_runner.specs.Service.{of_running};
ghost use Rattle.grebetallboy.specs.Calls.{told, told_numbers, tells_read, tells_run, tells_verdict, verdict_ground, RunCalled, RecipeRunCalled};

use recipe_runner::RecipeError;
use runner::{Outcome, Value};
use words::ground::Ground;

// Numbers, where the table has words for them.
fn tell(counts: &mut [u64], numbers: &[u64])
    ensures { counts.new ≡ told_numbers numbers.now counts.old }
{
    if numbers.len() <= counts.len() {
        counts[..numbers.len()].copy_from_slice(numbers);
    }
}

// Reading: counts has the items and the names of an accepted text, then 0.
pub fn grebetallboy_read(
    text: &[u8],
    items: &mut [u32],
    names: &mut [u8],
    counts: &mut [u64],
) -> u32
    ensures { (result ≡ (read_numbers (read text.now (length items.old) (length names.old))).ground_number)
        × (items.new ≡ items_after (read text.now (length items.old) (length names.old)) items.old)
        × (names.new ≡ names_after (read text.now (length items.old) (length names.old)) names.old)
        × (counts.new ≡ tells_read (read_numbers (read text.now (length items.old) (length names.old))) counts.old) }
{
    match reader::read(text, items, names) {
        Ok(read) => {
            tell(counts, &[read.items as u64, read.names as u64, 0]);
            0
        }
        Err(why) => {
            tell(counts, &[0, 0, 0]);
            why.number()
        }
    }
}

// Expansion: counts has steps, sum and the length of the term; a refusal's length is 0.
pub fn grebetallboy_expand(
    items: &[u32],
    fuel: u32,
    work: &mut [u32],
    core: &mut [u32],
    counts: &mut [u64],
) -> u32
    ensures { (result ≡ (run_numbers (run items.now fuel (length work.old) (length core.old))).ground_number)
        × (work.new ≡ work_after (run items.now fuel (length work.old) (length core.old)) work.old)
        × (core.new ≡ core_after (run items.now fuel (length work.old) (length core.old)) core.old)
        × (counts.new ≡ tells_run (run_numbers (run items.now fuel (length work.old) (length core.old))) counts.old) }
{
    match expander::expand(items, fuel, work, core) {
        Ok(reached) => {
            tell(
                counts,
                &[
                    reached.steps as u64,
                    reached.sum as u64,
                    reached.length as u64,
                ],
            );
            0
        }
        Err(refused) => {
            tell(counts, &[refused.steps as u64, refused.sum as u64, 0]);
            refused.ground.number()
        }
    }
}

// Writing: counts has the length of the text, then 0 and 0.
pub fn grebetallboy_write(
    words: &[u32],
    operations: u32,
    names: &[u8],
    out: &mut [u8],
    counts: &mut [u64],
) -> u32
    ensures { (result ≡ ground_number (outcome out.old (text_of words.now operations names.now)))
        × (out.new ≡ after (outcome out.old (text_of words.now operations names.now)) out.old)
        × (counts.new ≡ told (size (outcome out.old (text_of words.now operations names.now))) 0 0 counts.old) }
{
    match writer::write(words, operations, names, out) {
        Ok(length) => {
            tell(counts, &[length as u64, 0, 0]);
            0
        }
        Err(why) => {
            tell(counts, &[0, 0, 0]);
            why.number()
        }
    }
}

// Comparing: counts has 1 for yes and 0 for no, then 0 and 0.
pub fn grebetallboy_compare(
    items: &[u32],
    names: &[u8],
    words: &[u32],
    text: &[u8],
    text_items: &mut [u32],
    text_names: &mut [u8],
    counts: &mut [u64],
) -> u32
    ensures { (result ≡ verdict_ground (compare items.now names.now words.now text.now (length text_items.old) (length text_names.old)).verdict)
        × (text_items.new ≡ items_left (compare items.now names.now words.now text.now (length text_items.old) (length text_names.old)) (read_elements 1 text.now (length text_items.old) (length text_names.old)) text_items.old)
        × (text_names.new ≡ names_left (compare items.now names.now words.now text.now (length text_items.old) (length text_names.old)) (read_elements 1 text.now (length text_items.old) (length text_names.old)) text_names.old)
        × (counts.new ≡ tells_verdict (compare items.now names.now words.now text.now (length text_items.old) (length text_names.old)).verdict counts.old) }
{
    match supplier::compare(items, names, words, text, text_items, text_names) {
        Ok(same) => {
            tell(counts, &[u64::from(same), 0, 0]);
            0
        }
        Err(why) => {
            tell(counts, &[0, 0, 0]);
            why.number()
        }
    }
}

// A value and its units.
fn tell_value(value: Value, units: usize, counts: &mut [u64])
    ensures { counts.new ≡ told_numbers (of_running (M.value_numbers value units)) counts.old }
{
    let units = units as u64;
    match value {
        Value::Integer(w) => tell(counts, &[1, w as u64, 0, units]),
        Value::Boolean(b) => tell(counts, &[2, u64::from(b), 0, units]),
        Value::Datum(place) => tell(counts, &[3, place as u64, 0, units]),
        Value::Closure => tell(counts, &[4, 0, 0, units]),
        Value::Operation => tell(counts, &[5, 0, 0, units]),
    }
}

// The numbers of a run, and its ground.
fn tell_running(running: Result<Outcome, Ground>, counts: &mut [u64]) -> u32
    ensures { (result ≡ (M.numbers_of running).ground_number) × (counts.new ≡ told_numbers (of_running (M.numbers_of running)) counts.old) }
{
    match running {
        Ok(outcome) => {
            tell_value(outcome.value, outcome.units, counts);
            0
        }
        Err(why) => {
            tell(counts, &[0, 0, 0, 0]);
            why.number()
        }
    }
}

// Running: counts has what the result is (1 integer, 2 boolean, 3 quoted datum, 4 closure, 5 operation), its two words, the units.
pub fn grebetallboy_run(words: &[u32], budget: u32, table: &mut [u32], counts: &mut [u64]) -> u32
    ensures { RunCalled words.now budget table.old table.new counts.old counts.new result }
{
    tell_running(runner::run(words, budget, table), counts)
}

// Running a recipe: counts as running's; where expansion refuses, its steps and sum, then 0 and 0.
pub fn grebetallboy_run_recipe(
    items: &[u32],
    fuel: u32,
    work: &mut [u32],
    core: &mut [u32],
    budget: u32,
    table: &mut [u32],
    counts: &mut [u64],
) -> u32
    ensures { RecipeRunCalled items.now fuel work.old work.new core.old core.new budget table.old table.new counts.old counts.new result }
{
    match recipe_runner::run_recipe(items, fuel, work, core, budget, table) {
        Ok(outcome) => tell_running(Ok(outcome), counts),
        Err(RecipeError::Run(why)) => tell_running(Err(why), counts),
        Err(RecipeError::Expansion(refused)) => {
            tell(counts, &[refused.steps as u64, refused.sum as u64, 0, 0]);
            refused.ground.number()
        }
    }
}
