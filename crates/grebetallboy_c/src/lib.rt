// The services for C and Rust, exported. Each is the call of `grebetallboy` of the same name, and has its clauses word for word.
// No call has a requirement: it tests what it is lent. A slice passes as a pointer and a count of elements.
#![tactic(auto)]

ghost use Rattle.std.specs.Prelude.{◌≡◌, [], ◌∷◌, length};
ghost use Rattle.reading.specs.Read.{read, read_elements, read_numbers, items_after, names_after};
ghost use Rattle.writer.specs.Writing.{text_of, outcome, ground_number, size, after};
ghost use Rattle.expansion.specs.Run.{run};
ghost use Rattle.expander.specs.Service.{run_numbers, core_after, work_after};
ghost use Rattle.comparison.specs.Compare.{compare, items_left, names_left};
ghost use Rattle.grebetallboy.specs.Calls.{told, tells_read, tells_run, tells_verdict, verdict_ground, RunCalled, RecipeRunCalled};

// Reading: counts has the items and the names of an accepted text, then 0.
#[unsafe(no_mangle)]
pub extern "C" fn grebetallboy_read(
    text: &[u8],
    items: &mut [u32],
    names: &mut [u8],
    counts: &mut [u64],
) -> u32
    ensures { (result ≡ (read_numbers (read text.now (length items.old) (length names.old))).ground_number)
        × (items.new ≡ items_after (read text.now (length items.old) (length names.old)) items.old)
        × (names.new ≡ names_after (read text.now (length items.old) (length names.old)) names.old)
        × (counts.new ≡ tells_read (read_numbers (read text.now (length items.old) (length names.old))) counts.old) }
{
    grebetallboy::grebetallboy_read(text, items, names, counts)
}

// Expansion: counts has steps, sum and the length of the term; a refusal's length is 0.
#[unsafe(no_mangle)]
pub extern "C" fn grebetallboy_expand(
    items: &[u32],
    fuel: u32,
    work: &mut [u32],
    core: &mut [u32],
    counts: &mut [u64],
) -> u32
    ensures { (result ≡ (run_numbers (run items.now fuel (length work.old) (length core.old))).ground_number)
        × (work.new ≡ work_after (run items.now fuel (length work.old) (length core.old)) work.old)
        × (core.new ≡ core_after (run items.now fuel (length work.old) (length core.old)) core.old)
        × (counts.new ≡ tells_run (run_numbers (run items.now fuel (length work.old) (length core.old))) counts.old) }
{
    grebetallboy::grebetallboy_expand(items, fuel, work, core, counts)
}

// Writing: counts has the length of the text, then 0 and 0.
#[unsafe(no_mangle)]
pub extern "C" fn grebetallboy_write(
    words: &[u32],
    operations: u32,
    names: &[u8],
    out: &mut [u8],
    counts: &mut [u64],
) -> u32
    ensures { (result ≡ ground_number (outcome out.old (text_of words.now operations names.now)))
        × (out.new ≡ after (outcome out.old (text_of words.now operations names.now)) out.old)
        × (counts.new ≡ told (size (outcome out.old (text_of words.now operations names.now))) 0 0 counts.old) }
{
    grebetallboy::grebetallboy_write(words, operations, names, out, counts)
}

// Comparing: counts has 1 for yes and 0 for no, then 0 and 0.
#[unsafe(no_mangle)]
pub extern "C" fn grebetallboy_compare(
    items: &[u32],
    names: &[u8],
    words: &[u32],
    text: &[u8],
    text_items: &mut [u32],
    text_names: &mut [u8],
    counts: &mut [u64],
) -> u32
    ensures { (result ≡ verdict_ground (compare items.now names.now words.now text.now (length text_items.old) (length text_names.old)).verdict)
        × (text_items.new ≡ items_left (compare items.now names.now words.now text.now (length text_items.old) (length text_names.old)) (read_elements 1 text.now (length text_items.old) (length text_names.old)) text_items.old)
        × (text_names.new ≡ names_left (compare items.now names.now words.now text.now (length text_items.old) (length text_names.old)) (read_elements 1 text.now (length text_items.old) (length text_names.old)) text_names.old)
        × (counts.new ≡ tells_verdict (compare items.now names.now words.now text.now (length text_items.old) (length text_names.old)).verdict counts.old) }
{
    grebetallboy::grebetallboy_compare(items, names, words, text, text_items, text_names, counts)
}

// Running: counts has what the result is (1 integer, 2 boolean, 3 quoted datum, 4 closure, 5 operation), its two words, the units.
#[unsafe(no_mangle)]
pub extern "C" fn grebetallboy_run(
    words: &[u32],
    budget: u32,
    table: &mut [u32],
    counts: &mut [u64],
) -> u32
    ensures { RunCalled words.now budget table.old table.new counts.old counts.new result }
{
    grebetallboy::grebetallboy_run(words, budget, table, counts)
}

// Running a recipe: counts as running's; where expansion refuses, its steps and sum, then 0 and 0.
#[unsafe(no_mangle)]
pub extern "C" fn grebetallboy_run_recipe(
    items: &[u32],
    fuel: u32,
    work: &mut [u32],
    core: &mut [u32],
    budget: u32,
    table: &mut [u32],
    counts: &mut [u64],
) -> u32
    ensures { RecipeRunCalled items.now fuel work.old work.new core.old core.new budget table.old table.new counts.old counts.new result }
{
    grebetallboy::grebetallboy_run_recipe(items, fuel, work, core, budget, table, counts)
}
