// The reading service. Its meaning stands in reading/specs/Read.antt, its promise in specs/Served.antt.
#![tactic(auto)]

ghost use Rattle.std.specs.Prelude.{◌≡◌, ◌≤◌, length, replicate};
ghost use Rattle.words.specs.Limits.{item_words_least, name_bytes_least};
ghost use Rattle.reading.specs.Numbering.{base_names};
ghost use Rattle.reader.specs.Code.Index.{index_size};
ghost use Rattle.reader.specs.Code.Stored.{NameTable};
ghost use Rattle.reader.specs.Code.Reached.{Ended};
ghost use Rattle.reader.specs.Served.{ServedElements, Served};

use crate::element::take;
use crate::names::{ENTRIES, enter_base};
use crate::place::Place;
use lexer::token_reader::token_from;
use words::ground::Ground;

mod element; // one token after another
pub mod names; // the name table and its index
mod place; // where reading stands

// Of a text that is read: how many items and names it has.
#[derive(Clone, Copy)]
pub struct Counts {
    pub items: usize,
    pub names: usize,
}

// All tokens of a text that has so many elements, into items that are zero and names that are the eight, with their index.
fn read_text(
    text: &[u8],
    items: &mut [u32],
    names: &mut [u8],
    index: &mut [u16],
    wanted: usize,
) -> Result<Counts, Ground>
    requires item_words_least_in_bounds { (item_words_least ≤ length items.old) × (items.old ≡ replicate (length items.old) 0) }
    requires name_table { NameTable base_names names.old index.old }
    ensures { Ended wanted text.now items.new names.new result }
{
    let mut at = 0;
    let mut place = Place {
        next: 0,
        pair: 0,
        depth: 0,
        count: 0,
        missing: wanted,
        known: words::BASE_NAMES,
    };
    while let Some(lexeme) = token_from(text, at) {
        match take(text, lexeme, place, items, names, index) {
            Ok(next) => place = next,
            Err(ground) => return Err(ground),
        }
        at = lexeme.next;
    }
    place.counts()
}

// Both tables wholly zero.
fn clear(items: &mut [u32], names: &mut [u8])
    ensures { (items.new ≡ replicate (length items.old) 0) × (names.new ≡ replicate (length names.old) 0) }
{
    items.fill(0);
    names.fill(0);
}

// Both tables before the first token, and the index of names: zeros, and names 0 to 7.
fn begin(items: &mut [u32], names: &mut [u8], index: &mut [u16])
    requires { (name_bytes_least ≤ length names.old) × (index.old ≡ replicate index_size 0) }
    ensures { (items.new ≡ replicate (length items.new) 0) × NameTable base_names names.new index.new }
{
    clear(items, names);
    enter_base(names, index);
}

// Reads a text that has so many elements into an item table and a name table.
pub fn read_elements(
    text: &[u8],
    items: &mut [u32],
    names: &mut [u8],
    wanted: usize,
) -> Result<Counts, Ground>
    ensures { ServedElements wanted text.now items.old items.new names.old names.new result }
{
    if items.len() < words::ITEM_WORDS {
        return Err(Ground::ShortTables);
    }
    if names.len() < words::NAME_BYTES {
        return Err(Ground::ShortTables);
    }
    if words::TEXT_BYTES < text.len() {
        return Err(Ground::LongText);
    }
    let mut index = [0u16; ENTRIES];
    begin(items, names, &mut index);
    match read_text(text, items, names, &mut index, wanted) {
        Ok(counts) => Ok(counts),
        Err(ground) => {
            clear(items, names);
            Err(ground)
        }
    }
}

// Reads a recipe text.
#[tactic(auto, unfolding(reading::specs::Read::read))]
pub fn read(text: &[u8], items: &mut [u32], names: &mut [u8]) -> Result<Counts, Ground>
    ensures { Served text.now items.old items.new names.old names.new result }
{
    read_elements(text, items, names, 2)
}
