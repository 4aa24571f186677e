// The name table and its index: names found and entered.
ghost use Rattle.std.specs.Prelude.{◌≡◌, [], ℕ, ◌+◌, ◌*◌, ◌≤◌, ◌<◌, length, get_or, take};
ghost use Rattle.words.specs.Limits.{name_length_most, names_most, slot_size, base_name_count};
ghost use Rattle.words.specs.Lists.{equal};
ghost use Rattle.datum.specs.NameTable.{length_at, name_at};
ghost use Rattle.reading.specs.Numbering.{number_of, base_names};
ghost use Rattle.reader.specs.Code.Index.{bucket_count, index_size, bucket_of, Indexed, linked};
ghost use Rattle.reader.specs.Code.Stored.{stored, names_in, NameTable};

// Buckets of the index.
const BUCKETS: usize = 256;

// Entries of the index, one for each bucket and each name.
pub const ENTRIES: usize = BUCKETS + words::NAMES;

// A slot spells the word: its length first, then its bytes from the left.
pub fn spells(names: &[u8], number: usize, word: &[u8]) -> bool
    requires { (slot_size * number + slot_size ≤ length names.now) × (length_at names.now number ≤ name_length_most) }
    ensures { result ≡ equal word.now (name_at names.now number) }
{
    let start = words::SLOT * number;
    let from = start + 1;
    let to = from + usize::from(names[start]);
    word == &names[from..to]
}

// The bucket of a word.
pub fn bucket_of(word: &[u8]) -> usize
    ensures { result ≡ bucket_of word.now }
{
    let mut bucket = 0;
    for b in word {
        bucket = (9 * bucket + usize::from(*b)) % BUCKETS;
    }
    bucket
}

fn entry_at(index: &[u16], at: usize) -> usize
    requires { at < length index.now }
    ensures { result ≡ get_or index.now at 0 }
{
    usize::from(index[at])
}

// The number of the word among the first names, or the next number: along its bucket, from the latest name.
pub fn find(names: &[u8], index: &[u16], known: usize, word: &[u8], bucket: usize) -> usize
    requires known_in_bounds { (slot_size * known ≤ length names.now) × ((n : ℕ) → n < known → length_at names.now n ≤ name_length_most) }
    requires indexed { Indexed (names_in names.now 0 known) index.now × (known ≤ names_most) }
    requires bucket_value { bucket ≡ bucket_of word.now }
    ensures { result ≡ number_of word.now (names_in names.now 0 known) }
{
    let mut entry = entry_at(index, bucket);
    while entry != 0 {
        let n = entry - 1;
        if spells(names, n, word) {
            return n;
        }
        entry = entry_at(index, BUCKETS + n);
    }
    known
}

// The word in a slot, over zeros.
fn store(names: &mut [u8], number: usize, word: &[u8])
    requires { (slot_size * number + slot_size ≤ length names.old) × (length word.now ≤ name_length_most) }
    ensures { names.new ≡ stored names.old number word.now }
{
    let start = words::SLOT * number;
    let from = start + 1;
    names[start] = word.len() as u8;
    for i in 0..word.len() {
        names[from + i] = word[i];
    }
}

// A name more: its word in its slot, and its number in the index.
pub fn enter(names: &mut [u8], index: &mut [u16], number: usize, word: &[u8], bucket: usize)
    requires slot_size_in_bounds { (slot_size * number + slot_size ≤ length names.old) × (length word.now ≤ name_length_most) }
    requires index_len { (length index.old ≡ index_size) × (number < names_most) × (bucket < bucket_count) }
    ensures { (names.new ≡ stored names.old number word.now) × (index.new ≡ linked index.old number bucket) }
{
    store(names, number, word);
    index[BUCKETS + number] = index[bucket];
    index[bucket] = (number + 1) as u16;
}

// A fixed name more, after those before it.
fn enter_fixed(names: &mut [u8], index: &mut [u16], number: usize, word: &[u8])
    requires { NameTable (take number base_names) names.old index.old × (number < base_name_count) × (word.now ≡ get_or base_names number []) }
    ensures { NameTable (take (number + 1) base_names) names.new index.new }
{
    enter(names, index, number, word, bucket_of(word));
}

// Names 0 to 7, in tables of zeros.
#[tactic(auto, unfolding(reading::specs::Numbering::base_names, words::specs::Text::bytes))]
pub fn enter_base(names: &mut [u8], index: &mut [u16])
    requires { NameTable [] names.old index.old }
    ensures { NameTable base_names names.new index.new }
{
    enter_fixed(names, index, 0, b"quote");
    enter_fixed(names, index, 1, b"if");
    enter_fixed(names, index, 2, b"lambda");
    enter_fixed(names, index, 3, b"let-syntax");
    enter_fixed(names, index, 4, b"letrec-syntax");
    enter_fixed(names, index, 5, b"syntax-rules");
    enter_fixed(names, index, 6, b"...");
    enter_fixed(names, index, 7, b"_");
}
