// Blocks: what the variables under an ellipsis take. At a list an ellipsis makes a block: how many elements it takes, how many slots
// its element's pattern has, and a row of that many words for each element. A slot is a variable outside further ellipses, its word a
// node, or an ellipsis, its word a block.

ghost use Rattle.std.specs.Prelude.{◌≡◌};
ghost use Rattle.environments.specs.Blocks.{word_in, slot_at};

// Word i of the table, 0 past its end.
pub fn at(work: &[u32], i: usize) -> u32
    ensures { result ≡ word_in work.now i }
{
    if i < work.len() {
        return work[i];
    }
    0
}

// How many elements a block's ellipsis takes.
pub fn count(work: &[u32], block: u32) -> u32
    ensures { result ≡ word_in work.now block }
{
    at(work, block as usize)
}

// The word of slot s in row i of a block, 0 past the last row: two words of the block are read, and then the row's.
pub fn slot(work: &[u32], block: u32, s: u32, i: u32) -> u32
    ensures { result ≡ slot_at work.now block s i }
{
    if count(work, block) <= i {
        return 0;
    }
    let width = at(work, block as usize + 1);
    let before = i as usize * width as usize;
    if work.len() <= before {
        return 0;
    }
    at(work, block as usize + 2 + (before + s as usize))
}
