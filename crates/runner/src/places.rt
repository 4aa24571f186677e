// Where parts end. A table keeps for each place of a term's words, as far as it reaches, where the term or datum that begins there
// ends (0: not known, as one word has to do for it); it is filled in one pass, so that no visit of a node looks for the end of a part again.
ghost use Rattle.runner.specs.Memo.{Placed, EndsAt, Memo};

use core_term::nodes::shape_at;

// The place behind the term or datum that begins at a place, by the number of parts still due: the words are a prefix code.
fn skip(words: &[u32], place: usize) -> usize
    requires { Placed words.now place }
    ensures { EndsAt words.now place result }
{
    let mut at = place;
    let mut due = 1;
    while due > 0 {
        let n = shape_at(&words[at..]).unwrap();
        at = at + n.own;
        due = due - 1 + n.parts;
    }
    at
}

// The place behind the term or datum that begins at a place: one look where the table has it, else linear in its words.
pub fn after(words: &[u32], ends: &[u32], at: usize) -> usize
    requires { Memo words.now ends.now × Placed words.now at }
    ensures { EndsAt words.now at result }
{
    if at < ends.len() {
        let end = ends[at] as usize;
        if end != 0 {
            return end;
        }
    }
    skip(words, at)
}

// Notes where a term or datum ends, and each of its parts; gives its end. Each node is visited once, so the cost is linear in its words;
// the calls go as deep as the term, like those of the test of ground 19.
pub fn mark(words: &[u32], ends: &mut [u32], at: usize) -> usize
    requires { Memo words.now ends.old × Placed words.now at }
    ensures { Memo words.now ends.new × EndsAt words.now at result }
{
    let n = shape_at(&words[at..]).unwrap();
    let mut next = at + n.own;
    for _ in 0..n.parts {
        next = mark(words, ends, next);
    }
    if at < ends.len() && next < 0x1_0000_0000 {
        ends[at] = next as u32;
    }
    next
}
