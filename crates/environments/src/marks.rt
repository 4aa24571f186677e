// Which lists drive the copies of an element, marked in a small table, and what the marked ones say. specs/Marks.antt says what the
// table holds.

ghost use Rattle.std.specs.Prelude.{◌≡◌, Ok, ◌+◌, ◌*◌, ◌^◌, ◌<◌, ◌≤◌, false, length};
ghost use Rattle.words.specs.Limits.{pattern_variables_most, depth_most};
ghost use Rattle.rule_cells.specs.Cells.{template_at};
ghost use Rattle.environments.specs.Sound.{Plain};
ghost use Rattle.environments.specs.Marks.{mark_words, Marks, Unmarked, Keeps, Gathers};

use crate::lengths::Differ;
use crate::{environment, lengths};
use rule_cells::cells;

// A word for each variable, taken under no index, and again under one.
pub const WORDS: usize = 2 * words::VARIABLES as usize;

// Where the list is marked that variable k takes under this many indices.
fn place(k: u32, level: u32) -> usize
    requires { (k < pattern_variables_most) × (level < depth_most) }
    ensures { result ≡ pattern_variables_most * level + k }
{
    (words::VARIABLES * level + k) as usize
}

// The lists that drive the copies of an element are marked; t is the part of it under j ellipses.
pub fn mark(work: &[u32], j: u32, t: u32, marks: &mut [u32])
    requires { (j + t < 2 ^ 32) × (length marks.old ≡ mark_words) × Plain (template_at work.now t) }
    ensures { Marks work.now j t marks.old marks.new }
{
    let tag = arena::cells::word(work, t, cells::TAG);
    match tag {
        cells::VARIABLE => {
            let d = arena::cells::word(work, t, cells::DEPTH);
            if j < d {
                let k = arena::cells::word(work, t, cells::NUMBER);
                marks[place(k, d - j - 1)] = 1;
            }
        }
        cells::PAIR | cells::ELLIPSIS => {
            let head = arena::cells::reference(work, t, cells::HEAD);
            let rest = arena::cells::reference(work, t, cells::REST);
            mark(work, lengths::deeper(tag, j), head, marks);
            mark(work, j, rest, marks);
        }
        _ => {}
    }
}

// Whether one of the first n variables' lists, taken under this many indices, is marked.
pub fn any(marks: &[u32], level: u32, n: u32) -> bool
    requires { (length marks.now ≡ mark_words) × (level < depth_most) × (n ≤ pattern_variables_most) }
    ensures { result ≡ false → Unmarked marks.now level n }
{
    if n == 0 {
        return false;
    }
    let k = n - 1;
    if marks[place(k, level)] == 1 {
        return true;
    }
    any(marks, level, k)
}

// The entries of the variables whose lists are marked under one index, in a table of their own, in which no other moves.
pub fn keep(env: &[u32; environment::WORDS], marks: &[u32], kept: &mut [u32; environment::WORDS])
    requires { length marks.now ≡ mark_words }
    ensures { Keeps marks.now env.now pattern_variables_most kept.new }
{
    let from: &[u32] = env;
    let to: &mut [u32] = kept;
    for k in 0..words::VARIABLES {
        if marks[place(k, 1)] == 1 {
            let x = environment::get(from, k as usize);
            environment::put(to, k as usize, x);
        }
    }
}

// The length of those of the first n variables' lists, taken under this many indices, that are marked, and of others.
pub fn gather(
    work: &[u32],
    env: &[u32; environment::WORDS],
    marks: &[u32],
    level: u32,
    n: u32,
    before: Option<u32>,
) -> Result<Option<u32>, Differ>
    requires { (length marks.now ≡ mark_words) × (level < depth_most) × (n ≤ pattern_variables_most) }
    ensures { Gathers work.now env.now marks.now level n (Ok before) result }
{
    let mut so_far = before;
    for i in 0..n {
        let k = n - 1 - i;
        if marks[place(k, level)] == 1 {
            so_far = lengths::also(Ok(so_far), environment::copies(work, env, k, level))?;
        }
    }
    Ok(so_far)
}
