// Marks in hand: the marks of a name that is being looked at, in a table lent for it. specs/Marks.antt says what they are.
// `start` and `count` say where they stand: the oldest first, so that the newest come and go at the end. Where they do not fit in
// the table, there is no answer.

ghost use Rattle.std.specs.Prelude.{◌≡◌, ◌+◌, ◌≤◌, ◌<◌, length, MatchOption};
ghost use Rattle.words.specs.Lists.{equal};
ghost use Rattle.arena.specs.Arena.{newest, marked, step_limit};
ghost use Rattle.resolution.specs.Marks.{marks_in, Toggled, Hand, MarksAfter};

// Marks are numbers of steps, at most one more than the most fuel.
pub const STEP_LIMIT: u32 = words::FUEL + 2;

// A mark met twice cancels; answers the new count.
fn toggle(marks: &mut [u32], start: usize, count: usize, m: u32) -> usize
    requires { start + count < length marks.old }
    ensures { Toggled m start count marks.old marks.new result }
{
    if count == 0 {
        marks[start] = m;
        return 1;
    }
    let last = count - 1;
    let x = marks[start + last];
    if x == m {
        return last;
    }
    if x < m {
        marks[start + count] = m;
        return count + 1;
    }
    let n = toggle(marks, start, last, m);
    marks[start + n] = x;
    n + 1
}

// A mark on the name in hand; a word past the limit marks nothing. Answers the new count, where there is room for one mark more.
#[tactic(auto, using(crate::specs::HandLaws::count_most))]
pub fn mark(marks: &mut [u32], start: usize, count: usize, m: u32) -> Option<usize>
    requires { Hand marks.old start count }
    ensures { MatchOption result (length marks.new ≤ start + step_limit) (MarksAfter (marked m) marks.old marks.new start count) }
{
    if STEP_LIMIT <= m {
        return Some(count);
    }
    if marks.len() <= start + count {
        return None;
    }
    Some(toggle(marks, start, count, m))
}

// The newest mark, 0 where there is none, as the words of a binder's cell have it.
pub fn newest_of(marks: &[u32], start: usize, count: usize) -> u32
    requires { start + count ≤ length marks.now }
    ensures { result ≡ newest (marks_in marks.now start count) }
{
    if count == 0 {
        return 0;
    }
    marks[start + (count - 1)]
}

// Whether two parts of one count hold the same marks.
pub fn equal_marks(marks: &[u32], a: usize, b: usize, count: usize) -> bool
    requires { (a + count ≤ length marks.now) × (b + count ≤ length marks.now) }
    ensures { result ≡ equal (marks_in marks.now a count) (marks_in marks.now b count) }
{
    marks[a..a + count] == marks[b..b + count]
}
