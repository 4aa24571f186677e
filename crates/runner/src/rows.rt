// The lent table as rows of 16 words. Row i has the i-th value of the value stack, the i-th frame of the frame stack, and the i-th
// cell of the environments, which is never taken back. An environment is 0, or 1 and the row of its innermost cell: one word of the lent
// table, as `EnvironmentIs` reads it.
ghost use Rattle.std.specs.Prelude.{◌≡◌, List, ℕ, ◌+◌, ◌*◌, ◌/◌, ◌%◌, ◌≤◌, length};
ghost use Rattle.evaluation.specs.Evaluate.{Environment};
ghost use Rattle.evaluation.specs.Evaluate as S;
ghost use Rattle.runner.specs.Domain.{Number};
ghost use Rattle.runner.specs.Rows.{EnvironmentIs, value_of, value_at};
ghost use Rattle.runner.specs.Found.{Bound, FoundIs};
ghost use Rattle.runner.specs.Stores.{frame_at, value_words, frame_words, value_set, frame_set, cell_set};
ghost use Rattle.runner.specs.Extended.{Extends, ExtendedBy};
ghost use Rattle.words.specs.Code.Packed.{packed};

const ROW: usize = 16;

// Where a row's frame and its cell begin; its value is at its start.
const FRAME: usize = 4;

const CELL: usize = 10;

// A value: a number by its word, a boolean, a datum by its place, a closure by the place of its lambda and its environment, an operation
// by its place among the operations.
#[derive(Clone, Copy)]
pub enum Value {
    Number(u32),
    Boolean(bool),
    Datum(usize),
    Closure { at: usize, environment: u32 },
    Operation(u32),
}

// The first of a value's four words in a row.
const NUMBER: u32 = 1;

const BOOLEAN: u32 = 2;

const DATUM: u32 = 3;

const CLOSURE: u32 = 4;

const OPERATION: u32 = 5;

// What waits for a value: the test of an if, whose branches begin at `next`; or a part of an application, of which `left` parts are
// still to be evaluated, the first of them at `next`, and the values since the head's stand from row `base` on.
#[derive(Clone, Copy)]
pub enum Frame {
    Test(Branches),
    Parts(Parts),
}

#[derive(Clone, Copy)]
pub struct Branches {
    pub next: usize,
    pub environment: u32,
}

#[derive(Clone, Copy)]
pub struct Parts {
    pub next: usize,
    pub left: u32,
    pub base: u32,
    pub environment: u32,
}

// The first of a frame's six words in a row.
const TEST: u32 = 1;

const PARTS: u32 = 2;

// A place in two words.
pub fn low(place: usize) -> u32
    ensures { result ≡ place % 4294967296 }
{
    (place % 0x1_0000_0000) as u32
}

pub fn high(place: usize) -> u32
    ensures { result ≡ place / 4294967296 }
{
    (place / 0x1_0000_0000) as u32
}

pub fn place(low: u32, high: u32) -> usize
    ensures { result ≡ packed high low }
{
    0x1_0000_0000 * high as usize + low as usize
}

// The words of a value: a place takes two.
fn words_of(v: Value) -> [u32; 4]
    ensures { result ≡ value_words v }
{
    match v {
        Value::Number(w) => [NUMBER, w, 0, 0],
        Value::Boolean(b) => [BOOLEAN, u32::from(b), 0, 0],
        Value::Datum(at) => [DATUM, low(at), high(at), 0],
        Value::Closure { at, environment } => [CLOSURE, low(at), high(at), environment],
        Value::Operation(p) => [OPERATION, p, 0, 0],
    }
}

// The value of four words.
fn value_of(kind: u32, a: u32, b: u32, environment: u32) -> Value
    ensures { result ≡ value_of kind a b environment }
{
    match kind {
        1 => Value::Number(a),
        2 => Value::Boolean(a == 1),
        3 => Value::Datum(place(a, b)),
        4 => Value::Closure {
            at: place(a, b),
            environment,
        },
        _ => Value::Operation(a),
    }
}

pub fn value_at(table: &[u32], row: usize) -> Value
    requires { 16 * (row + 1) ≤ length table.now }
    ensures { result ≡ value_at table.now row }
{
    let at = ROW * row;
    value_of(table[at], table[at + 1], table[at + 2], table[at + 3])
}

pub fn put_value(table: &mut [u32], row: usize, v: Value)
    requires { 16 * (row + 1) ≤ length table.old }
    ensures { table.new ≡ value_set table.old row v }
{
    let at = ROW * row;
    let words = words_of(v);
    table[at] = words[0];
    table[at + 1] = words[1];
    table[at + 2] = words[2];
    table[at + 3] = words[3];
}

// The words of a frame.
fn frame_words(f: Frame) -> [u32; 6]
    ensures { result ≡ frame_words f }
{
    match f {
        Frame::Test(b) => [TEST, low(b.next), high(b.next), 0, 0, b.environment],
        Frame::Parts(p) => [
            PARTS,
            low(p.next),
            high(p.next),
            p.left,
            p.base,
            p.environment,
        ],
    }
}

pub fn frame_at(table: &[u32], row: usize) -> Frame
    requires { 16 * (row + 1) ≤ length table.now }
    ensures { result ≡ frame_at table.now row }
{
    let at = ROW * row + FRAME;
    let next = place(table[at + 1], table[at + 2]);
    let environment = table[at + 5];
    match table[at] {
        1 => Frame::Test(Branches { next, environment }),
        _ => Frame::Parts(Parts {
            next,
            left: table[at + 3],
            base: table[at + 4],
            environment,
        }),
    }
}

pub fn put_frame(table: &mut [u32], row: usize, f: Frame)
    requires { 16 * (row + 1) ≤ length table.old }
    ensures { table.new ≡ frame_set table.old row f }
{
    let at = ROW * row + FRAME;
    let words = frame_words(f);
    table[at] = words[0];
    table[at + 1] = words[1];
    table[at + 2] = words[2];
    table[at + 3] = words[3];
    table[at + 4] = words[4];
    table[at + 5] = words[5];
}

// A variable's cell: its number, its value, and the environment that it is put before.
pub fn put_cell(table: &mut [u32], row: usize, number: u32, v: Value, link: u32)
    requires { 16 * (row + 1) ≤ length table.old }
    ensures { table.new ≡ cell_set table.old row number v link }
{
    let at = ROW * row + CELL;
    let words = words_of(v);
    table[at] = number;
    table[at + 1] = words[0];
    table[at + 2] = words[1];
    table[at + 3] = words[2];
    table[at + 4] = words[3];
    table[at + 5] = link;
}

// A variable's value in an environment.
pub fn find(table: &[u32], environment: u32, number: u32) -> Option<Value>
    requires { Bound table.now environment }
    ensures { (ws : List ℕ) (env : Environment Number) → EnvironmentIs ws table.now environment env → FoundIs ws table.now environment (S.find number env) result }
{
    let mut e = environment as usize;
    while e > 0 {
        let at = ROW * (e - 1) + CELL;
        if table[at] == number {
            let v = value_of(table[at + 1], table[at + 2], table[at + 3], table[at + 4]);
            return Some(v);
        }
        e = table[at + 5] as usize;
    }
    None
}

// An environment with more cells.
#[derive(Clone, Copy)]
pub struct Extended {
    pub environment: u32,
    pub cells: usize,
}

// The variable of a number gets the value of a row. A number that no word holds is no variable's.
fn extend(table: &mut [u32], cells: usize, environment: u32, number: usize, row: usize) -> Extended
    requires { Extends table.old cells environment row 1 }
    ensures { ExtendedBy table.old cells environment number row 1 table.new result }
{
    if number >= 0x1_0000_0000 {
        return Extended { environment, cells };
    }
    let v = value_at(table, row);
    put_cell(table, cells, number as u32, v, environment);
    Extended {
        environment: (cells + 1) as u32,
        cells: cells + 1,
    }
}

// Variables from `first` on get the values from row `from` on.
pub fn bind(
    table: &mut [u32],
    cells: usize,
    environment: u32,
    first: u32,
    from: usize,
    count: usize,
) -> Extended
    requires { Extends table.old cells environment from count }
    ensures { ExtendedBy table.old cells environment first from count table.new result }
{
    let mut e = Extended { environment, cells };
    for i in 0..count {
        e = extend(table, e.cells, e.environment, first as usize + i, from + i);
    }
    e
}
