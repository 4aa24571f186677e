// Runs that are numbers: an integer, or a decimal by its value without the dot and its places.
ghost use Rattle.std.specs.Prelude.{◌≡◌, true, ◌+◌, ◌*◌, ◌-◌, ◌≤◌, min, length};
ghost use Rattle.reading.specs.Token.{is_digit};
ghost use Rattle.reading.specs.Meaning.{is_negative, unsigned, is_numeral, signed, numeral_of};
ghost use Rattle.lexer.specs.Answers.{numeral_meaning, DigitsAfter, behind_dot};

use crate::bytes::is_digit;
use words::ground::Ground;

// A number by its value without the dot and its places, of which an integer has none.
#[derive(Clone, Copy)]
pub struct Number {
    pub value: i32,
    pub places: u32,
}

// One more than the largest number without its sign.
const BEYOND: u64 = 2147483649;

// The digits that a run begins with: how many, and the number that they spell after another, or the one beyond all.
#[derive(Clone, Copy)]
pub struct Digits {
    pub count: usize,
    pub value: u64,
}

// A digit more; the one beyond all stays.
fn appended(value: u64, digit: u8) -> u64
    requires value_bound { value ≤ 2147483649 }
    requires digit_value { is_digit digit ≡ true }
    ensures { result ≡ min (10 * value + (digit - 48)) 2147483649 }
{
    let next = 10 * value + (u64::from(digit) - 48);
    if BEYOND < next {
        return BEYOND;
    }
    next
}

// The digits of a run from the left, up to the first byte that is none.
fn digits_after(before: u64, run: &[u8]) -> Digits
    requires { before ≤ 2147483649 }
    ensures { DigitsAfter before run.now result }
{
    let mut value = before;
    for i in 0..run.len() {
        if !is_digit(run[i]) {
            return Digits { count: i, value };
        }
        value = appended(value, run[i]);
    }
    Digits {
        count: run.len(),
        value,
    }
}

// A number with its sign; no sum passes the range.
fn signed(negative: bool, size: u64, places: u32) -> Result<Number, Ground>
    ensures { numeral_meaning result ≡ signed negative size places }
{
    if !negative {
        if 2147483647 < size {
            return Err(Ground::NumberOutOfRange);
        }
        return Ok(Number {
            value: size as i32,
            places,
        });
    }
    if 2147483648 < size {
        return Err(Ground::NumberOutOfRange);
    }
    if size == 0 {
        return Ok(Number { value: 0, places });
    }
    Ok(Number {
        value: -1 - (size - 1) as i32,
        places,
    })
}

// The run starts with a digit, or with a minus and a digit.
pub fn is_numeral(word: &[u8]) -> bool
    ensures { result ≡ is_numeral word.now }
{
    if word.len() == 0 {
        return false;
    }
    if word[0] != b'-' {
        return is_digit(word[0]);
    }
    if word.len() == 1 {
        return false;
    }
    is_digit(word[1])
}

// What stands behind the dot of a number is its places: one to four digits.
fn decimal_of(negative: bool, whole: u64, places: &[u8]) -> Result<Number, Ground>
    requires { whole ≤ 2147483649 }
    ensures { numeral_meaning result ≡ behind_dot negative whole places.now }
{
    if places.len() == 0 {
        return Err(Ground::BadToken);
    }
    if (words::PLACES as usize) < places.len() {
        return Err(Ground::BadToken);
    }
    let digits = digits_after(whole, places);
    if digits.count != places.len() {
        return Err(Ground::BadToken);
    }
    signed(negative, digits.value, digits.count as u32)
}

// The number that a run past its minus is.
fn unsigned_of(negative: bool, word: &[u8]) -> Result<Number, Ground>
    ensures { numeral_meaning result ≡ numeral_of negative word.now }
{
    let whole = digits_after(0, word);
    let dot = whole.count;
    if dot == word.len() {
        return signed(negative, whole.value, 0);
    }
    if word[dot] != b'.' {
        return Err(Ground::BadToken);
    }
    decimal_of(negative, whole.value, &word[dot + 1..])
}

// The number that a run starting as one is.
pub fn numeral_of(word: &[u8]) -> Result<Number, Ground>
    requires { 1 ≤ length word.now }
    ensures { numeral_meaning result ≡ numeral_of (is_negative word.now) (unsigned word.now) }
{
    if word[0] == b'-' {
        return unsigned_of(true, &word[1..]);
    }
    unsigned_of(false, word)
}
