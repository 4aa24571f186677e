// Numbers as text: integers, and decimals.
ghost use Rattle.std.specs.Prelude.{◌≡◌, ◌+◌, ◌-◌, ◌*◌, ◌^◌, ◌<◌, ◌≤◌, true, ◌∷◌, ◌++◌, length, take, drop};
ghost use Rattle.core_term.specs.Decimal.{decimal, padded, pointed, integer_text, decimal_text};
ghost use Rattle.writer.specs.Laid.{laid, Left};
ghost use Rattle.writer.specs.Digits.{tens, quotient, remainder};
ghost use Rattle.writer.specs.Pieces.{gap_text};

use crate::bytes::{byte, copy};
use std::num::wrapping_sub_usize;
use words::signed::{of_word, size};

// The powers of ten up to the tenth. specs/Digits.antt has the same numbers.
const POWERS: [usize; 11] = [
    1,
    10,
    100,
    1000,
    10000,
    100000,
    1000000,
    10000000,
    100000000,
    1000000000,
    10000000000,
];

// Ten to the k: in the table, or the product of two of it.
fn power(powers: &[usize], k: usize) -> usize
    requires { (powers.now ≡ tens) × (k < 20) }
    ensures { result ≡ 10 ^ k }
{
    if k <= 10 {
        return powers[k];
    }
    powers[9] * powers[k - 9]
}

// A digit's byte so far, and what is left of the number.
#[derive(Clone, Copy)]
struct Part {
    digit: u8,
    left: usize,
}

// A multiple q of a power is subtracted where it can be, and its digit added then. The difference is made first and looked at then, the
// highest bit telling that it wrapped below 0: so the compiler chooses and does not jump, for digits cannot be foretold.
fn less(digit: u8, left: usize, q: usize, more: u8) -> Part
    requires { (digit + more < 256) × (left < 2 * q) × (q ≤ 8000000000000000000) }
    ensures { (result.digit ≡ digit + more * quotient left q) × (result.left ≡ remainder left q) × (result.digit ≤ digit + more) × (result.left < q) }
{
    let rest = wrapping_sub_usize(left, q);
    if rest < 9223372036854775808 {
        return Part {
            digit: digit + more,
            left: rest,
        };
    }
    Part { digit, left }
}

// The digit of n at the power p, and what is left below it.
fn split(n: usize, p: usize) -> Part
    requires { (n < 10 * p) × (p ≤ 1000000000000000000) }
    ensures { (result.digit ≡ 48 + quotient n p) × (result.left ≡ remainder n p) }
{
    let two = p + p;
    let four = two + two;
    let a = less(48, n, four + four, 8);
    let b = less(a.digit, a.left, four, 4);
    let c = less(b.digit, b.left, two, 2);
    less(c.digit, c.left, p, 1)
}

// How many digits of n come after its first.
fn places(powers: &[usize], n: usize) -> usize
    requires { (powers.now ≡ tens) × (10 ≤ n) }
    ensures { (result < 20) × (10 ^ result ≤ n) × (n < 10 ^ (result + 1)) }
{
    for k in 1..19 {
        if n < power(powers, k + 1) {
            return k;
        }
    }
    19
}

// The digits of n from ten to the k down, zeros that lead among them.
fn lay(powers: &[usize], n: usize, k: usize, out: &mut [u8], at: usize)
    requires { (powers.now ≡ tens) × (k < 19) × (n < 10 ^ (k + 1)) × (at + k < length out.old) }
    ensures { out.new ≡ laid true (padded k n) at out.old }
{
    let mut left = n;
    for i in 0..k {
        let part = split(left, power(powers, k - i));
        out[at + i] = part.digit;
        left = part.left;
    }
    out[at + k] = 48 + left as u8;
}

// The digits of n. Twenty of them begin with 1: 64 bits hold ten to the 19th once.
pub fn digits(n: usize, out: &mut [u8], at: usize, ink: bool) -> Option<usize>
    requires { at ≤ length out.old }
    ensures { Left ink (decimal n) at out.old out.new result }
{
    if n < 10 {
        return byte(48 + n as u8, out, at, ink);
    }
    let powers = POWERS;
    let k = places(&powers, n);
    if out.len() - at <= k {
        return None;
    }
    if !ink {
        return Some(at + k + 1);
    }
    if k == 19 {
        out[at] = b'1';
        lay(&powers, n - power(&powers, 19), 18, out, at + 1);
        return Some(at + k + 1);
    }
    lay(&powers, n, k, out, at);
    Some(at + k + 1)
}

// A letter and the digits of n, as v0.
pub fn numbered(letter: u8, n: usize, out: &mut [u8], at: usize, ink: bool) -> Option<usize>
    requires { at ≤ length out.old }
    ensures { Left ink (letter ∷ decimal n) at out.old out.new result }
{
    let to = byte(letter, out, at, ink)?;
    digits(n, out, to, ink)
}

// The integer with the two's complement bits w, a minus before it below 0.
pub fn integer(w: u32, out: &mut [u8], at: usize, ink: bool) -> Option<usize>
    requires { at ≤ length out.old }
    ensures { Left ink (integer_text w) at out.old out.new result }
{
    let z = of_word(w);
    let n = size(z) as usize;
    if z < 0 {
        return numbered(b'-', n, out, at, ink);
    }
    digits(n, out, at, ink)
}

// How many digits of n come after its first, a zero before the places counting as one.
fn places_least(powers: &[usize], n: usize, least: usize) -> usize
    requires { (powers.now ≡ tens) × (n < 4294967296) × (least ≤ 4) }
    ensures { (least ≤ result) × (result < 10) × (n < 10 ^ (result + 1)) × (least < result → 10 ^ result ≤ n) }
{
    if n < 10 {
        return least;
    }
    let k = places(powers, n);
    if k < least {
        return least;
    }
    k
}

// The first digits up to the dot, the dot, and those from there to the end.
fn dotted(
    digits: &[u8],
    dot: usize,
    end: usize,
    out: &mut [u8],
    at: usize,
    ink: bool,
) -> Option<usize>
    requires { (at ≤ length out.old) × (dot ≤ end) × (end ≤ length digits.now) }
    ensures { Left ink (take dot digits.now ++ (46 ∷ take (end - dot) (drop dot digits.now))) at out.old out.new result }
{
    let a = copy(&digits[..dot], out, at, ink)?;
    let b = byte(b'.', out, a, ink)?;
    copy(&digits[dot..end], out, b, ink)
}

// The digits of n, a dot before the last of them: as many come behind it as there are places.
fn point(n: usize, count: usize, out: &mut [u8], at: usize, ink: bool) -> Option<usize>
    requires { (at ≤ length out.old) × (n < 4294967296) × (1 ≤ count) × (count ≤ 4) }
    ensures { Left ink (pointed count n) at out.old out.new result }
{
    let powers = POWERS;
    let k = places_least(&powers, n, count);
    let mut digits = [b'0'; 10];
    lay(&powers, n, k, &mut digits, 0);
    dotted(&digits, k + 1 - count, k + 1, out, at, ink)
}

// The decimal whose value without the dot has the bits w, a minus before it below 0, though its whole part be 0.
pub fn decimal(w: u32, count: u32, out: &mut [u8], at: usize, ink: bool) -> Option<usize>
    requires { (at ≤ length out.old) × (1 ≤ count) × (count ≤ 4) }
    ensures { Left ink (decimal_text w count) at out.old out.new result }
{
    let z = of_word(w);
    let n = size(z) as usize;
    if z < 0 {
        let to = byte(b'-', out, at, ink)?;
        return point(n, count as usize, out, to, ink);
    }
    point(n, count as usize, out, at, ink)
}

// A space, where one is wanted.
pub fn gap(wanted: bool, out: &mut [u8], at: usize, ink: bool) -> Option<usize>
    requires { at ≤ length out.old }
    ensures { Left ink (gap_text wanted) at out.old out.new result }
{
    if !wanted {
        return Some(at);
    }
    byte(b' ', out, at, ink)
}
