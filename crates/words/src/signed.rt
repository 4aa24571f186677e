// Signed numbers and their two's complement words. No sum or difference passes the range.
ghost use Rattle.std.specs.Prelude.{◌≡◌, nat_abs};
ghost use Rattle.std.specs.Int.{w32};
ghost use Rattle.std.proofs.Common.{to_z, of_z};

// The word of a number.
pub fn to_word(z: i32) -> u32
    ensures { result ≡ of_z w32 z }
{
    z.cast_unsigned()
}

// The number of a word.
pub fn of_word(w: u32) -> i32
    ensures { result ≡ to_z w32 w }
{
    w.cast_signed()
}

// A number without its sign: below 0 it is negated, the least one too, whose opposite is no i32.
pub fn size(z: i32) -> u32
    ensures { result ≡ nat_abs z }
{
    z.unsigned_abs()
}
