// The flags of the window's variables, from base on: 1 inside the variable's lambda.
ghost use Rattle.std.specs.Prelude.{◌≡◌, ◌&&◌, ◌-◌, ltb};
ghost use Rattle.core_term.specs.Code.Window.{put, marked, noted};

// Variable k's flag, where it is in the window.
fn set(flags: &mut [u8], base: usize, k: usize, value: u8)
    ensures { flags.new ≡ put base k value flags.old }
{
    if k < base {
        return;
    }
    let i = k - base;
    if i >= flags.len() {
        return;
    }
    flags[i] = value;
}

// The flags of variables from .. to.
pub fn mark(flags: &mut [u8], base: usize, from: usize, to: usize, value: u8)
    ensures { flags.new ≡ marked base from (to - from) value flags.old }
{
    for k in from..to {
        set(flags, base, k, value);
    }
}

// Variable k is among the bound ones, and in scope if it is in the window.
pub fn in_scope(k: usize, bound: usize, base: usize, flags: &[u8]) -> bool
    ensures { result ≡ (ltb k bound && noted base flags.now k) }
{
    if k >= bound {
        return false;
    }
    if k < base {
        return true;
    }
    let i = k - base;
    i >= flags.len() || flags[i] == 1
}
