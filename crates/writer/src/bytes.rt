// Bytes laid into the output from a place on. Without ink nothing is laid: the same walk then tells the length.
ghost use Rattle.std.specs.Prelude.{◌≤◌, [], ◌∷◌, length};
ghost use Rattle.writer.specs.Laid.{Left};

// The place behind the byte, if the output is long enough.
pub fn byte(b: u8, out: &mut [u8], at: usize, ink: bool) -> Option<usize>
    requires { at ≤ length out.old }
    ensures { Left ink (b ∷ []) at out.old out.new result }
{
    if at >= out.len() {
        return None;
    }
    if ink {
        out[at] = b;
    }
    Some(at + 1)
}

// The place behind the bytes, if the output is long enough. They are laid by a loop, most being few; `copy_from_slice` would call `memmove`,
// which who links the services for C need not have.
pub fn copy(src: &[u8], out: &mut [u8], at: usize, ink: bool) -> Option<usize>
    requires { at ≤ length out.old }
    ensures { Left ink src.now at out.old out.new result }
{
    if out.len() - at < src.len() {
        return None;
    }
    let to = at + src.len();
    if ink {
        for i in 0..src.len() {
            out[at + i] = src[i];
        }
    }
    Some(to)
}
