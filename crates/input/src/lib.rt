// How the programs read a text: into a buffer, until it is full or the input ends.
#![tactic(auto)]

ghost use Rattle.std.specs.Prelude.{◌≤◌, length, IfOk};

use std::io;
use std::io::Read;

// Reads until the buffer is full or the input ends; how many bytes stand at its beginning. It is a loop of its own, as `read_exact` refuses
// an input that ends before the buffer is full.
pub fn read_full(input: &mut impl Read, bytes: &mut [u8]) -> io::Result<usize>
    ensures { IfOk result (λ n. n ≤ length bytes.new) }
{
    let mut done = 0;
    while done < bytes.len() {
        let n = input.read(&mut bytes[done..])?;
        if n == 0 {
            break;
        }
        done += n;
    }
    Ok(done)
}

// Whether the input can be read on from where it stands, or why not; at its end it can.
fn can_read(input: &mut impl Read) -> io::Result<()> {
    let mut more = [0u8; 1];
    input.read(&mut more)?;
    Ok(())
}

// The bytes of an input that can be read on behind them, as many as the buffer holds, at its beginning; how many.
pub fn load(input: &mut impl Read, bytes: &mut [u8]) -> io::Result<usize>
    ensures { IfOk result (λ n. n ≤ length bytes.new) }
{
    let length = read_full(input, bytes)?;
    can_read(input)?;
    Ok(length)
}
