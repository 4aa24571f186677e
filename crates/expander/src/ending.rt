// The end of a call: its answer, and zeros past the term.

ghost use Rattle.std.specs.Prelude.{◌≤◌, length};
ghost use Rattle.expander.specs.Start.{end_numbers, Finished};

use crate::Expanded;
use turns::answers::{Reached, Refused};

// The answer for an expansion that ended so.
pub fn finish(core: &mut [u32], ended: Result<Reached, Refused>) -> Result<Expanded, Refused>
    requires { (end_numbers ended).length ≤ length core.old }
    ensures { Finished ended core.old core.new result }
{
    match ended {
        Ok(reached) => {
            core[reached.at as usize..].fill(0);
            Ok(Expanded {
                steps: reached.steps,
                sum: reached.sum,
                length: reached.at,
            })
        }
        Err(refused) => {
            core.fill(0);
            Err(refused)
        }
    }
}
