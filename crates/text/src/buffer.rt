// Bytes for the buffer of a caller. What it then holds is one definition, `delivered`, that each call names over its own bytes.
ghost use Rattle.std.specs.Prelude.{◌≡◌, ◌≤◌, length};
ghost use Rattle.tasks.specs.Buffers.{delivered};

use tasks::fault::{Fault, PlanFault};

// Copies the bytes to the front of a buffer that is long enough, and returns their count; a shorter one is left alone.
pub(crate) fn deliver(bytes: &[u8], least: usize, out: &mut [u8]) -> Result<usize, Fault>
    requires { length bytes.now ≤ least }
    ensures { (result, out.new) ≡ delivered least bytes.now out.old }
{
    if out.len() < least {
        return Err(Fault::Plan(PlanFault::Buffer));
    }
    out[..bytes.len()].copy_from_slice(bytes);
    Ok(bytes.len())
}
