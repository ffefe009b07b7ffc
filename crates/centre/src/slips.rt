// Writing and reading a slip, as calls of the centre. The rules stand in `specs/Slips.antt`.
ghost use Rattle.std.specs.Prelude.{◌≡◌};
ghost use Rattle.slip.specs.Answers.{write_after};
ghost use Rattle.centre.specs.Answers.{told};
ghost use Rattle.centre.specs.Slips.{write_told, read_told};

use crate::{Done, Refusal};
use slip::{Slip, read, write};

// Writes a slip into the first six bytes of a buffer.
#[tactic(auto, unfolding(crate::specs::Answers::told, crate::specs::Slips::write_told, slip::specs::Answers::write_answer))]
pub fn write_slip(s: Slip, buffer: &mut [u8]) -> Result<Done, Refusal>
    ensures result_value { told result ≡ write_told s buffer.old }
    ensures buffer_after { buffer.new ≡ write_after s buffer.old }
{
    write(s, buffer)?;
    Ok(Done::Plain)
}

// Reads a slip.
#[tactic(auto, unfolding(crate::specs::Answers::told, crate::specs::Slips::read_told, slip::specs::Answers::read_answer))]
pub fn read_slip(bytes: &[u8]) -> Result<Done, Refusal>
    ensures { told result ≡ read_told bytes.now }
{
    Ok(Done::Says(read(bytes)?))
}
