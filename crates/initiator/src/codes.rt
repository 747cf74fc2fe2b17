//! The command codes of commands that an initiator makes (ECSS-E-ST-50-52C, instruction field).

ghost use Rattle.std.specs.Prelude.{◌≡◌, ◌<◌};
ghost use Rattle.initiator.specs.CommandCodes.{instruction_bit_of, read_code, rmw_code, write_code};

/// The command code of a read-modify-write.
pub const RMW_CODE: u8 = 0b0111;

/// A law and no work: [`RMW_CODE`] is 0111.
pub fn rmw_code_is_its_own()
    ensures { RMW_CODE ≡ rmw_code }
{}

/// A bit of an instruction.
fn instruction_bit_of(set: bool) -> u8
    ensures { result ≡ instruction_bit_of set }
{
    if set { 1 } else { 0 }
}

/// The command code of a read: 001, and the increment bit.
pub fn read_code(increment: bool) -> u8
    ensures { result ≡ read_code increment }
{
    2 + instruction_bit_of(increment)
}

/// The command code of a write: 1, and the bits for verified data, a reply and increment.
pub fn write_code(verify: bool, reply: bool, increment: bool) -> u8
    ensures { result ≡ write_code verify reply increment }
{
    8 + 4 * instruction_bit_of(verify)
        + 2 * instruction_bit_of(reply)
        + instruction_bit_of(increment)
}
