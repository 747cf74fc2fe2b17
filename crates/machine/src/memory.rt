//! The words that the bytes of loads give (RFC 9669, section 5).

ghost use Rattle.std.specs.Prelude.{◌≡◌, ◌^◌, ◌<◌};
ghost use Rattle.bpf_parts.specs.Sizes.{load_bytes};
ghost use Rattle.machine.specs.Memory.{loaded_value};

use crate::words::word;
use bpf_insn::LoadSize;

/// The word that the bytes of a load give. The bytes are given as a number, and the condition is that it is one of as
/// many bytes.
pub fn loaded_value(size: LoadSize, n: u64) -> u64
    requires { n < 256 ^ load_bytes size }
    ensures { result ≡ loaded_value size n }
{
    match size {
        LoadSize::SignedByte => word(i64::from((n as u8).cast_signed())),
        LoadSize::SignedHalf => word(i64::from((n as u16).cast_signed())),
        LoadSize::SignedWord => word(i64::from((n as u32).cast_signed())),
        _ => n,
    }
}
