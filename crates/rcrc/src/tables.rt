//! What shifts of the register make of each byte.

ghost use Rattle.std.specs.Prelude.{◌≡◌, suc, ◌*◌, ◌<◌};
ghost use Rattle.rcrc.specs.Crc.{shifts};

/// A table of all sums without carry of the bytes given. Entry `n` is the sum of those whose bit is set in `n`, bit 0
/// for the first of them.
macro_rules! sums {
    ([$($sum:expr),*]) => { [$($sum),*] };
    ([$($sum:expr),*] $byte:literal $($more:literal)*) => {
        sums!([$($sum,)* $($sum ^ $byte),*] $($more)*)
    };
}

/// Table `k` has what `8 * (k + 1)` shifts of the register make of each byte. Shifts of a sum are the sum of the
/// shifts. So what they make of each bit, bit 0 first, gives the table.
const TABLES: [[u8; 256]; 8] = [
    sums!([0] 0x91 0xE3 0x07 0x0E 0x1C 0x38 0x70 0xE0),
    sums!([0] 0x6D 0xDA 0x75 0xEA 0x15 0x2A 0x54 0xA8),
    sums!([0] 0xD0 0x61 0xC2 0x45 0x8A 0xD5 0x6B 0xD6),
    sums!([0] 0x8C 0xD9 0x73 0xE6 0x0D 0x1A 0x34 0x68),
    sums!([0] 0xE9 0x13 0x26 0x4C 0x98 0xF1 0x23 0x46),
    sums!([0] 0x37 0x6E 0xDC 0x79 0xF2 0x25 0x4A 0x94),
    sums!([0] 0x51 0xA2 0x85 0xCB 0x57 0xAE 0x9D 0xFB),
    sums!([0] 0xFD 0x3B 0x76 0xEC 0x19 0x32 0x64 0xC8),
];

/// What the shifts of one byte, and of `later` bytes more, make of `byte`.
pub(crate) fn shifted(byte: u8, later: usize) -> u8
    requires { later < 8 }
    ensures { result ≡ shifts (8 * suc later) byte }
{
    TABLES[later][byte as usize]
}
