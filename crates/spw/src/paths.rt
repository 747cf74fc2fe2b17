//! The path before a packet.

ghost use Rattle.std.specs.Prelude.{◌≡◌, ◌≤◌, length};
ghost use Rattle.spw.specs.Paths.{without_path};

/// The first byte that is no path address (ECSS-E-ST-50-12C, addresses).
pub const FIRST_LOGICAL: u8 = 32;

/// The bytes after the path address bytes that come first.
pub fn without_path(bytes: &[u8]) -> &[u8]
    ensures value { result.now ≡ without_path bytes.now }
    ensures few { length result.now ≤ length bytes.now }
{
    let mut rest = bytes;
    while let [first, others @ ..] = rest {
        if *first >= FIRST_LOGICAL {
            return rest;
        }
        rest = others;
    }
    rest
}
