//! The bytes of a path that a router takes away.

use rmap::PROTOCOL;
use spw::without_path;
use std::alloc::AllocError;

/// The bytes of a path that come before a packet of this protocol, as it leaves its sender: no bytes, if none do.
pub fn path_in_front(bytes: &[u8]) -> &[u8] {
    let (path, packet) = bytes.split_at(bytes.len() - without_path(bytes).len());
    match packet {
        [_, protocol, ..] if *protocol == PROTOCOL => path,
        _ => &[],
    }
}

/// Adds that the bytes of such a path come first, each with a space before it, and what becomes of them.
///
/// # Errors
///
/// An error if memory is refused.
pub fn add_path(text: &mut String, path: &[u8]) -> Result<(), AllocError> {
    let [first, others @ ..] = path else {
        return Ok(());
    };
    let (noun, verb) = if others.is_empty() {
        ("byte", "is")
    } else {
        ("bytes", "are")
    };
    write!(text, "the first {noun}, {first:02X}")?;
    for byte in others {
        write!(text, " {byte:02X}")?;
    }
    write!(text, ", {verb} a path that a router takes away")
}
