//! The paths that are before the packets of lines.

ghost use Rattle.std.specs.Prelude.{◌≡◌};

use initiator::PacketForm;
use job_show::paths::{add_path, path_in_front};
use memchr::memmem;
use rmap::DiscardFault;
use spw::{Packet, first_word, read_part};
use std::alloc::{AllocError, Global};

/// The marker of a piece of a packet that goes on.
const GOES_ON: &str = "PART";

/// Which lines came whose packets are looked at: how many there were, and, by the bit of their number, which ports hold
/// pieces of a packet. Only the whole packet of one line is looked at, because what ends a packet may look like a path.
#[derive(Debug, Drop)]
pub struct LinePaths {
    number: usize,
    held: u32,
}

/// Whether the packet of some line may begin with a path. If it does, its first byte is below 32, so its first digit is
/// 0 or 1, which comes after a space.
pub fn may_have_paths(lines: &str) -> bool {
    let bytes = lines.as_bytes();
    memmem::find(bytes, b" 0").is_some() || memmem::find(bytes, b" 1").is_some()
}

/// Whether four characters of a line show that it has no piece, and no packet that begins with a path. These are a
/// digit, a space, a character above `1`, and at the end neither a space nor the last character of [`GOES_ON`].
fn is_passed(line: &str) -> bool {
    let [port, b' ', first, .., last] = line.as_bytes() else {
        return false;
    };
    port.is_ascii_digit() && *first > b'1' && *last != b'T' && *last != b' '
}

/// Whether a line may be one of a piece, or of a packet that begins with a path.
fn is_looked_at(line: &str) -> bool {
    if is_passed(line) {
        return false;
    }
    let Some((_port, rest)) = first_word(line) else {
        return false;
    };
    let rest = rest.trim();
    rest.starts_with('0') || rest.starts_with('1') || rest.ends_with(GOES_ON)
}

/// The path that is before a packet, which is discarded because of it. It has no bytes if there is no path.
fn path_before(packet: &Packet) -> &[u8] {
    match PacketForm::of(packet) {
        PacketForm::Discarded {
            discard_fault: DiscardFault::OtherProtocol { .. },
            ..
        } => path_in_front(packet.bytes()),
        _ => &[],
    }
}

impl LinePaths {
    /// No line came yet.
    pub fn new() -> LinePaths
        ensures number { result.number ≡ 0 }
        ensures held { result.held ≡ 0 }
    {
        LinePaths { number: 0, held: 0 }
    }

    /// The whole packet of a line, if it has one, and not the end of one.
    fn packet(&mut self, alloc: Global, line: &str) -> Option<Packet> {
        let Ok((port, bytes, mark)) = read_part(alloc, line) else {
            return None;
        };
        let bit = 1u32.checked_shl(u32::from(port)).unwrap_or(0);
        let is_end = self.held & bit != 0;
        let Some(end) = mark else {
            self.held |= bit;
            return None;
        };
        self.held &= !bit;
        if is_end {
            return None;
        }
        Packet::new(bytes, end).ok()
    }

    /// Takes the next line, and adds the path that is before its packet, if there is one: then the packet is discarded.
    /// Returns whether there is one.
    ///
    /// # Errors
    ///
    /// An error if memory is refused.
    pub fn take(
        &mut self,
        alloc: Global,
        line: &str,
        text: &mut String,
    ) -> Result<bool, AllocError> {
        self.number = self.number.saturating_add(1);
        if self.held == 0 && !is_looked_at(line) {
            return Ok(false);
        }
        let Some(packet) = self.packet(alloc, line) else {
            return Ok(false);
        };
        let path = path_before(&packet);
        if path.is_empty() {
            return Ok(false);
        }
        let number = self.number;
        write!(text, "    line {number}: ")?;
        add_path(text, path)?;
        text.push('\n')?;
        Ok(true)
    }
}
