//! The words of a row: kinds, three sets of bytes, addresses and ports. The crates below decide what they are. The
//! cases hold how they are written.

use byteorder::{BigEndian, ByteOrder};
use chart_lines::{PORTS, RowContent};
use regions::{ByteSet, Kinds, PointRegion, Stretch};
use std::alloc::{AllocError, Global};

/// The address after the last.
const END: u64 = 1 << 32;

/// The word for kinds.
pub fn kinds_word(kinds: Kinds) -> &'static str {
    match (kinds.read, kinds.write, kinds.rmw) {
        (true, true, true) => "any",
        (true, true, false) => "read,write",
        (true, false, true) => "read,rmw",
        (true, false, false) => "read",
        (false, true, true) => "write,rmw",
        (false, true, false) => "write",
        (false, false, true) => "rmw",
        (false, false, false) => "none",
    }
}

/// The bytes that are of a set, or else those that are not, from the least on.
fn bytes_of(alloc: Global, set: &ByteSet, of: bool) -> Result<Vec<u8>, AllocError> {
    let mut bytes = Vec::new(alloc);
    for byte in 0..256u16 {
        if set.has(byte as u8) == of {
            bytes.push(byte as u8)?;
        }
    }
    Ok(bytes)
}

/// Adds bytes with commas between them.
fn add_bytes(text: &mut String, alloc: Global, bytes: &[u8]) -> Result<(), AllocError> {
    let mut between = "";
    for byte in bytes {
        let digits = hex::encode_upper(alloc, &[*byte])?;
        write!(text, "{between}{digits}")?;
        between = ",";
    }
    Ok(())
}

/// Adds the word for a set of bytes. It is `*` for all, and else the bytes that are of the set. If those are most, it
/// is `!` and the bytes that are not.
///
/// # Errors
///
/// An error if memory is refused.
pub fn add_set(text: &mut String, alloc: Global, set: &ByteSet) -> Result<(), AllocError> {
    let beside = bytes_of(alloc, set, false)?;
    if beside.is_empty() {
        return text.push_str("*");
    }
    if beside.len() < 128 {
        text.push_str("!")?;
        return add_bytes(text, alloc, beside.as_slice());
    }
    let bytes = bytes_of(alloc, set, true)?;
    add_bytes(text, alloc, bytes.as_slice())
}

/// Adds an address, or the last if it is past that.
fn add_address(text: &mut String, alloc: Global, address: u64) -> Result<(), AllocError> {
    let mut bytes = [0; 4];
    BigEndian::write_u32(&mut bytes, address.min(END - 1) as u32);
    let digits = hex::encode_upper(alloc, &bytes)?;
    text.push_str(digits.as_str())
}

/// Adds the first and the last address of a stretch.
fn add_range(text: &mut String, alloc: Global, range: Stretch) -> Result<(), AllocError> {
    add_address(text, alloc, range.start)?;
    text.push_str("-")?;
    add_address(text, alloc, range.end.saturating_sub(1))
}

/// Whether a stretch has all addresses.
fn is_whole(range: Stretch) -> bool {
    range.start == 0 && range.end == END
}

/// Adds the word for first and last addresses of commands.
fn add_span(
    text: &mut String,
    alloc: Global,
    first: Stretch,
    last: Stretch,
) -> Result<(), AllocError> {
    if is_whole(first) && is_whole(last) {
        return text.push_str("*");
    }
    add_range(text, alloc, first)?;
    if first.start == last.start && first.end == last.end {
        return Ok(());
    }
    text.push_str("/")?;
    if last.start == first.start && last.end == END {
        return text.push_str("*");
    }
    add_range(text, alloc, last)
}

/// Adds the word for the addresses of a row: `else` for the rest of those that are asked of.
fn add_addresses(
    text: &mut String,
    alloc: Global,
    rest: bool,
    region: &PointRegion,
) -> Result<(), AllocError> {
    if rest {
        return text.push_str("else");
    }
    add_span(text, alloc, region.first, region.last)
}

/// Adds the five words of a row, with this between them.
///
/// # Errors
///
/// An error if memory is refused.
pub fn add_words(
    text: &mut String,
    alloc: Global,
    reported: &RowContent,
    between: &str,
) -> Result<(), AllocError> {
    let region = reported.region();
    text.push_str(kinds_word(region.kinds))?;
    text.push_str(between)?;
    add_set(text, alloc, &region.keys)?;
    text.push_str(between)?;
    add_set(text, alloc, &region.initiators)?;
    text.push_str(between)?;
    add_set(text, alloc, &region.extended)?;
    text.push_str(between)?;
    add_addresses(text, alloc, reported.is_rest(), region)
}

/// The ports that are among these, or else those that are not, from the least on.
fn ports_of(alloc: Global, ports: &[u8], of: bool) -> Result<Vec<u8>, AllocError> {
    let mut found = Vec::new(alloc);
    for port in 0..PORTS {
        if ports.contains(&port) == of {
            found.push(port)?;
        }
    }
    Ok(found)
}

/// Adds numbers with commas between them.
fn add_numbers(text: &mut String, numbers: &[u8]) -> Result<(), AllocError> {
    let mut between = "";
    for number in numbers {
        write!(text, "{between}{number}")?;
        between = ",";
    }
    Ok(())
}

/// Adds the word for ports: `*` for all; those; or if those are most, `!` and the others.
///
/// # Errors
///
/// An error if memory is refused.
pub fn add_ports(text: &mut String, alloc: Global, ports: &[u8]) -> Result<(), AllocError> {
    let beside = ports_of(alloc, ports, false)?;
    if beside.is_empty() {
        return text.push_str("*");
    }
    if beside.len() < usize::from(PORTS) / 2 {
        text.push_str("!")?;
        return add_numbers(text, beside.as_slice());
    }
    let own = ports_of(alloc, ports, true)?;
    add_numbers(text, own.as_slice())
}
