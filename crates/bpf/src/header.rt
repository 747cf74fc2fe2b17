//! The first 16 bytes of an image.

ghost use Rattle.std.specs.Prelude.{◌≡◌, ◌≤◌, ◌↔◌, IsTrue, slice_index, length, take, drop, IfOk};
ghost use Rattle.bpf.specs.Program.{IsBudget};
ghost use Rattle.bpf.specs.Reading.{HasLimits, bytes_of_header, counts_reading, declared_header, header_reading, is_budget, is_count, version_reading};
ghost use Rattle.bpf.specs.Version.{version_number};

use crate::fault::ImageFault;
use crate::version::Version;

const MAGIC: [u8; 4] = *b"BPFA";
/// The most loops of an image.
pub const MAX_LOOPS: usize = 8;
/// The most slots of an image.
pub const MAX_SLOTS: u16 = 512;
/// The greatest budget of an image.
pub const MAX_BUDGET: u32 = 65_536;

/// What an image declares in its first 16 bytes, in the limits of the format.
#[derive(Clone, Copy)]
pub struct ImageHeader {
    pub version: Version,
    pub loops: u8,
    pub slots: u16,
    pub budget: u32,
}

impl ImageHeader {
    /// The header of this version, these counts and this budget.
    ///
    /// # Errors
    ///
    /// `Count` for the counts or the reserved word, else `Budget`.
    pub fn new(
        version: Version,
        loops: usize,
        slots: usize,
        reserved: u32,
        budget: u32,
    ) -> Result<ImageHeader, ImageFault>
        ensures value { result ≡ declared_header version loops slots reserved budget }
        ensures limits { IfOk result HasLimits }
    {
        if !is_count(loops, slots, reserved) {
            return Err(ImageFault::Count);
        }
        if !is_budget(budget) {
            return Err(ImageFault::Budget);
        }
        Ok(ImageHeader {
            version,
            loops: loops as u8,
            slots: slots as u16,
            budget,
        })
    }
}

/// The header of an image.
///
/// # Errors
///
/// The first of `Magic`, `Version`, `Length`, `Count` and `Budget`. `Length` if there are fewer than 16 bytes.
#[tactic(auto, unfolding(crate::specs::Reading::header_reading))]
pub fn read_header(bytes: &[u8]) -> Result<ImageHeader, ImageFault>
    ensures value { result ≡ header_reading bytes.now }
    ensures limits { IfOk result HasLimits }
    ensures spelled { IfOk result
        (λ h. take 16 bytes.now ≡ bytes_of_header h) }
{
    if !bytes.starts_with(&MAGIC) {
        return Err(ImageFault::Magic);
    }
    let version = read_version(bytes)?;
    if bytes.len() < 16 {
        return Err(ImageFault::Length);
    }
    read_counts(version, bytes)
}

/// The version in the fifth byte of an image.
#[tactic(auto, unfolding(crate::specs::Reading::version_reading))]
fn read_version(bytes: &[u8]) -> Result<Version, ImageFault>
    ensures value { result ≡ version_reading bytes.now }
    ensures spelled { IfOk result (λ version. slice_index bytes.now 4 ≡ version_number version) }
{
    if bytes.len() < 5 {
        return Err(ImageFault::Version);
    }
    Version::from_number(bytes[4]).ok_or(ImageFault::Version)
}

#[tactic(auto, unfolding(crate::specs::Reading::counts_reading))]
fn read_counts(version: Version, bytes: &[u8]) -> Result<ImageHeader, ImageFault>
    requires length { 16 ≤ length bytes.now }
    requires version { slice_index bytes.now 4 ≡ version_number version }
    ensures value { result ≡ counts_reading version bytes.now }
    ensures limits { IfOk result HasLimits }
    ensures spelled { IfOk result
        (λ h. drop 4 (take 16 bytes.now) ≡ drop 4 (bytes_of_header h)) }
{
    let loops = bytes[5];
    let slots = u16::from_le_bytes([bytes[6], bytes[7]]);
    let budget = u32::from_le_bytes([bytes[8], bytes[9], bytes[10], bytes[11]]);
    let reserved = u32::from_le_bytes([bytes[12], bytes[13], bytes[14], bytes[15]]);
    ImageHeader::new(
        version,
        usize::from(loops),
        usize::from(slots),
        reserved,
        budget,
    )
}

/// Whether the counts and the reserved word are those of an image.
fn is_count(loops: usize, slots: usize, reserved: u32) -> bool
    ensures { result ≡ is_count loops slots reserved }
{
    loops <= MAX_LOOPS && 1 <= slots && slots <= usize::from(MAX_SLOTS) && reserved == 0
}

/// Whether this is a budget of an image: 1 to 65,536.
pub fn is_budget(budget: u32) -> bool
    ensures value { result ≡ is_budget budget }
    ensures exact { IsTrue result ↔ IsBudget budget }
{
    1 <= budget && budget <= MAX_BUDGET
}

/// The bytes of the header.
pub fn header_bytes(header: &ImageHeader) -> [u8; 16]
    ensures { result ≡ bytes_of_header header.now }
{
    let [m0, m1, m2, m3] = MAGIC;
    let [s0, s1] = header.slots.to_le_bytes();
    let [b0, b1, b2, b3] = header.budget.to_le_bytes();
    let ImageHeader { version, loops, .. } = *header;
    let version = version.number();
    [
        m0, m1, m2, m3, version, loops, s0, s1, b0, b1, b2, b3, 0, 0, 0, 0,
    ]
}
