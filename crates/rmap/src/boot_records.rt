//! The records of the boot window: the data of a control write, and the load result.

ghost use Rattle.std.specs.Prelude.{◌≡◌, IfSome, Some, length, slice_index};
ghost use Rattle.rmap.specs.BootRecords.{AreReadAs, control_bytes, control_of, load_result_bytes, load_result_of};

use byteorder::{BigEndian, ByteOrder};

/// The data of a control write.
#[derive(Clone, Copy, Debug)]
pub struct ControlData {
    /// The slot for the program.
    pub slot: u8,
    /// A byte that must be zero.
    pub zero: u8,
    /// How many bytes the image has, from the first byte of the staging.
    pub length: u16,
}

/// The byte at a place, or 0 past the end.
fn byte_at(bytes: &[u8], place: usize) -> u8
    ensures { result ≡ slice_index bytes.now place }
{
    bytes.get(place).copied().unwrap_or(0)
}

impl ControlData {
    /// Reads the data of a control write: the slot, a byte that must be zero, and the length of the image in two
    /// bytes. The more significant byte comes first. If bytes are missing, they count as zero. It reads no byte after
    /// the first four. If there are exactly four bytes, [`ControlData::bytes`] gives the same four.
    #[tactic(auto, using(crate::proofs::BootRecords::control_again))]
    pub fn read(bytes: &[u8]) -> ControlData
        ensures value { result ≡ control_of bytes.now }
        ensures again { length bytes.now ≡ 4 → control_bytes result ≡ bytes.now }
    {
        let length = BigEndian::read_u16(&[byte_at(bytes, 2), byte_at(bytes, 3)]);
        ControlData {
            slot: byte_at(bytes, 0),
            zero: byte_at(bytes, 1),
            length,
        }
    }

    /// The data of this control write: the slot, the byte that must be zero, and the length in two bytes, the most
    /// significant first. [`ControlData::read`] reads the same again, whatever follows.
    #[tactic(auto, using(crate::proofs::BootRecords::control_is_read))]
    pub fn bytes(self) -> [u8; 4]
        ensures value { result ≡ control_bytes self }
        ensures read { AreReadAs self result }
    {
        let mut bytes = [self.slot, self.zero, 0, 0];
        BigEndian::write_u16(&mut bytes[2..], self.length);
        bytes
    }
}

/// What the load register says of the last load of its port.
#[derive(Clone, Copy, Debug, PartialEq, Eq)]
pub struct LoadResult {
    /// The number of the refusal, or 0.
    pub code: u8,
    /// The slot of the image at which the verifier refused it, or 0.
    pub place: u16,
    /// The generation of the program that the load published, or 0.
    pub generation: u32,
}

impl LoadResult {
    /// The load result after a program is published with that generation.
    pub fn published(generation: u32) -> LoadResult
        ensures { result ≡ record { code = 0; place = 0; generation = generation } }
    {
        LoadResult {
            code: 0,
            place: 0,
            generation,
        }
    }

    /// Reads a load result: its code, a zero byte, its place in two bytes and its generation in four, the most
    /// significant first. It gives `None` if the second byte is not zero. [`LoadResult::bytes`] gives the same bytes
    /// again.
    #[tactic(auto, using(crate::proofs::BootRecords::result_again))]
    pub fn read(bytes: &[u8; 8]) -> Option<LoadResult>
        ensures value { result ≡ load_result_of bytes.now }
        ensures again { IfSome result (λ r. load_result_bytes r ≡ bytes.now) }
    {
        if bytes[1] != 0 {
            return None;
        }
        Some(LoadResult {
            code: bytes[0],
            place: BigEndian::read_u16(&bytes[2..]),
            generation: BigEndian::read_u32(&bytes[4..]),
        })
    }

    /// The eight bytes of a load result: its code, a zero byte, its place in two bytes and its generation in four.
    /// Each number has its most significant byte first. [`LoadResult::read`] reads them again.
    #[tactic(auto, using(crate::proofs::BootRecords::result_is_read))]
    pub fn bytes(self) -> [u8; 8]
        ensures value { result ≡ load_result_bytes self }
        ensures read { load_result_of result ≡ Some self }
    {
        let mut bytes = [self.code, 0, 0, 0, 0, 0, 0, 0];
        BigEndian::write_u16(&mut bytes[2..], self.place);
        BigEndian::write_u32(&mut bytes[4..], self.generation);
        bytes
    }
}
