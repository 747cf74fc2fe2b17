//! Which bytes of a header a program reads, and with which numbers it may compare them.

use bpf::Image;
use bpf_insn::{AluOp, Insn, Operand};
use bver::Accepted;
use machine::Region;
use std::alloc::{AllocError, Global};

/// How many bytes of a header programs read: the first four, and the last twelve.
const BYTES: usize = 16;

/// How many registers there are.
const REGISTERS: usize = 11;

/// The place of the key among these bytes.
const KEY: usize = 3;

/// That of the initiator logical address.
const INITIATOR: usize = 4;

/// That of the address.
const ADDRESS: usize = 8;

/// That of the data length.
const LENGTH: usize = 12;

/// Which bytes of a header a program reads, and which registers lead it there.
#[derive(Clone, Copy, Debug)]
pub struct HeaderReads {
    bytes: [bool; BYTES],
    bases: [bool; REGISTERS],
}

/// The place of a region's first byte among those of a header; none for the stack.
fn start_of(region: Option<Region>) -> Option<usize> {
    match region {
        Some(Region::Front) => Some(0),
        Some(Region::Tail) => Some(4),
        Some(Region::Stack) | None => None,
    }
}

impl HeaderReads {
    /// None.
    fn none() -> HeaderReads {
        HeaderReads {
            bytes: [false; BYTES],
            bases: [false; REGISTERS],
        }
    }

    /// Notes this many bytes from a place on. It notes all bytes, if these are not all in a header.
    fn note(&mut self, place: usize, count: usize) {
        if count > BYTES || place > BYTES - count {
            self.bytes = [true; BYTES];
            return;
        }
        for number in 0..count {
            self.bytes[place + number] = true;
        }
    }

    /// Notes a load of this many bytes at an offset from that place on.
    fn note_load(&mut self, start: usize, offset: i16, count: usize) {
        if offset < 0 {
            self.bytes = [true; BYTES];
        } else {
            self.note(start.saturating_add(offset as usize), count);
        }
    }

    /// Notes the register that leads to a load.
    fn note_base(&mut self, register: u8) {
        let place = usize::from(register);
        if place < REGISTERS {
            self.bases[place] = true;
        }
    }

    /// Notes what an instruction loads, if it loads from that region.
    fn note_insn(&mut self, insn: Insn, region: Option<Region>) {
        if let Insn::Load { size, place, .. } = insn {
            if let Some(start) = start_of(region) {
                self.note_load(start, place.offset, size.bytes());
                self.note_base(place.base.number());
            }
        }
    }

    /// Notes all bytes, if an instruction moves a register that leads to a load.
    fn note_move(&mut self, insn: Insn) {
        if let Insn::Alu { op, dst, .. } = insn {
            let place = usize::from(dst.number());
            if op != AluOp::Mov && place < REGISTERS && self.bases[place] {
                self.bytes = [true; BYTES];
            }
        }
    }

    /// Which bytes a program reads.
    pub fn of(program: &Accepted) -> HeaderReads {
        let mut seen = HeaderReads::none();
        let slots = program.image().slots();
        for slot in 0..slots {
            if let Some(insn) = program.image().insn(slot) {
                seen.note_insn(insn, program.region(slot));
            }
        }
        for slot in 0..slots {
            if let Some(insn) = program.image().insn(slot) {
                seen.note_move(insn);
            }
        }
        seen
    }

    /// Whether the key is read.
    pub fn key(&self) -> bool {
        self.bytes[KEY]
    }

    /// Whether the initiator logical address is read.
    pub fn initiator(&self) -> bool {
        self.bytes[INITIATOR]
    }

    /// Whether a byte of the address is read.
    pub fn address(&self) -> bool {
        let bytes = &self.bytes;
        bytes[ADDRESS] || bytes[ADDRESS + 1] || bytes[ADDRESS + 2] || bytes[ADDRESS + 3]
    }

    /// Whether a byte of the data length is read.
    pub fn length(&self) -> bool {
        let bytes = &self.bytes;
        bytes[LENGTH] || bytes[LENGTH + 1] || bytes[LENGTH + 2]
    }
}

/// The number of an operand.
fn operand_number(operand: Operand) -> Option<u64> {
    match operand {
        Operand::Immediate(number) => Some(u64::from(number.cast_unsigned())),
        Operand::FromRegister(_) => None,
    }
}

/// The number that an instruction may compare a field with, or from which it may make such a number.
fn insn_number(insn: Insn) -> Option<u64> {
    match insn {
        Insn::Alu { src, .. } => operand_number(src),
        Insn::Jump { comparison, .. } => operand_number(comparison.src),
        Insn::Wide { value, .. } => Some(value),
        _ => None,
    }
}

/// The numbers of a program, in the order of its instructions.
///
/// # Errors
///
/// An error if memory is refused.
pub fn numbers_in(alloc: Global, image: &Image) -> Result<Vec<u64>, AllocError> {
    let mut numbers = Vec::new(alloc);
    for slot in 0..image.slots() {
        if let Some(insn) = image.insn(slot) {
            if let Some(number) = insn_number(insn) {
                numbers.push(number)?;
            }
        }
    }
    Ok(numbers)
}
