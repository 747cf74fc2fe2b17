//! What makes the drafts of a suite: the fields that are drawn, and the list.

use crate::candidates::{COMMAND, Candidate, Shape, SuiteInitiator};
use crate::rows::SuiteRow;
use initiator::RMW_CODE;
use node_parts::BankConfig;
use rmap::PROTOCOL;
use spw::End;
use std::alloc::{AllocError, Global};

/// The code of reads with increment.
pub const READ: u8 = 0b0011;

/// The code of reads without increment.
pub const READ_ONE: u8 = 0b0010;

/// The code of writes with a reply and with increment.
pub const WRITE: u8 = 0b1011;

/// The code of the same without increment.
pub const WRITE_ONE: u8 = 0b1010;

/// The code of the same with increment and verified data.
pub const WRITE_VERIFIED: u8 = 0b1111;

/// The code of writes with increment and no reply.
pub const WRITE_SILENT: u8 = 0b1001;

/// The code of read-modify-writes.
pub const RMW: u8 = RMW_CODE;

/// The most bytes of a packet, which are all kept.
pub const ALL: u16 = u16::MAX;

/// A bank of the node, with its extended address.
#[derive(Clone, Copy, Debug)]
pub struct Area {
    /// The extended address.
    pub extended: u8,
    /// The address of the first byte.
    pub base: u32,
    /// How many bytes it has.
    pub size: u32,
}

impl Area {
    /// The bank of that number.
    pub fn of(extended: u8, bank: BankConfig) -> Area {
        Area {
            extended,
            base: bank.base,
            size: bank.size,
        }
    }

    /// The first address of the last bytes, at most as many as there are.
    pub fn last(&self, count: u32) -> u32 {
        let size = self.size;
        let front = size.saturating_sub(count);
        self.base.wrapping_add(front)
    }

    /// The address past the last.
    pub fn past(&self) -> u32 {
        self.base.wrapping_add(self.size)
    }
}

/// What makes drafts. The same seed draws the same.
#[derive(Debug, Drop)]
pub struct Maker {
    /// The drafts so far.
    pub candidates: Vec<Candidate>,
    /// The logical address of the node.
    pub target: u8,
    /// Who asks.
    pub asker: SuiteInitiator,
    transaction: u16,
    random: u64,
}

impl Maker {
    /// One without drafts.
    pub fn new(alloc: Global, target: u8, seed: u32) -> Maker {
        let mut maker = Maker {
            candidates: Vec::new(alloc),
            target,
            asker: SuiteInitiator {
                initiator: 0x67,
                key: 0,
            },
            transaction: 0,
            random: u64::from(seed),
        };
        maker.transaction = (maker.draw() % 65_536) as u16;
        maker.asker = SuiteInitiator {
            initiator: (32 + maker.draw() % 192) as u8,
            key: maker.draw_byte(),
        };
        maker
    }

    /// The next number that is drawn, of 32 bits.
    pub fn draw(&mut self) -> u32 {
        self.random = self
            .random
            .wrapping_mul(6_364_136_223_846_793_005)
            .wrapping_add(1_442_695_040_888_963_407);
        (self.random / 4_294_967_296) as u32
    }

    /// The next byte that is drawn.
    fn draw_byte(&mut self) -> u8 {
        (self.draw() % 256) as u8
    }

    /// The next number that is drawn, below this one; 0 if there is none.
    pub fn draw_below(&mut self, bound: u32) -> u32 {
        let drawn = self.draw();
        if bound == 0 { 0 } else { drawn % bound }
    }

    /// Some bytes that are drawn.
    ///
    /// # Errors
    ///
    /// An error if memory is refused.
    pub fn bytes(&mut self, alloc: Global, count: u32) -> Result<Vec<u8>, AllocError> {
        let mut bytes = Vec::new(alloc);
        for _ in 0..count {
            bytes.push(self.draw_byte())?;
        }
        Ok(bytes)
    }

    /// A command of that code.
    pub fn shape(&self, code: u8, extended: u8, address: u32, length: u32) -> Shape {
        Shape {
            target: self.target,
            protocol: PROTOCOL,
            kind: COMMAND,
            code,
            key: self.asker.key,
            words: 0,
            path: 0,
            initiator: self.asker.initiator,
            transaction: 0,
            extended,
            address,
            length,
            header_error: 0,
            data_error: 0,
            keep: ALL,
            extra: 0,
            end: End::Eop,
        }
    }

    /// Adds a draft, with the next transaction identifier.
    ///
    /// # Errors
    ///
    /// An error if memory is refused.
    pub fn push(
        &mut self,
        row: SuiteRow,
        mut shape: Shape,
        data: Option<Vec<u8>>,
    ) -> Result<(), AllocError> {
        shape.transaction = self.transaction;
        self.transaction = self.transaction.wrapping_add(1);
        self.candidates.push(Candidate { row, shape, data })?;
        Ok(())
    }

    /// Adds a draft without data after its header.
    ///
    /// # Errors
    ///
    /// An error if memory is refused.
    pub fn bare(&mut self, row: SuiteRow, shape: Shape) -> Result<(), AllocError> {
        self.push(row, shape, None)
    }

    /// Adds a draft with as many data as its length says, at most 4,097.
    ///
    /// # Errors
    ///
    /// An error if memory is refused.
    pub fn full(&mut self, alloc: Global, row: SuiteRow, shape: Shape) -> Result<(), AllocError> {
        let data = self.bytes(alloc, shape.length.min(4097))?;
        self.push(row, shape, Some(data))
    }

    /// Adds a draft with data if its code carries them.
    ///
    /// # Errors
    ///
    /// An error if memory is refused.
    pub fn put(&mut self, alloc: Global, row: SuiteRow, shape: Shape) -> Result<(), AllocError> {
        if shape.code >= 8 || shape.code == RMW {
            self.full(alloc, row, shape)
        } else {
            self.bare(row, shape)
        }
    }

    /// The drafts.
    pub fn into_candidates(self) -> Vec<Candidate> {
        self.candidates
    }
}
