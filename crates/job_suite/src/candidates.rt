//! Packets that may be of a suite, before it is looked whether they meet their rows.

use crate::rows::SuiteRow;
use byteorder::{BigEndian, ByteOrder};
use rcrc::crc;
use spw::End;
use std::alloc::{AllocError, Global};

/// The instruction bits of the packet type of commands.
pub const COMMAND: u8 = 1;

/// Who asks: the initiator, and its key.
#[derive(Clone, Copy, Debug, PartialEq, Eq)]
pub struct SuiteInitiator {
    /// The initiator logical address.
    pub initiator: u8,
    /// The key.
    pub key: u8,
}

/// The fields of a packet's header, and what is wrong with the packet.
#[derive(Clone, Copy, Debug)]
pub struct Shape {
    /// The target logical address.
    pub target: u8,
    /// The protocol identifier.
    pub protocol: u8,
    /// The packet type, 0 to 3.
    pub kind: u8,
    /// The command code, 0 to 15.
    pub code: u8,
    /// The key.
    pub key: u8,
    /// How many words of four bytes the reply address has, 0 to 3.
    pub words: u8,
    /// The last byte of the reply address; its other bytes are zeros.
    pub path: u8,
    /// The initiator logical address.
    pub initiator: u8,
    /// The transaction identifier.
    pub transaction: u16,
    /// The extended address.
    pub extended: u8,
    /// The address.
    pub address: u32,
    /// The data length field, below 2²⁴.
    pub length: u32,
    /// The value that is xored onto the header CRC.
    pub header_error: u8,
    /// The value that is xored onto the data CRC.
    pub data_error: u8,
    /// How many bytes of the packet are kept, at most.
    pub keep: u16,
    /// How many bytes come after the packet.
    pub extra: u8,
    /// How the packet ends.
    pub end: End,
}

/// A packet that may be of a suite.
#[derive(Debug, Drop)]
pub struct Candidate {
    /// The row under which it is printed.
    pub row: SuiteRow,
    /// Its fields.
    pub shape: Shape,
    /// Its data, and those of a read-modify-write with their mask; `None` if no data come after its header.
    pub data: Option<Vec<u8>>,
}

impl Shape {
    /// The instruction byte.
    fn instruction(&self) -> u8 {
        (self.kind % 4) * 64 + (self.code % 16) * 4 + self.words % 4
    }

    /// Adds the reply address.
    fn push_path(&self, bytes: &mut Vec<u8>) -> Result<(), AllocError> {
        match self.words % 4 {
            0 => Ok(()),
            1 => bytes.extend_from_slice(&[0, 0, 0, self.path]),
            2 => bytes.extend_from_slice(&[0, 0, 0, 0, 0, 0, 0, self.path]),
            _ => bytes.extend_from_slice(&[0, 0, 0, 0, 0, 0, 0, 0, 0, 0, 0, self.path]),
        }
    }

    /// Adds what is between the reply address and the header's CRC.
    fn push_tail(&self, bytes: &mut Vec<u8>) -> Result<(), AllocError> {
        let mut transaction = [0; 2];
        BigEndian::write_u16(&mut transaction, self.transaction);
        let mut address = [0; 4];
        BigEndian::write_u32(&mut address, self.address);
        let mut length = [0; 3];
        BigEndian::write_u24(&mut length, self.length % 16_777_216);
        bytes.push(self.initiator)?;
        bytes.extend_from_slice(&transaction)?;
        bytes.push(self.extended)?;
        bytes.extend_from_slice(&address)?;
        bytes.extend_from_slice(&length)
    }

    /// The header with its CRC.
    ///
    /// # Errors
    ///
    /// An error if memory is refused.
    pub fn header(&self, alloc: Global) -> Result<Vec<u8>, AllocError> {
        let mut bytes = Vec::new(alloc);
        let front = [self.target, self.protocol, self.instruction(), self.key];
        bytes.extend_from_slice(&front)?;
        self.push_path(&mut bytes)?;
        self.push_tail(&mut bytes)?;
        let header_crc = crc(bytes.as_slice()) ^ self.header_error;
        bytes.push(header_crc)?;
        Ok(bytes)
    }

    /// Adds data with their CRC.
    fn push_data(&self, bytes: &mut Vec<u8>, data: &[u8]) -> Result<(), AllocError> {
        bytes.extend_from_slice(data)?;
        bytes.push(crc(data) ^ self.data_error)?;
        Ok(())
    }

    /// The bytes of the packet, with these data after its header.
    ///
    /// # Errors
    ///
    /// An error if memory is refused.
    pub fn bytes(&self, alloc: Global, data: &Option<Vec<u8>>) -> Result<Vec<u8>, AllocError> {
        let mut bytes = self.header(alloc)?;
        if let Some(data) = data {
            self.push_data(&mut bytes, data.as_slice())?;
        }
        for _ in 0..self.extra {
            bytes.push(0)?;
        }
        bytes.truncate(usize::from(self.keep));
        Ok(bytes)
    }

    /// Who asks.
    pub fn asker(&self) -> SuiteInitiator {
        SuiteInitiator {
            initiator: self.initiator,
            key: self.key,
        }
    }

    /// The same command of this one.
    pub fn asked_by(&self, asker: SuiteInitiator) -> Shape {
        let mut shape = *self;
        shape.initiator = asker.initiator;
        shape.key = asker.key;
        shape
    }
}
