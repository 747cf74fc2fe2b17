//! Where the bytes of a program are before it is published.

ghost use Rattle.std.specs.Prelude.{◌≡◌, ◌<◌, IfOk, length, replicate, slice_get, slice_set};
ghost use Rattle.node_programs.specs.Staged.{staged};

use rmap::STAGING_SIZE;
use std::alloc::{AllocError, Global};
use std::marker::Model;

/// How many bytes a staging has.
pub const STAGING_BYTES: usize = STAGING_SIZE as usize;

/// A port's staging: 16,384 bytes from address 0 on, and the result of its last load.
#[derive(Debug, Drop)]
pub struct Staging {
    bytes: Vec<u8>,
    result: [u8; 8],
}

impl Model for Staging {
    ghost use Rattle.std.specs.Prelude.{◌≡◌, length};
    ghost use Rattle.node_programs.specs.Staged.{Staged, staged};
    ghost use Rattle.node_programs.specs.declared.staging.TheConstants.{STAGING_BYTES};

    ghost Value = { Staged };

    ghost view = { λ s. staged s.bytes.items s.result };

    ghost invariant = { λ s. length s.bytes.items ≡ STAGING_BYTES };
}

/// This many zero bytes.
fn zeros(alloc: Global, size: usize) -> Result<Vec<u8>, AllocError>
    ensures { IfOk result (λ v. v.items ≡ replicate size 0) }
{
    vec![in alloc; 0; size]
}

impl Staging {
    ghost use Rattle.std.specs.Borrow.{sem};
    ghost use Rattle.node_programs.specs.Lending.{LendsBytes};

    /// A staging of zero bytes, with a load result of zeros.
    ///
    /// # Errors
    ///
    /// An error if memory is refused.
    pub fn new(alloc: Global) -> Result<Staging, AllocError>
        ensures { IfOk result (λ s. s ≡ staged (replicate STAGING_BYTES 0) (replicate 8 0)) }
    {
        Ok(Staging {
            bytes: zeros(alloc, STAGING_BYTES)?,
            result: [0; 8],
        })
    }

    /// The byte at an address, or `None` after the end.
    pub fn read(&self, address: u32) -> Option<u8>
        ensures { result ≡ slice_get self.now.bytes address }
    {
        self.bytes.get(address as usize).copied()
    }

    /// Writes a byte. The condition is an address below [`STAGING_BYTES`].
    pub fn write(&mut self, address: u32, byte: u8)
        requires { address < STAGING_BYTES }
        ensures { self.new ≡ staged (slice_set self.old.bytes address byte) self.old.load_result }
    {
        self.bytes[address as usize] = byte;
    }

    /// The bytes.
    pub fn bytes(&self) -> &[u8]
        ensures value { result.now ≡ self.now.bytes }
        ensures size { length result.now ≡ STAGING_BYTES }
    {
        &self.bytes
    }

    /// The bytes, to change them.
    pub fn bytes_mut(&mut self) -> &mut [u8]
        ensures* writes_back { sem 𝓛 (LendsBytes self.entry result) }
        ensures value { result.now ≡ self.old.bytes }
        ensures size { length result.now ≡ STAGING_BYTES }
    {
        &mut self.bytes
    }

    /// The result of the last load: eight zero bytes before the first.
    pub fn load_result(&self) -> [u8; 8]
        ensures { result ≡ self.now.load_result }
    {
        self.result
    }

    /// Sets the result of the last load.
    pub fn set_load_result(&mut self, loaded: [u8; 8])
        ensures { self.new ≡ staged self.old.bytes loaded }
    {
        self.result = loaded;
    }
}
