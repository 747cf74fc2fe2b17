//! What a register holds.

use crate::regions::Region;

/// What a register holds. A number knows that it is one, and a pointer knows its region.
#[derive(Clone, Copy, Debug, PartialEq, Eq)]
pub enum Value {
    /// Nothing that an instruction may read.
    Unset,
    /// A number below 2^64.
    Num(u64),
    /// A pointer. It may have any whole offset, but only those inside the region can be read or written.
    Ptr { region: Region, offset: i128 },
    /// A map that the node has, by its index.
    Map(u8),
}
