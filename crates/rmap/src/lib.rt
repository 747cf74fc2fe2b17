//! RMAP commands, the checks that need no program, and replies (ECSS-E-ST-50-52C).
//!
//! - A [`Command`] is a view of a packet's bytes.
//! - [`header_fault`] has the checks before the application's verdict, and [`body_fault`] those after it.
//! - [`header_check`] and [`body_check`] are the same with what they found.
//! - [`put_reply`] writes the reply.
#![tactic(auto)]

mod body_faults;
mod boot;
mod boot_records;
mod checks;
mod command;
mod discard;
pub mod field;
mod header_faults;
mod instruction;
mod kind;
mod laws;
mod places;
mod reply;
mod status;
mod verdict;
mod windows;

pub use body_faults::BodyFault;
pub use boot::{
    BOOT_WINDOW, CONTROL_SIZE, LAST_SLOT, LOAD_REGISTER, LOAD_RESULT_SIZE, STAGING_SIZE,
};
pub use boot_records::{ControlData, LoadResult};
pub use checks::{
    MAX_DATA, VERIFY_BUFFER, body_check, body_fault, checked_place, content_check, header_check,
    header_fault, place,
};
pub use command::{Command, PROTOCOL};
pub use discard::{Discard, DiscardFault};
pub use header_faults::{HeaderFault, NoPlace};
pub use instruction::{
    INCREMENT_BIT, Instruction, READ_BITS, READ_MASK, RMW_BITS, RMW_MASK, WRITE_BITS, WRITE_MASK,
};
pub use kind::Kind;
pub use laws::{
    command_is_unique, commands_are_laid_out, discard_is_exact, long_packet_is_cut,
    masks_give_kinds, replies_are_short,
};
pub use places::Place;
pub use reply::{MAX_REPLY, ReplyBuf, put_reply};
pub use status::Status;
pub use verdict::Verdict;
pub use windows::{MAX_BANKS, Windows};
