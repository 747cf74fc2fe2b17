//! What an initiator does with RMAP: it makes commands and reads replies (ECSS-E-ST-50-52C).
//!
//! - [`write_command`] makes a command of its fields.
//! - A [`Reply`] is a view of a reply's bytes. If they are none, [`NoReply`] says why.
//! - A load is its [`Request`]s: [`stage_request`] for each part of the image, [`control_request`] and
//!   [`result_request`].
//! - [`PacketForm`] says what a packet on the link is.
#![tactic(auto)]

mod codes;
mod laws;
mod loads;
mod no_reply;
mod packet_form;
mod reply_view;
mod requests;
mod write;

pub use codes::{RMW_CODE, read_code, rmw_code_is_its_own, write_code};
pub use laws::{
    load_packets_are_taken, made_commands_are_read, reply_is_unique, written_replies_are_read,
};
pub use loads::{PART_SIZE, control_body, control_request, part_of, result_request, stage_request};
pub use no_reply::NoReply;
pub use packet_form::PacketForm;
pub use reply_view::Reply;
pub use requests::Request;
pub use rmap::LAST_SLOT;
pub use write::{CommandFields, DATA_OVERHEAD, body_with_crc, write_command};
