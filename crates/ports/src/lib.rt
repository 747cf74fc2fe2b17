//! The ports of a target, as threads serve them.
//!
//! A [`Port`] is a queue that one producer fills ([`Port::put`], and at the end [`Port::close`]). A [`Worker`] takes
//! from it in order, judges each packet, and hands the replies that are due to its [`Sink`] ([`work`]). [`serve`] has
//! all ports served, each in a thread of its own. What a worker takes is a beginning of what the producer put, in
//! order, each item once.
#![tactic(auto)]

mod gate;
mod item;
mod laws;
mod packet;
mod port;
mod serves;
mod sink;
mod starts;
mod worker;
mod works;

pub use gate::{Gate, NoGate};
pub use item::{Item, Log};
pub use laws::{
    workers_ask_once, workers_entries_are_all, workers_entries_follow,
    workers_programs_were_published, workers_publishes_are_all, workers_shares_count,
};
pub use port::{Full, MAX_CAPACITY, Port, PutPass, ServePass};
pub use serves::{ServeFault, serve};
pub use sink::{Replies, Sink, SinkFault};
pub use worker::{Report, Worker};
pub use works::work;
