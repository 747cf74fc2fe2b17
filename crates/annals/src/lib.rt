//! The annals of a node: one history of all that was done at its banks and of what was published, in order.
//!
//! Each bank has a [`Chain`] in it. A [`Kept`] bank is one with its chain, as a lock guards it. Only who has the lock
//! can add to the chain, and the bank's memory is the replay of it. One chain more has the publishes of programs
//! ([`Chain::publish`]). What a port knows of the history is its [`Front`], and a [`Beginning`] is what was seen of it.
//!
//! Each port has a [`Line`] in it. It asks there for each entry before a bank has it, and for each publish before it is
//! one. So nobody else can have entries or publishes of the port. The instrument's line asks for all that no command
//! does. So nobody without it sets memory, takes a journal, or publishes.
//!
//! The history exists only in proofs. At run time a chain is one word, and a front is nothing.
#![tactic(auto)]

mod beginning;
mod chains;
mod deed;
mod kept;
mod laws;
mod line;
mod published_count;
mod publishes;

pub use beginning::Beginning;
pub use chains::{Chain, EmptyHistory, Family, Front};
pub use deed::{Act, Deed, HistoryEntry};
pub use kept::Kept;
pub use laws::{acts_grow, loads_are_apart, publishes_grow, share_one_history};
pub use line::Line;
pub use published_count::PublishedCount;
pub use publishes::BANK_CHAINS;
