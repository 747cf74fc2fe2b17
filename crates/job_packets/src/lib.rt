//! The job of `rmapctl` that makes packet lines of words.
#![tactic(auto)]

pub mod hex_words;
pub mod loads;
pub mod made_packets;
pub mod numbers;
pub mod orders;
pub mod packet;
pub mod packet_options;
pub mod requests;
pub mod slips;
