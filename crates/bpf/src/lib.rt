//! Images of BPF programs: a version, a budget, loops with their bounds, and the slots of the instructions.
//!
//! An [`Image`] is read from bytes by [`Image::read`] and keeps all limits of the format. Numbers of
//! several bytes are little-endian throughout.
#![tactic(auto)]

mod fault;
mod header;
mod image;
mod laws;
mod loops;
mod parts;
mod slots;
mod version;
mod weight;

pub use bpf_insn;
pub use fault::ImageFault;
pub use header::{MAX_BUDGET, MAX_LOOPS, MAX_SLOTS, is_budget};
pub use image::Image;
pub use laws::image_laws;
pub use loops::{Loop, MAX_BOUND};
pub use version::Version;
pub use weight::times;
