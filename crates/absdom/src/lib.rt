//! What the verifier knows of a program's registers and stack at a slot (RFC 9669; the abstract states are a choice
//! of this project).
//!
//! A [`State`] has a kind for each register, and a mark for each byte of the stack that is set. It has a range for
//! each word of eight bytes. It changes in place. [`State::apply`] does what an instruction does to it, or says why
//! the instruction is refused. A [`Spill`] says whether numbers on the stack keep their ranges. [`refine`] gives the
//! ranges on the two edges of a comparison.
//!
//! The definitions are in `specs/`. `Kinds` has the kinds and their order, and `Effect` what an instruction does to
//! all that is known. `Fits` says which states of the machine fit a state, and `Laws` what holds of all this.
#![tactic(auto)]

mod access;
mod arithmetic;
mod cause;
mod edges;
mod effect;
mod kinds;
mod laws;
mod offsets;
mod state;

pub use absdom_num::{Edges, Operands};
pub use absdom_stack::Spill;
pub use cause::Cause;
pub use edges::refine;
pub use kinds::AbsKind;
pub use laws::{
    after_call_fits, after_call_grows, apply_fits, apply_grows, apply_leaves, entry_fits,
    forgets_all, join_is_least, order_of_states, refine_fits, refine_grows, refine_shrinks,
};
pub use machine::Region;
pub use offsets::Offsets;
pub use state::State;
