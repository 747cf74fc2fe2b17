//! A plain interpreter that computes the definition of the machine step by step, and shows what each step changed.
//!
//! Every value is tagged with its kind, and every trap is reported. The interpreter is for reading beside RFC 9669
//! and for comparison, and is not fast: `brun` judges commands. `MachineValue` in `specs/` says what its steps do,
//! and `Endings` what its runs do.
#![tactic(auto)]

mod arithmetic;
mod deeds;
mod endings;
mod machines;
mod memory;
mod outcomes;

pub use endings::{RunEnd, run};
pub use machines::Machine;
pub use outcomes::StepOutcome;
