//! The machine: what a BPF program does (RFC 9669), as a definition.
//!
//! The definitions are in `specs/`. `Words` has the arithmetic, `Memory` the regions, `State` what the machine
//! remembers, and `Helpers` the helpers. `Step` has what each instruction does, `Runs` whole runs, and `Sizes` which
//! maps a node may have. What other crates promise of programs is a statement about these.
#![tactic(auto)]

mod calls;
mod helpers;
mod kinds;
mod laws;
mod memory;
mod regions;
mod sizes;
mod values;
mod words;

pub use calls::{Call, Question};
pub use helpers::Helper;
pub use kinds::MapKind;
pub use laws::{
    halts_agree, numbers_fit, questions_are_answerable, questions_go_on, results_fit, runs_agree,
    runs_from_the_front, safe_comes_to_verdict, same_bytes, sizes_only_trap, steps_ask,
    steps_leave, steps_perform, stored_bytes_are_read,
};
pub use memory::loaded_value;
pub use regions::{Region, STACK_SIZE};
pub use sizes::{MAX_CELLS, MAX_MAPS, MapSizes, TooMany};
pub use values::Value;
pub use words::{
    alu_words, holds_words, low_part, modulus, negation, sign_extension, swapped_bytes, word,
};
