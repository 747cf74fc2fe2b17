//! Which program judges.

ghost use Rattle.std.specs.Prelude.{◌≡◌, IfOk};
ghost use Rattle.std.specs.Arc.{arc_value};

use bver::Accepted;
use std::alloc::AllocError;
use std::marker::Model;
use std::sync::Arc;

/// The program of a slot, with its generation.
#[derive(Drop)]
pub(crate) struct SlotVersion {
    pub program: Arc<Accepted>,
    pub generation: u32,
}

impl Model for SlotVersion {
    ghost use Rattle.std.specs.Arc.{arc_value};
    ghost use Rattle.bver.specs.Justified.{AcceptedValue};
    ghost use Rattle.std.specs.Prelude.{ℕ};

    ghost Value = { AcceptedValue × ℕ };

    ghost view = { λ s. (arc_value s.program, s.generation) };
}

impl SlotVersion {
    /// The program, with generation 0.
    ///
    /// # Errors
    ///
    /// `AllocError` if memory was refused.
    pub fn first(program: &Arc<Accepted>) -> Result<SlotVersion, AllocError>
        ensures { IfOk result (λ shown. shown ≡ (arc_value program.now, 0)) }
    {
        Ok(SlotVersion {
            program: Arc::try_clone(program)?,
            generation: 0,
        })
    }
}
