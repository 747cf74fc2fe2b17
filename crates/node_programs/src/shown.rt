//! What a slot shows.

ghost use Rattle.std.specs.Prelude.{◌≡◌, IfOk};
ghost use Rattle.std.specs.Arc.{arc_value};
ghost use Rattle.bver.specs.Justified.{IsJustified};

use bver::Accepted;
use std::alloc::AllocError;
use std::marker::Model;
use std::sync::Arc;

/// The program of a slot, with its generation: its place in the list of what was published.
#[derive(Drop)]
pub struct ProgramVersion {
    program: Arc<Accepted>,
    generation: u32,
}

impl Model for ProgramVersion {
    ghost use Rattle.std.specs.Prelude.{ℕ};
    ghost use Rattle.std.specs.Arc.{arc_value};
    ghost use Rattle.bver.specs.Justified.{AcceptedValue};

    ghost Value = { AcceptedValue × ℕ };

    ghost view = { λ s. (arc_value s.program, s.generation) };
}

impl ProgramVersion {
    /// That program, with that generation.
    pub fn new(program: Arc<Accepted>, generation: u32) -> ProgramVersion
        ensures { result ≡ (arc_value program, generation) }
    {
        ProgramVersion {
            program,
            generation,
        }
    }

    /// Another owner of the program, with generation 0.
    ///
    /// # Errors
    ///
    /// An error if memory is refused.
    pub fn first(program: &Arc<Accepted>) -> Result<ProgramVersion, AllocError>
        ensures { IfOk result (λ shown. shown ≡ (arc_value program.now, 0)) }
    {
        Ok(ProgramVersion {
            program: Arc::try_clone(program)?,
            generation: 0,
        })
    }

    /// Another owner of the same program.
    ///
    /// # Errors
    ///
    /// An error if memory is refused.
    pub fn another(&self) -> Result<ProgramVersion, AllocError>
        ensures { IfOk result (λ shown. shown ≡ self.now) }
    {
        Ok(ProgramVersion {
            program: Arc::try_clone(&self.program)?,
            generation: self.generation,
        })
    }

    /// The program.
    pub fn program(&self) -> &Accepted
        ensures value { result.now ≡ self.now.0 }
        ensures justified { IsJustified self.now.0.program self.now.0.sizes }
    {
        let program: &Accepted = &self.program;
        let _justified = program.image();
        program
    }

    /// Its generation.
    pub fn generation(&self) -> u32
        ensures { result ≡ self.now.1 }
    {
        self.generation
    }
}
