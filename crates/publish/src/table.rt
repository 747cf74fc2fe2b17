//! The table of programs that readers take.

ghost use Rattle.std.specs.Prelude.{◌≡◌, ◌<◌, ◌≤◌, ◌^◌, ◌∷◌, [], length, IfOk, Some};
ghost use Rattle.std.specs.Arc.{arc_value};
ghost use Rattle.node_programs.specs.Histories.{entry, longer_history};
ghost use Rattle.node_programs.specs.Published.{judging_program, sizes_of};

use crate::history::Front;
use bver::Accepted;
use left_right::Absorb;
use node_programs::{ProgramVersion, published_programs};
use std::alloc::AllocError;
use std::marker::Model;
use std::sync::Arc;

/// The same programs once more.
fn copied(slots: &[ProgramVersion; 4]) -> Result<[ProgramVersion; 4], AllocError>
    ensures { IfOk result (λ s. s ≡ slots.now) }
{
    let [reads, writes, rmws, window] = slots;
    Ok([
        reads.another()?,
        writes.another()?,
        rmws.another()?,
        window.another()?,
    ])
}

/// The programs that judge, and the history that says so.
#[derive(Drop)]
pub(crate) struct Table {
    slots: [ProgramVersion; 4],
    front: Front,
}

impl Model for Table {
    ghost use Rattle.publish.specs.Reached.{Reached};
    ghost use Rattle.publish.specs.Tables.{IsPublishedTable};

    ghost Value = { Reached };

    ghost view = { λ t. t.front };

    ghost invariant = { λ t. IsPublishedTable t.slots t.front.programs };
}

impl Table {
    /// The table of a history that has only the factory program.
    pub(crate) fn first(factory: Arc<Accepted>, front: Front) -> Result<Table, AllocError>
        requires { front.programs ≡ entry 0 (arc_value factory) ∷ [] }
        ensures { IfOk result (λ t. t ≡ front) }
    {
        let window = ProgramVersion::new(factory, 0);
        let slots = [
            window.another()?,
            window.another()?,
            window.another()?,
            window,
        ];
        Ok(Table { slots, front })
    }

    /// Shows one more program, which was published last.
    pub(crate) fn put(&mut self, slot: u8, program: Arc<Accepted>, front: Front)
        requires slot { slot < 4 }
        requires few { length self.old.programs < 2 ^ 32 }
        requires front { front.programs ≡ longer_history self.old.programs slot
            (arc_value program) }
        requires sizes { (arc_value program).sizes ≡ sizes_of self.old.programs }
        ensures { self.new ≡ front }
    {
        published_programs();
        let generation = self.front.len() as u32;
        self.slots[usize::from(slot)] = ProgramVersion::new(program, generation);
        self.front = front;
    }

    /// The table once more.
    pub(crate) fn copy(&self) -> Result<Table, AllocError>
        ensures { IfOk result (λ t. t ≡ self.now) }
    {
        Ok(Table {
            slots: copied(&self.slots)?,
            front: self.front.again(),
        })
    }

    /// How far its history goes.
    pub(crate) fn front(&self) -> &Front
        ensures value { result.now ≡ self.now }
        ensures some { 0 < length self.now.programs }
    {
        &self.front
    }

    /// The program of a slot.
    pub(crate) fn shown(&self, slot: u8) -> &ProgramVersion
        requires { slot < 4 }
        ensures value { judging_program self.now.programs slot ≡ Some result.now }
        ensures sizes { result.now.0.sizes ≡ sizes_of self.now.programs }
    {
        &self.slots[usize::from(slot)]
    }
}

impl Absorb<Table> for Table {
    type State = Table;

    ghost state = { λ t. t };

    ghost applied = { λ _ t. t };

    fn absorb_first(&mut self, operation: &Table, _other: &Table) -> Result<(), AllocError> {
        *self = operation.copy()?;
        Ok(())
    }

    fn absorb_second(&mut self, operation: Table, _other: &Table) -> Result<(), Table> {
        *self = operation;
        Ok(())
    }
}
