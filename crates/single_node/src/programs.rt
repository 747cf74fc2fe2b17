//! The programs that judge, by slot.

ghost use Rattle.std.specs.Prelude.{◌≡◌, ◌<◌, ◌≤◌, ◌+◌, ◌^◌, IfErr, IfOk, OnErr, OnOk, Some, length};
ghost use Rattle.bver.specs.Justified.{AcceptedValue, IsJustified};
ghost use Rattle.node_programs.specs.Histories.{longer_history};
ghost use Rattle.node_programs.specs.Published.{judging_program, program_at, sizes_of};
ghost use Rattle.node_programs.specs.Codes.{IsUnpublished};
ghost use Rattle.node_parts.specs.Nodes.{first_programs};

use crate::lists::ProgramList;
use crate::owned::{hold, name_slot, own_program, renew_own};
use crate::places::{Placed, first_slots, free_place, own_place, placed_at, set_place};
use crate::publishing::Publishing;
use bver::{Accepted, MapSizes};
use node_programs::{ProgramStore, PublishFault, published_programs};
use std::alloc::{AllocError, Global};
use std::marker::Model;

/// The most programs that a node owns: one for each slot.
const MOST: usize = 4;

/// The programs of a node, which of them each slot has, and how many were loaded. A program that several slots have is
/// there once. Contracts see the list of what was published.
#[derive(Drop)]
pub(crate) struct SlotPrograms {
    programs: Vec<Publishing>,
    slots: [Placed; 4],
    count: u32,
    sizes: MapSizes,
    list: ProgramList,
}

impl Model for SlotPrograms {
    ghost use Rattle.std.specs.Prelude.{List};
    ghost use Rattle.node_programs.specs.declared.publishes.Publish.{Publish};
    ghost use Rattle.single_node.specs.Slots.{ArePlaced};

    ghost Value = { List Publish };

    ghost view = { λ p. p.list };

    ghost invariant = { λ p. ArePlaced p.list p.programs.items p.slots p.count p.sizes };
}

impl SlotPrograms {
    /// The programs of a fresh node: the factory program in each slot. There is room for one of each slot, so that
    /// publishing asks for no memory.
    ///
    /// # Errors
    ///
    /// `AllocError` if memory was refused.
    pub fn first(alloc: Global, factory: Accepted) -> Result<SlotPrograms, AllocError>
        ensures { IfOk result (λ programs. programs ≡ first_programs factory) }
    {
        let sizes = factory.sizes();
        let mut programs = Vec::with_capacity(alloc, MOST)?;
        let factory = Publishing {
            slot: 0,
            program: factory,
        };
        let list = ProgramList::first(&factory);
        programs.push(factory)?;
        Ok(SlotPrograms {
            programs,
            slots: first_slots(),
            count: 0,
            sizes,
            list,
        })
    }

    /// The maps for which each program was accepted, with their kinds: those of the factory program.
    pub fn sizes(&self) -> MapSizes
        ensures { result ≡ sizes_of self.now }
    {
        self.sizes
    }

    /// How many programs were loaded.
    pub fn loaded(&self) -> u32
        ensures { result + 1 ≡ length self.now }
    {
        self.count
    }

    /// The list of what was published, for proofs.
    pub fn list(&self) -> ProgramList
        ensures list { result ≡ self.now }
        ensures some { 0 < length self.now }
    {
        self.list.again()
    }

    /// The program of a slot, the last that was published for it, and its generation. The condition is a slot below 4.
    pub fn shown(&self, slot: u8) -> (&Accepted, u32)
        requires { slot < 4 }
        ensures value { judging_program self.now slot ≡ Some (result.0.now, result.1) }
        ensures sizes { result.0.now.sizes ≡ sizes_of self.now }
        ensures justified { IsJustified result.0.now.program result.0.now.sizes }
    {
        let generation = placed_at(&self.slots, slot).generation;
        let place = own_place(&self.programs, &self.slots, slot);
        let own = own_program(&self.programs, place);
        let _justified = own.program.image();
        (&own.program, generation)
    }

    /// Makes the operations of the program of a slot again, in their own memory, from its image. The condition is a
    /// slot below 4.
    pub fn renew(&mut self, slot: u8)
        requires { slot < 4 }
        ensures { self.new ≡ self.old }
    {
        let place = own_place(&self.programs, &self.slots, slot);
        renew_own(&mut self.programs, place);
    }

    /// Publishes a program for a slot, and gives its generation. It takes the place of one that no slot has then. The
    /// conditions are a slot below 4, and a program that was accepted for the maps of the node.
    ///
    /// # Errors
    ///
    /// - `GenerationsFull` after 4,294,967,295 publishes.
    /// - Else `Memory` if memory was refused.
    ///
    /// What is published stays.
    pub fn install(&mut self, slot: u8, program: Accepted) -> Result<u32, PublishFault>
        requires slot { slot ≤ 3 }
        requires sizes { program.sizes ≡ sizes_of self.old }
        ensures published { OnOk result (self.new ≡ longer_history self.old slot program) }
        ensures generation { IfOk result (λ n. n ≡ length self.old) }
        ensures same { OnErr result (self.new ≡ self.old) }
        ensures refused { IfErr result (IsUnpublished (length self.old)) }
        ensures fewer { OnOk result (length self.old < 2 ^ 32) }
    {
        if self.count == u32::MAX {
            return Err(PublishFault::GenerationsFull);
        }
        published_programs();
        let next = Publishing { slot, program };
        let list = self.list.with(&next);
        let place = free_place(&self.programs, &self.slots, slot);
        hold(&mut self.programs, place, next)?;
        let generation = self.count + 1;
        set_place(&mut self.slots, slot, place, generation);
        self.list = list;
        self.count = generation;
        Ok(generation)
    }

    /// Publishes the program of a slot for it once more, and gives its generation. The condition is a slot below 4.
    ///
    /// # Errors
    ///
    /// `GenerationsFull` after 4,294,967,295 publishes. What is published stays.
    pub fn publish_again(&mut self, slot: u8) -> Result<u32, PublishFault>
        requires { slot < 4 }
        ensures published { OnOk result ((program : AcceptedValue)
            → program_at self.old slot ≡ Some program
            → self.new ≡ longer_history self.old slot program) }
        ensures generation { IfOk result (λ n. n ≡ length self.old) }
        ensures same { OnErr result (self.new ≡ self.old) }
        ensures refused { OnErr result (2 ^ 32 ≤ length self.old) }
    {
        if self.count == u32::MAX {
            return Err(PublishFault::GenerationsFull);
        }
        published_programs();
        let place = own_place(&self.programs, &self.slots, slot);
        name_slot(&mut self.programs, place, slot);
        let list = self.list.with(own_program(&self.programs, place));
        let next = self.count + 1;
        set_place(&mut self.slots, slot, place, next);
        self.list = list;
        self.count = next;
        Ok(next)
    }
}

/// What is published grows by [`SlotPrograms::install`], and the port then knows of all of it.
impl ProgramStore<ProgramList> for SlotPrograms {
    ghost published = { λ p. p };

    ghost known = { λ l. l };

    ghost notes = { λ old publish new. Unit {0} };

    fn sizes(&self) -> MapSizes {
        self.sizes
    }

    fn publish(
        &mut self,
        _alloc: Global,
        reader: &mut ProgramList,
        slot: u8,
        program: Accepted,
    ) -> Result<u32, PublishFault> {
        let generation = self.install(slot, program)?;
        *reader = self.list();
        Ok(generation)
    }
}
