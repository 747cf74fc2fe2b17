//! What holds the programs of a node.

ghost use Rattle.std.specs.Prelude.{◌≡◌, ◌<◌, ◌≤◌, ◌^◌, IfErr, IfOk, List, OnErr, OnOk, length};
ghost use mathlib.Core.List.{IsPrefix};
ghost use Rattle.node_programs.specs.Codes.{IsUnpublished};
ghost use Rattle.node_programs.specs.Histories.{entry, longer_history};
ghost use Rattle.node_programs.specs.Published.{sizes_of};
ghost use Rattle.node_programs.specs.declared.publishes.Publish.{Publish};

use crate::faults::PublishFault;
use bver::{Accepted, MapSizes};
use std::alloc::Global;

/// What holds the programs of a node, for a port that knows a beginning of what was published by a `K`. Holders differ
/// in how their list grows, and in how a port comes to know of it: what is shown to its next command.
pub trait ProgramStore<K> {
    /// The list of what was published.
    ghost published: { Self → List Publish };

    /// What a port knows of it.
    ghost known: { K → List Publish };

    /// What becomes of what a port has, if it published that.
    ghost notes: { K → Publish → K → Type 0 };

    /// The maps for which each program was accepted, with their kinds: those of the factory program.
    fn sizes(&self) -> MapSizes
        ensures { result ≡ sizes_of (published self.now) };

    /// Publishes a program for a slot, and gives its generation. The port then knows of it. The conditions are a slot
    /// below 4, and a program that was accepted for the maps of the node. The port must know a beginning of the list.
    ///
    /// # Errors
    ///
    /// `GenerationsFull` after 4,294,967,295 publishes, else `Memory` if memory was refused. What is published and what
    /// the port has stay.
    fn publish(
        &mut self,
        alloc: Global,
        reader: &mut K,
        slot: u8,
        program: Accepted,
    ) -> Result<u32, PublishFault>
        requires slot { slot ≤ 3 }
        requires sizes { program.sizes ≡ sizes_of (published self.old) }
        requires begins { IsPrefix (known reader.old) (published self.old) }
        ensures published { OnOk result
            (published self.new ≡ longer_history (published self.old) slot program) }
        ensures generation { IfOk result (λ n. n ≡ length (published self.old)) }
        ensures learnt { OnOk result (known reader.new ≡ published self.new) }
        ensures noted { OnOk result (notes reader.old (entry slot program) reader.new) }
        ensures same { OnErr result
            ((published self.new ≡ published self.old) × (reader.new ≡ reader.old)) }
        ensures refused { IfErr result (IsUnpublished (length (published self.old))) }
        ensures fewer { OnOk result (length (published self.old) < 2 ^ 32) };
}
