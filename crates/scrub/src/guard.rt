//! What is kept of a node's programs, and scrubs of them.

ghost use Rattle.std.specs.Prelude.{◌≡◌, ◌<◌, ◌≤◌, ◌==◌, ℕ, List, ◌&&◌, ◌^◌, IfErr, IfOk, None, OnErr, OnOk, Some, false, length, not, slice_get, true};
ghost use Rattle.node_programs.specs.Codes.{IsUnpublished};
ghost use Rattle.node_programs.specs.Published.{generation_at, sizes_of};
ghost use Rattle.node_programs.specs.declared.publishes.Publish.{Publish};
ghost use Rattle.rmap.specs.Command.{discard_of};
ghost use Rattle.single_node.specs.Nodes.{port_slot_in};
ghost use Rattle.scrub.specs.Counting.{agrees, counted, is_due, is_on, renewed};
ghost use Rattle.scrub.specs.Damage.{sizes_sum};
ghost use Rattle.scrub.specs.Guarded.{IsGuardOf, IsInstalled, IsLentTo, IsRemade, IsUnmended, LooksAtSlots, LooksAt, PublishesAs, Repairs, RepairsUnless, ScrubsFirst, ScrubsSlot, Scrubs, beside, health_at, health_by, scrubbing_each, with_all, with_counting, with_sums};
ghost use Rattle.scrub.specs.Kept.{AreFresh, AreGenerations, Follow, FollowAt, closed_in, is_withheld};

use crate::counting::Counting;
use crate::damage::sizes_sum;
use crate::kept::{SlotSums, is_closed_at, set_sums, sums_at};
use crate::made::{MendFault, lent_program};
use crate::op_sums::program_sum;
use bver::Accepted;
use node_programs::PublishFault;
use single_node::SingleNode;
use spw::Packet;
use std::alloc::Global;

/// How the program of a slot was found.
#[derive(Clone, Copy, Debug, PartialEq, Eq)]
pub enum Health {
    /// Its operations have the sum that was kept.
    Whole,
    /// They had not. They were made again from the program's own image, or from the one that is lent, and are published
    /// for the slot.
    Mended,
    /// They had not, and neither image has it, or no more programs can be published. The slot is withdrawn.
    Withdrawn,
    /// They had not, nor has the program's own image, and memory to read the one that is lent was refused. The slot is
    /// withdrawn until a later scrub.
    Unmended,
}

/// How the programs of the four slots were found.
#[derive(Clone, Copy, Debug, PartialEq, Eq)]
pub struct Scrubbed {
    /// The program for reads of banks, of slot 0.
    pub reads: Health,
    /// That for writes to banks, of slot 1.
    pub writes: Health,
    /// That for read-modify-writes of banks, of slot 2.
    pub rmws: Health,
    /// That for the boot window, of slot 3.
    pub window: Health,
}

/// Whether the program of each slot was found whole.
#[derive(Clone, Copy, Debug, PartialEq, Eq)]
pub struct SlotsFound {
    /// That of slot 0.
    pub reads: bool,
    /// That of slot 1.
    pub writes: bool,
    /// That of slot 2.
    pub rmws: bool,
    /// That of slot 3.
    pub window: bool,
}

/// What a scrub before a packet found.
#[derive(Clone, Copy, Debug, PartialEq, Eq)]
pub struct ScrubFindings {
    /// The slot whose program judges the packet: 0 to 3.
    pub slot: u8,
    /// How its program was found.
    pub health: Health,
}

/// What is kept of the programs of a node of one thread. Each call is lent that node. If a program is published there
/// in another way than by [`Guard::install`] or a load that [`GuardedNode::serve`] serves, it is taken for a damaged
/// one.
///
/// [`GuardedNode::serve`]: crate::GuardedNode::serve
#[derive(Clone, Copy, Debug, PartialEq, Eq)]
pub struct Guard {
    /// What is kept of each slot's program.
    pub sums: [SlotSums; 4],
    /// Before which packets a program is scrubbed.
    pub counting: Counting,
    /// The sum of the node's sizes, as it was opened.
    pub sizes: u64,
}

/// How the program of a slot was found. For a slot that does not exist it means nothing.
fn health_at(reported: Scrubbed, slot: u8) -> Health
    ensures { result ≡ health_at reported slot }
{
    match slot {
        0 => reported.reads,
        1 => reported.writes,
        2 => reported.rmws,
        _ => reported.window,
    }
}

/// How a slot is found if its program was not mended.
fn health_by(fault: MendFault) -> Health
    ensures { result ≡ health_by fault }
{
    match fault {
        MendFault::Memory => Health::Unmended,
        MendFault::Image | MendFault::Full => Health::Withdrawn,
    }
}

/// What is to be kept of the program that judges at a slot. The condition is a slot below 4.
fn fresh_at(node: &SingleNode, slot: u8) -> SlotSums
    requires { slot < 4 }
    ensures { AreFresh node.now.programs slot (Some result) }
{
    SlotSums::of(program_sum(node.program(slot)))
}

/// The generations of the programs that judge at the four slots.
pub(crate) fn generations(node: &SingleNode) -> [u32; 4]
    ensures { AreGenerations node.now.programs result }
{
    [
        node.generation(0),
        node.generation(1),
        node.generation(2),
        node.generation(3),
    ]
}

/// The generation at a slot. The condition is a slot below 4.
fn generation_of(generations: &[u32; 4], slot: u8) -> u32
    requires { slot < 4 }
    ensures { slice_get generations.now slot ≡ Some result }
{
    generations[usize::from(slot)]
}

/// What is to be kept of a slot after a packet. If its program has that generation, it is what was kept before. The
/// condition is a slot below 4.
fn followed_at(node: &SingleNode, slot: u8, generation: u32, kept: SlotSums) -> SlotSums
    requires { slot < 4 }
    ensures { (before : List Publish) → generation_at before slot ≡ Some generation
        → FollowAt before node.now.programs slot (Some kept) (Some result) }
{
    if node.generation(slot) == generation {
        return kept;
    }
    fresh_at(node, slot)
}

/// What is to be kept of the four slots after a packet. Before it their programs had those generations.
fn followed(node: &SingleNode, before: &[u32; 4], sums: &[SlotSums; 4]) -> [SlotSums; 4]
    ensures { (programs : List Publish) → AreGenerations programs before.now
        → Follow programs node.now.programs sums.now result }
{
    [
        followed_at(node, 0, generation_of(before, 0), sums_at(sums, 0)),
        followed_at(node, 1, generation_of(before, 1), sums_at(sums, 1)),
        followed_at(node, 2, generation_of(before, 2), sums_at(sums, 2)),
        followed_at(node, 3, generation_of(before, 3), sums_at(sums, 3)),
    ]
}

/// Whether no slot is withdrawn.
#[tactic(auto, using(crate::proofs::Four::none_closed))]
fn are_open(sums: &[SlotSums; 4]) -> bool
    ensures { result ≡ true → (slot : ℕ) → closed_in (slice_get sums.now slot) ≡ false }
{
    if is_closed_at(sums, 0) {
        return false;
    }
    if is_closed_at(sums, 1) {
        return false;
    }
    if is_closed_at(sums, 2) {
        return false;
    }
    !is_closed_at(sums, 3)
}

impl Guard {
    /// What is kept of a node's programs, each of which may judge. Before each `each`-th packet the program that judges
    /// it is scrubbed. If `each` is 0, none is.
    pub fn new(node: &SingleNode, each: u32) -> Guard
        ensures { IsGuardOf node.now each result }
    {
        Guard {
            sums: [
                fresh_at(node, 0),
                fresh_at(node, 1),
                fresh_at(node, 2),
                fresh_at(node, 3),
            ],
            counting: Counting::of(each, each),
            sizes: sizes_sum(node),
        }
    }

    /// Keeps these sums of the program of a slot.
    fn keep(&mut self, slot: u8, kept: SlotSums)
        requires { slot < 4 }
        ensures { self.new ≡ with_sums self.old slot kept }
    {
        set_sums(&mut self.sums, slot, kept);
    }

    /// Publishes a program for a slot, which may judge then, and gives its generation. The conditions are a slot below
    /// 4, and a program that was accepted for the maps of the node.
    ///
    /// # Errors
    ///
    /// Those of [`SingleNode::publish`]. The node is then as before.
    pub fn install(
        &mut self,
        node: &mut SingleNode,
        slot: u8,
        program: Accepted,
    ) -> Result<u32, PublishFault>
        requires slot { slot ≤ 3 }
        requires sizes { program.sizes ≡ sizes_of node.old.programs }
        ensures installed { OnOk result
            (IsInstalled slot program (beside self.old node.old) (beside self.new node.new)) }
        ensures generation { IfOk result (λ n. n ≡ length node.old.programs) }
        ensures same { OnErr result (beside self.new node.new ≡ beside self.old node.old) }
        ensures refused { IfErr result (IsUnpublished (length node.old.programs)) }
    {
        let sum = program_sum(&program);
        let generation = node.publish(slot, program)?;
        self.keep(slot, SlotSums::of(sum));
        Ok(generation)
    }

    /// Publishes the program of a slot for it once more, with that sum, and says whether it could be published.
    fn publish_renewed(&mut self, node: &mut SingleNode, slot: u8, sum: u64) -> bool
        requires { slot < 4 }
        ensures { PublishesAs result slot sum (beside self.old node.old) (beside self.new node.new) }
    {
        let _program = node.program(slot);
        match node.publish_again(slot) {
            Ok(_generation) => {
                self.keep(slot, SlotSums::of(sum));
                true
            }
            Err(_full) => false,
        }
    }

    /// Publishes the program of the image that is lent for a slot, if it has a sum that is kept.
    #[tactic(auto, using(crate::proofs::Mending::no_more))]
    fn publish_lent(
        &mut self,
        node: &mut SingleNode,
        alloc: Global,
        slot: u8,
        image: &[u8],
        kept: &SlotSums,
    ) -> Result<(), MendFault>
        requires { slot < 4 }
        ensures lent { OnOk result
            (IsLentTo slot image.now kept.now (beside self.old node.old) (beside self.new node.new)) }
        ensures same { OnErr result (beside self.new node.new ≡ beside self.old node.old) }
        ensures fault { IfErr result (IsUnmended image.now kept.now (beside self.old node.old)) }
    {
        let sizes = node.sizes();
        let (program, sum) = match lent_program(alloc, image, &sizes, kept) {
            Ok(made) => made,
            Err(fault) => return Err(fault),
        };
        match node.publish(slot, program) {
            Ok(_generation) => {
                self.keep(slot, SlotSums::of(sum));
                Ok(())
            }
            Err(PublishFault::GenerationsFull) => Err(MendFault::Full),
            Err(PublishFault::Memory | PublishFault::Slot) => Err(MendFault::Memory),
        }
    }

    /// Makes the program of a slot again from its own image, in its own memory. If it has then a sum that is kept, it
    /// is published for the slot once more. Else the program of the image that is lent is published, if that has one.
    #[tactic(auto, using(crate::proofs::Mending::published, crate::proofs::Mending::unpublished))]
    fn mend(
        &mut self,
        node: &mut SingleNode,
        alloc: Global,
        slot: u8,
        image: &[u8],
        kept: &SlotSums,
    ) -> Result<(), MendFault>
        requires { slot < 4 }
        ensures mended { OnOk result
            (IsRemade slot image.now kept.now (beside self.old node.old) (beside self.new node.new)) }
        ensures same { OnErr result (beside self.new node.new ≡ beside self.old node.old) }
        ensures fault { IfErr result (IsUnmended image.now kept.now (beside self.old node.old)) }
    {
        node.renew(slot);
        let again = program_sum(node.program(slot));
        if !kept.has(again) {
            self.publish_lent(node, alloc, slot, image, kept)?;
            return Ok(());
        }
        if self.publish_renewed(node, slot, again) {
            return Ok(());
        }
        Err(MendFault::Full)
    }

    /// From now on scrubs the program that judges a packet, before each `each`-th packet: 1 is each packet, 2 each
    /// second one. If `each` is 0, it scrubs before none.
    pub fn scrub_each(&mut self, each: u32)
        ensures { self.new ≡ scrubbing_each self.old each }
    {
        self.counting = Counting::of(each, each);
    }

    /// Whether the program of a slot has a sum that is kept, whether it was withdrawn before or not. If it has, it may
    /// judge, and both sums are then that one. The condition is a slot below 4.
    fn look(&mut self, node: &SingleNode, slot: u8) -> bool
        requires { slot < 4 }
        ensures { LooksAt result slot (beside self.old node.now) (beside self.new node.now) }
    {
        let kept = sums_at(&self.sums, slot);
        let sum = program_sum(node.program(slot));
        if kept.has(sum) {
            self.keep(slot, SlotSums::of(sum));
            return true;
        }
        false
    }

    /// Looks at the programs of the four slots, one after the other.
    fn look_at_all(&mut self, node: &SingleNode) -> SlotsFound
        ensures { LooksAtSlots result (beside self.old node.now) (beside self.new node.now) }
    {
        let reads = self.look(node, 0);
        let writes = self.look(node, 1);
        let rmws = self.look(node, 2);
        let window = self.look(node, 3);
        SlotsFound {
            reads,
            writes,
            rmws,
            window,
        }
    }

    /// Mends the program of a slot that was found damaged, or withdraws the slot. The condition is a slot below 4.
    #[tactic(auto, using(crate::proofs::Serving::remade_banks, crate::proofs::Serving::remade_ports, crate::proofs::Mending::repairs_by))]
    fn repair(&mut self, node: &mut SingleNode, alloc: Global, slot: u8, image: &[u8]) -> Health
        requires { slot < 4 }
        ensures repairs { Repairs result slot image.now (beside self.old node.old) (beside self.new node.new) }
        ensures banks { node.new.banks ≡ node.old.banks }
        ensures ports { node.new.passes ≡ node.old.passes }
    {
        let kept = sums_at(&self.sums, slot);
        match self.mend(node, alloc, slot, image, &kept) {
            Ok(()) => Health::Mended,
            Err(fault) => {
                self.keep(slot, kept.withdrawn());
                health_by(fault)
            }
        }
    }

    /// The same if it was found damaged. The condition is a slot below 4.
    #[tactic(auto, using(crate::proofs::Mending::repairs_none, crate::proofs::Mending::repairs_one))]
    fn repair_unless(
        &mut self,
        node: &mut SingleNode,
        alloc: Global,
        slot: u8,
        image: &[u8],
        is_whole: bool,
    ) -> Health
        requires { slot < 4 }
        ensures repairs { RepairsUnless is_whole result slot image.now
            (beside self.old node.old) (beside self.new node.new) }
        ensures banks { node.new.banks ≡ node.old.banks }
        ensures ports { node.new.passes ≡ node.old.passes }
    {
        if is_whole {
            return Health::Whole;
        }
        self.repair(node, alloc, slot, image)
    }

    /// Scrubs the programs of the four slots, whether they were withdrawn before or not. First it looks at all of them,
    /// and then mends each that is damaged, or withdraws its slot. So it mends a program that several slots have for
    /// each of them. It asks for memory only to read the image that is lent, and does that only if a program's own
    /// image is damaged, too.
    pub fn scrub(&mut self, node: &mut SingleNode, alloc: Global, image: &[u8]) -> Scrubbed
        ensures scrubs { Scrubs result image.now (beside self.old node.old) (beside self.new node.new) }
        ensures banks { node.new.banks ≡ node.old.banks }
        ensures ports { node.new.passes ≡ node.old.passes }
    {
        let seen = self.look_at_all(node);
        let reads = self.repair_unless(node, alloc, 0, image, seen.reads);
        let writes = self.repair_unless(node, alloc, 1, image, seen.writes);
        let rmws = self.repair_unless(node, alloc, 2, image, seen.rmws);
        let window = self.repair_unless(node, alloc, 3, image, seen.window);
        Scrubbed {
            reads,
            writes,
            rmws,
            window,
        }
    }

    /// Scrubs the program of a slot. If it is damaged, the programs of all slots are scrubbed, since others may have
    /// it, too. The condition is a slot below 4.
    #[tactic(auto, using(crate::proofs::Mending::scrubs_whole, crate::proofs::Mending::scrubs_all))]
    fn scrub_slot(&mut self, node: &mut SingleNode, alloc: Global, slot: u8) -> Health
        requires { slot < 4 }
        ensures scrubs { ScrubsSlot result slot (beside self.old node.old) (beside self.new node.new) }
        ensures banks { node.new.banks ≡ node.old.banks }
        ensures ports { node.new.passes ≡ node.old.passes }
    {
        if self.look(node, slot) {
            return Health::Whole;
        }
        let reported = self.scrub(node, alloc, &[]);
        health_at(reported, slot)
    }

    /// Whether the numbers of scrubs before packets agree with their complements.
    pub fn has_counting(&self) -> bool
        ensures { result ≡ agrees self.now.counting }
    {
        self.counting.agrees()
    }

    /// Whether the node's sizes have the sum that was kept of them. They are how many ports and banks it has, where the
    /// banks lie, and how many cells its maps have.
    pub fn has_sizes(&self, node: &SingleNode) -> bool
        ensures { result ≡ (sizes_sum node.now == self.now.sizes) }
    {
        sizes_sum(node) == self.sizes
    }

    /// Whether packets have scrubs before them, and the node's sizes are others than they were.
    pub fn is_damaged(&self, node: &SingleNode) -> bool
        ensures { result ≡ (is_on self.now.counting && not (sizes_sum node.now == self.now.sizes)) }
    {
        self.counting.is_on() && !self.has_sizes(node)
    }

    /// Whether the command of a packet that came in at a port is for a slot that is withdrawn. The condition is a port of the node.
    pub(crate) fn withholds(&self, node: &SingleNode, port: u8, packet: &Packet) -> bool
        requires { port < length node.now.passes }
        ensures value { result
            ≡ is_withheld self.now.sums (port_slot_in (slice_get node.now.passes port) packet.now) }
        ensures command { result ≡ true → discard_of packet.now.bytes ≡ None }
    {
        if are_open(&self.sums) {
            return false;
        }
        match node.slot_for(port, packet) {
            Some(slot) => is_closed_at(&self.sums, slot),
            None => false,
        }
    }

    /// Scrubs the program that judges a packet, if a scrub is due before it, and gives what it found. If no program
    /// judges it, the scrub stays due. The condition is a port of the node.
    #[tactic(auto, using(crate::proofs::Serving::first_not, crate::proofs::Serving::first_none, crate::proofs::Serving::first_some))]
    pub(crate) fn scrub_first(
        &mut self,
        node: &mut SingleNode,
        alloc: Global,
        port: u8,
        packet: &Packet,
    ) -> Option<ScrubFindings>
        requires { port < length node.old.passes }
        ensures scrubs { ScrubsFirst (is_due self.old.counting)
            (port_slot_in (slice_get node.old.passes port) packet.now) result
            (beside self.old node.old) (beside self.new node.new) }
        ensures banks { node.new.banks ≡ node.old.banks }
        ensures ports { node.new.passes ≡ node.old.passes }
    {
        if !self.counting.is_due() {
            let counted = self.counting.counted();
            self.count(counted);
            return None;
        }
        let Some(slot) = node.slot_for(port, packet) else {
            return None;
        };
        let renewed = self.counting.renewed();
        self.count(renewed);
        let health = self.scrub_slot(node, alloc, slot);
        Some(ScrubFindings { slot, health })
    }

    /// Keeps these numbers of scrubs before packets.
    fn count(&mut self, counting: Counting)
        ensures { self.new ≡ with_counting self.old counting }
    {
        self.counting = counting;
    }

    /// Keeps the sums of the programs that were published since the four slots had those generations.
    pub(crate) fn follow(&mut self, node: &SingleNode, before: &[u32; 4])
        ensures rest { self.new ≡ with_all self.old self.new.sums }
        ensures follow { (programs : List Publish) → AreGenerations programs before.now
            → Follow programs node.now.programs self.old.sums self.new.sums }
    {
        self.sums = followed(node, before, &self.sums);
    }
}
