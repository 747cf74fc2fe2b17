//! The programs that judge at a node before its first packet, and their verdicts on cells that nobody asked.

ghost use Rattle.std.specs.Prelude.{◌≡◌, IfOk};
ghost use Rattle.node_parts.specs.Slots.{slot_of};
ghost use Rattle.rmap.specs.Command.{command_kind};
ghost use Rattle.job_suite.specs.Judges.{AreJudges, HasJudgedAtPortZero, judge_among, judge_after, judge_of};

use brun::run;
use bver::Accepted;
use job_config::own_node::OwnNode;
use machine::STACK_SIZE;
use node_parts::slot;
use plain_cells::PlainCells;
use rmap::{Command, Place};
use std::alloc::{AllocError, Global};

/// The program that judges in all slots at first, and the node for which others are published before the first packet.
#[derive(Debug, Drop)]
pub struct Judges {
    /// The first.
    pub first: Accepted,
    /// The node.
    pub own: OwnNode,
}

/// The program of a slot after a publish, if that one judged before it.
fn judge_after<'b>(judge: &'b Accepted, publish: &'b (u8, Accepted), slot: u8) -> &'b Accepted
    ensures { result.now ≡ judge_after judge.now publish.now slot }
{
    if publish.0 == slot { &publish.1 } else { judge }
}

/// The program of a slot, if these were published in turn, and that one judged before them.
fn judge_among<'b>(first: &'b Accepted, publishes: &'b [(u8, Accepted)], slot: u8) -> &'b Accepted
    ensures { result.now ≡ judge_among first.now publishes.now slot }
{
    let mut judge = first;
    for publish in publishes {
        judge = judge_after(judge, publish, slot);
    }
    judge
}

/// The verdict of a program on the header of a command, at port 0, on cells that nobody asked.
fn verdict_on(alloc: Global, judge: &Accepted, command: &Command) -> Result<u64, AllocError>
    ensures { IfOk result (HasJudgedAtPortZero judge.now command.now) }
{
    let mut cells = PlainCells::new(alloc, &judge.sizes())?;
    let mut stack = [0; STACK_SIZE];
    let (front, tail) = (command.front(), command.tail());
    let verdict = run(judge, front, tail, 0, &mut stack, &mut cells);
    cells.answer_in_order();
    Ok(verdict)
}

impl Judges {
    /// The programs of a node. This one judges at first in all slots.
    pub fn of(own: OwnNode, first: Accepted) -> Judges
        ensures { AreJudges own first result }
    {
        Judges { first, own }
    }

    /// The program of a slot.
    pub fn judge(&self, slot: u8) -> &Accepted
        ensures { result.now ≡ judge_of self.now slot }
    {
        judge_among(&self.first, self.own.publishes(), slot)
    }

    /// The verdict on a command that has this place, at port 0, on cells that nobody asked.
    ///
    /// # Errors
    ///
    /// An error if memory is refused.
    pub fn verdict(&self, alloc: Global, command: &Command, place: Place) -> Result<u64, AllocError>
        ensures { IfOk result
            (HasJudgedAtPortZero (judge_of self.now (slot_of (command_kind command.now) place)) command.now) }
    {
        let judge = self.judge(slot(command.kind(), place));
        verdict_on(alloc, judge, command)
    }
}
