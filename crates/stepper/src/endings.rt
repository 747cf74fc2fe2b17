//! Whole runs of the slow machine.

ghost use Rattle.std.specs.Prelude.{◌≡◌};
ghost use Rattle.machine.specs.Memory.{header as header_of};
ghost use Rattle.stepper.specs.Endings.{EndsFrom, IsEnding};

use crate::machines::Machine;
use crate::outcomes::StepOutcome;
use bpf::Image;
use machine::{MapSizes, questions_go_on};

/// How a run ended.
#[derive(Clone, Copy, Debug, PartialEq, Eq)]
pub enum RunEnd {
    /// The program ended with this verdict.
    Verdict(u64),
    /// A trap.
    Trap,
    /// A helper asked, and no answer was left.
    Unanswered,
    /// The run reached the limit of steps.
    OutOfSteps,
}

/// Goes on from the entry of a program for at most `limit` steps.
fn walk(mut machine: Machine<'_>, answers: &[u64], limit: u32) -> RunEnd
    requires { machine.steps ≡ 0 }
    ensures { EndsFrom machine.entry answers.now limit result }
{
    questions_go_on();
    let mut left = answers;
    for _step in 0..limit {
        match machine.step() {
            StepOutcome::Next => {}
            StepOutcome::Ask(_) => {
                let Some((answer, rest)) = left.split_first() else {
                    return RunEnd::Unanswered;
                };
                machine.answer(*answer);
                left = rest;
            }
            StepOutcome::Verdict(verdict) => return RunEnd::Verdict(verdict),
            StepOutcome::Trap => return RunEnd::Trap,
        }
    }
    RunEnd::OutOfSteps
}

/// Runs a program on a command's header and a port, with maps of these sizes. It makes at most `limit` steps, of
/// which EXIT is one. The helpers' questions get the answers in order.
pub fn run(
    image: &Image,
    sizes: &MapSizes,
    front: &[u8; 4],
    tail: &[u8; 12],
    port: u8,
    answers: &[u64],
    limit: u32,
) -> RunEnd
    ensures { IsEnding image.now (header_of front.now tail.now) sizes.now port answers.now limit
        result }
{
    let machine = Machine::start(image, sizes, front, tail, port);
    walk(machine, answers, limit)
}
