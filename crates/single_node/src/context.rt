//! What a run needs of a port.

ghost use Rattle.std.specs.Prelude.{◌≡◌, ◌<◌, []};
ghost use base.Stored.{gnil};
ghost use Rattle.node_parts.specs.Passes.{run_context, seat_at};
ghost use Rattle.single_node.specs.Running.{HasRunOn, IsJudgedOn};

use crate::windows::LentWindows;
use bank::{Admitted, Judged};
use brun::{CallLog, run};
use bver::Accepted;
use machine::{MapSizes, STACK_SIZE};
use plain_cells::{PlainCells, calls_go_on};
use rmap::{Command, Windows};
use spw::PORTS;
use std::marker::Model;

/// What a run needs of a port: its number, the maps of its node, and the stack of the programs that run for it. The
/// windows of its node, and what programs asked of the node's cells, exist only in proofs.
#[derive(Drop)]
pub(crate) struct PortContext {
    port: u8,
    windows: LentWindows,
    sizes: MapSizes,
    asked: CallLog,
    stack: [u8; STACK_SIZE],
}

impl Model for PortContext {
    ghost use Rattle.std.specs.Prelude.{◌<◌};
    ghost use base.Stored.{gnil};
    ghost use Rattle.node_parts.specs.Passes.{RunContextValue, run_context, seat_at};

    ghost Value = { RunContextValue };

    ghost view = { λ b. run_context b.port b.windows.windows (seat_at b.sizes gnil b.asked.calls) };

    ghost invariant = { λ b. b.port < 32 };
}

impl PortContext {
    /// The context of the port of that number in a node with those windows and maps. The condition is a port below 32.
    pub fn new(port: u8, windows: &Windows, sizes: MapSizes) -> PortContext
        requires { port < PORTS }
        ensures { result ≡ run_context port windows.now (seat_at sizes gnil []) }
    {
        PortContext {
            port,
            windows: LentWindows::of(windows),
            sizes,
            asked: CallLog::none(),
            stack: [0; STACK_SIZE],
        }
    }

    /// The verdict of the program on the header of the command: one run, which asks the cells.
    fn verdict(&mut self, cells: &mut PlainCells, program: &Accepted, command: &Command) -> u64
        requires { cells.old.sizes ≡ program.now.sizes }
        ensures { HasRunOn program.now self.old self.new cells.old cells.new command.now result }
    {
        calls_go_on();
        cells.answer_in_order();
        let before = cells.log();
        let verdict = run(
            program,
            command.front(),
            command.tail(),
            self.port,
            &mut self.stack,
            cells,
        );
        cells.answer_in_order();
        self.asked = self.asked.joined(&before, &cells.log());
        verdict
    }

    /// Judges an admitted command by the program of that generation: one run on its header, which asks the cells. The
    /// condition is a program that was accepted for the maps of the cells.
    pub fn judge(
        &mut self,
        cells: &mut PlainCells,
        program: &Accepted,
        generation: u32,
        admitted: Admitted,
    ) -> Judged
        requires { cells.old.sizes ≡ program.now.sizes }
        ensures { IsJudgedOn program.now generation self.old self.new cells.old cells.new
            admitted result }
    {
        let verdict = self.verdict(cells, program, &admitted.command());
        Judged::of(admitted, self.port, generation, verdict)
    }
}
