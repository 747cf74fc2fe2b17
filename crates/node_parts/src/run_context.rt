//! What a run needs of a port.

ghost use Rattle.std.specs.Prelude.{◌≡◌, ◌<◌};
ghost use Rattle.node_parts.specs.Passes.{run_context, seat_at};

use brun::Counters;
use machine::STACK_SIZE;
use rmap::Windows;
use spw::PORTS;
use std::marker::Model;

/// What a run needs of a port: its number, the windows of its node, and its seat at the cells of the node's maps. It
/// also has the stack of the programs that run for the port.
#[derive(Drop)]
pub struct RunContext<C: Counters + Drop> {
    pub(crate) port: u8,
    pub(crate) windows: Windows,
    pub(crate) seat: C,
    pub(crate) stack: [u8; STACK_SIZE],
}

impl<C: Counters + Drop> Model for RunContext<C> {
    ghost use Rattle.std.specs.Prelude.{◌<◌};
    ghost use Rattle.node_parts.specs.Passes.{RunContextValue, run_context, seat_at};

    ghost Value = { RunContextValue };

    ghost view = { λ b. run_context b.port b.windows (seat_at (C.sizes b.seat) (C.home b.seat) (C.asked b.seat)) };

    ghost invariant = { λ b. b.port < 32 };
}

impl<C: Counters + Drop> RunContext<C> {
    /// The context of the port of that number in a node with those windows, with that seat at its cells. The condition is
    /// a port below 32.
    pub fn new(port: u8, windows: Windows, seat: C) -> RunContext<C>
        requires { port < PORTS }
        ensures { result
            ≡ run_context port windows (seat_at (C.sizes seat) (C.home seat) (C.asked seat)) }
    {
        RunContext {
            port,
            windows,
            seat,
            stack: [0; STACK_SIZE],
        }
    }

    /// The port's number.
    pub fn port(&self) -> u8
        ensures value { result ≡ self.now.port }
        ensures few { result < PORTS }
    {
        self.port
    }

    /// The windows of the node.
    pub fn windows(&self) -> &Windows
        ensures { result.now ≡ self.now.windows }
    {
        &self.windows
    }

    /// The seat at the cells.
    pub fn into_seat(self) -> C
        ensures { seat_at (C.sizes result) (C.home result) (C.asked result) ≡ self.seat }
    {
        let RunContext {
            port: _,
            windows: _,
            seat,
            stack: _,
        } = self;
        seat
    }
}
