//! What is made beside the banks of a node: the cells of its maps, what publishes its programs, and the passes of its ports.

ghost use Rattle.std.specs.Prelude.{◌≡◌, ◌≤◌, ◌+◌, ◌-◌, ℕ, List, [], All, length, IfOk};
ghost use base.Stored.{Gv};
ghost use Rattle.annals.specs.Publishes.{line_loading, publishes_chain, publishes_of};
ghost use Rattle.bver.specs.Justified.{AcceptedValue};
ghost use Rattle.cells.specs.Seats.{cells};
ghost use Rattle.node_parts.specs.Nodes.{AreSharesOf};
ghost use Rattle.node_programs.specs.Histories.{entry};
ghost use Rattle.target.specs.Lines.{fresh_lines};
ghost use Rattle.publish.specs.Firsts.{IsFirstProgram, line_with_firsts, programs_with};
ghost use Rattle.target.specs.Nodes.{AreFirst, informed_passes};
ghost use Rattle.target.specs.Passes.{unasked};

use crate::pass::Pass;
use annals::{Chain, Family, Line, PublishedCount};
use bver::Accepted;
use cells::{CellSeat, Cells};
use node_parts::{NodeConfig, PortShares, RunContext};
use node_programs::Staging;
use publish::{LoadRights, Programs, Publisher, Reader};
use rmap::MAX_BANKS;
use spw::PORTS;
use std::alloc::{AllocError, Global};
use std::sync::Wait;

/// The line of each port, in order, as the next chains of a history, and the word that counts what readers see. The
/// chains of other ports are left out.
///
/// # Errors
///
/// `AllocError` if memory was refused, and also if a chain has begun before (no test met that).
fn lines<J: Family>(
    alloc: Global,
    ports: u8,
    mut history: annals::EmptyHistory,
) -> Result<(Vec<Line<J>>, PublishedCount<J>), AllocError>
    requires family { history.0 ≡ J.book }
    requires chains { history.1 ≡ 32 }
    requires ports { ports ≤ PORTS }
    ensures { IfOk result (λ made. made.0.items ≡ fresh_lines ports) }
{
    let mut lines = Vec::with_capacity(alloc, usize::from(ports))?;
    for port in 0..ports {
        let Some(line) = Line::new(port, &mut history) else {
            return Err(AllocError);
        };
        lines.push(line)?;
    }
    history.skip(PORTS - ports);
    Ok((lines, history.into_published_count()))
}

/// The pass of each port, in order, each with its line.
fn passes<J: Family>(
    alloc: Global,
    config: &NodeConfig,
    by_port: &mut Vec<PortShares>,
    mut seats: Vec<CellSeat>,
    mut readers: Vec<Reader<J>>,
    lines: Vec<Line<J>>,
) -> Result<Vec<Pass<J>>, AllocError>
    requires banks { length config.now.banks.now ≤ MAX_BANKS }
    requires ports { config.now.ports ≤ PORTS }
    requires by_port { AreSharesOf config.now by_port.old.items }
    requires made { (factory : AcceptedValue) × (firsts : List (ℕ × AcceptedValue)) × (home : Gv)
        × AreFirst factory firsts home config.now.ports seats.items readers.items }
    requires lines { lines.items ≡ fresh_lines config.now.ports }
    ensures { (factory : AcceptedValue) (firsts : List (ℕ × AcceptedValue)) (home : Gv)
        → AreFirst factory firsts home config.now.ports seats.items readers.items
        → IfOk result (λ passes.
        passes.items ≡ unasked (informed_passes config.now factory firsts home)) }
{
    let mut passes = Vec::with_capacity(alloc, by_port.len())?;
    for line in lines {
        let port = line.port();
        let (Some(seat), Some(reader)) = (seats.pop(), readers.pop()) else {
            unreachable!()
        };
        let pass = Pass {
            context: RunContext::new(port, config.windows(), seat),
            loader: LoadRights { reader, line },
            shares: by_port[usize::from(port)].take(alloc),
            staging: Staging::new(alloc)?,
        };
        passes.push(pass)?;
    }
    Ok(passes)
}

/// The cells of a node's maps, each 0, and what publishes its programs in that chain of its history. It also makes a
/// pass for each port, in order, with its shares of the banks and its line of the history. After the factory program
/// these were published. The line that is lent asks for all of them. The conditions are a chain of publishes that has
/// none, the chains of lines, programs that may be published, and numbers within their limits.
pub(crate) fn cells_and_passes<J: Family, R: Wait + Drop>(
    alloc: Global,
    rt: R,
    chain: Chain<J>,
    line: &mut Line<J>,
    history: annals::EmptyHistory,
    config: &NodeConfig,
    factory: Accepted,
    firsts: &[(u8, Accepted)],
    by_port: &mut Vec<PortShares>,
) -> Result<(Cells, Publisher<J, R>, Vec<Pass<J>>), AllocError>
    requires number { chain.number ≡ publishes_chain }
    requires none { publishes_of chain.log ≡ [] }
    requires family { history.0 ≡ J.book }
    requires chains { history.1 ≡ 32 }
    requires sizes { factory.sizes ≡ config.now.sizes }
    requires firsts { All (IsFirstProgram config.now.sizes) firsts.now }
    requires few { length firsts.now ≤ 4294967295 }
    requires banks { length config.now.banks.now ≤ MAX_BANKS }
    requires ports { config.now.ports ≤ PORTS }
    requires by_port { AreSharesOf config.now by_port.old.items }
    ensures cells { IfOk result
        (λ made. made.0 ≡ cells config.now.sizes made.0.home (256 - config.now.ports) []) }
    ensures publisher { IfOk result (λ made. made.1 ≡ programs_with factory firsts.now) }
    ensures passes { IfOk result (λ made.
        made.2.items ≡ unasked (informed_passes config.now factory firsts.now made.0.home)) }
    ensures asked { IfOk result (λ _. line.new
        ≡ line_with_firsts (line_loading line.old (entry 0 factory)) firsts.now) }
    ensures owner { IfOk result (λ _. line.new.port ≡ line.old.port) }
{
    let (cells, seats) = Cells::new(alloc, &config.sizes, config.ports)?;
    let (lines, published_count) = lines(alloc, config.ports, history)?;
    let (publisher, readers) = Programs::with_chain(
        alloc,
        rt,
        chain,
        published_count,
        line,
        factory,
        firsts,
        config.ports,
    )?;
    let passes = passes(alloc, config, by_port, seats, readers, lines)?;
    Ok((cells, publisher, passes))
}
