//! Packets that wait in the queues of a node's ports, and what its workers do with them.

ghost use Rattle.std.specs.Prelude.{◌≡◌, ◌<◌, ◌≤◌, ◌↔◌, ℕ, IfOk, IsTrue, OnOk, length, map, slice_index_or, vec_len, zip};
ghost use Rattle.cells.specs.Seats.{AreSeatsBack};
ghost use Rattle.machine.specs.Sizes.{kind_of_map};
ghost use Rattle.machine.specs.declared.kinds.MapKind.TheVariants.{Counter};
ghost use Rattle.job_ports.specs.Queues.{AreTakenBeginnings, AreFew, AreFilled, AreOfPorts, IsQueueFilled, IsOwnDesk, ServeOwn, new_worker};
ghost use Rattle.job_ports.specs.Quotas.{AreAllNumbered, AreNumberedIn, AreSeated, AreTakenBack, IsNumberedAt, IsSeated, IsTakenBack};
ghost use Rattle.ports.specs.Serves.{AreServed};
ghost use Rattle.ports.specs.Sinks.{SinkValue};

use crate::arrivals::Arrivals;
use crate::starts::set_all;
use bver::{Accepted, MapSizes};
use cells::Cells;
use job_config::own_node::OwnNode;
use lawful::threads_are_lawful;
use machine::MapKind;
use ports::{
    MAX_CAPACITY, NoGate, Port, PutPass, Replies, Report, ServePass, Worker, serve,
    workers_shares_count,
};
use quotas::quotas_hold_in_threads;
use spw::Packet;
use std::alloc::{AllocError, Global};
use std::sync::Wait;
use std::thread::Threads;
use target::{Family, Front, Node, NodeHistory, Pass, UnsharedNode};

/// A port whose queue holds these packets and then the end mark, what puts into it, and what takes from it.
fn filled<R: Wait>(
    rt: &R,
    alloc: Global,
    packets: Vec<Packet>,
) -> Result<(Port, PutPass, ServePass), AllocError>
    requires { vec_len packets ≤ 1023 }
    ensures { IfOk result (λ made. IsQueueFilled packets.items made.0 made.1 made.2) }
{
    let (port, mut put_pass, serve_pass) = Port::new(alloc, MAX_CAPACITY)?;
    for packet in packets {
        let Ok(()) = port.put(rt, &mut put_pass, packet) else {
            unreachable!()
        };
    }
    let Ok(()) = port.close(rt, &mut put_pass) else {
        unreachable!()
    };
    Ok((port, put_pass, serve_pass))
}

/// A port for each list of packets, in order, whose queue holds them and then the end mark. Besides, what puts into
/// each, and what takes from each.
pub(crate) fn fill<R: Wait>(
    rt: &R,
    alloc: Global,
    arrivals: Arrivals,
) -> Result<(Vec<Port>, Vec<PutPass>, Vec<ServePass>), AllocError>
    requires { AreFew arrivals }
    ensures { IfOk result (λ made. AreFilled arrivals made.0.items made.1.items made.2.items) }
{
    let mut ports = Vec::new(alloc);
    let mut put_passes = Vec::new(alloc);
    let mut serve_passes = Vec::new(alloc);
    for packets in arrivals.into_packets() {
        let (port, put_pass, serve_pass) = filled(rt, alloc, packets)?;
        ports.push(port)?;
        put_passes.push(put_pass)?;
        serve_passes.push(serve_pass)?;
    }
    Ok((ports, put_passes, serve_passes))
}

/// A worker for each port, in order, which knows what is given of the history, and keeps its replies in memory.
fn workers_of<J: Family>(
    alloc: Global,
    known: &Front<J>,
    passes: Vec<Pass<J>>,
    serve_passes: Vec<ServePass>,
) -> Result<Vec<Worker<J, Replies>>, AllocError>
    ensures { IfOk result
        (λ workers. workers.items ≡ map (new_worker known.now) (zip passes.items serve_passes.items)) }
{
    passes
        .into_iter()
        .zip(serve_passes)
        .map(|(pass, serve_pass)| {
            let sink = Replies::new(alloc, pass.port());
            Worker {
                pass,
                front: known.again(),
                serve_pass,
                sink,
            }
        })
        .collect(alloc)
}

/// Gives the seat of a port back to the cells of its node.
fn give_back<J: Family>(cells: &mut Cells, pass: Pass<J>)
    requires { IsSeated cells.old pass.pass.seat }
    ensures { IsTakenBack cells.old cells.new pass.pass.seat }
{
    cells.take_back(pass.into_seat());
}

/// The sink of each worker. What the workers took is taken back into what puts, so that it is known to be all that was
/// put. Their seats are taken back into the cells.
fn sinks_of<J: Family>(
    alloc: Global,
    ports: &[Port],
    mut put_passes: Vec<PutPass>,
    cells: &mut Cells,
    workers: Vec<Worker<J, Replies>>,
) -> Result<Vec<Replies>, AllocError>
    requires ports { AreOfPorts ports.now put_passes.items workers.items }
    requires seats { AreSeated cells.old workers.items }
    ensures back { IfOk result (λ _. AreTakenBack cells.old cells.new workers.items) }
    ensures sinks { IfOk result (λ sinks. sinks.items ≡ map (λ w. w.sink) workers.items) }
    ensures all { IfOk result (λ _. AreTakenBeginnings put_passes.items workers.items) }
{
    let mut sinks = Vec::with_capacity(alloc, workers.len())?;
    for worker in workers {
        let place = sinks.len();
        let put_pass = &mut put_passes[place];
        let Worker {
            pass,
            front: _,
            serve_pass,
            sink,
        } = worker;
        give_back(cells, pass);
        ports[place].rejoin(put_pass, serve_pass);
        sinks.push(sink)?;
    }
    Ok(sinks)
}

/// Whether the cells of a map count tickets.
fn counts(sizes: &MapSizes, map: u8) -> bool
    ensures { IsTrue result ↔ (kind_of_map sizes.now map ≡ Counter) }
{
    match sizes.kind(map) {
        Some(MapKind::Counter) | None => true,
        Some(MapKind::Peak) => false,
    }
}

/// How many tickets were drawn from a cell that counts.
fn print_cell_tickets(cells: &mut Cells, sizes: &MapSizes, map: u8, key: u16)
    requires { sizes.now ≡ cells.old.sizes }
    ensures same { cells.new ≡ cells.old }
    ensures numbered { AreSeatsBack cells.old → IsNumberedAt cells.old map key }
{
    if sizes.contains(map, key) && counts(sizes, map) {
        cells.drawn(map, key);
    }
}

/// How many tickets were drawn from each cell of a map that counts.
fn print_map_tickets(cells: &mut Cells, sizes: &MapSizes, map: u8)
    requires { sizes.now ≡ cells.old.sizes }
    ensures same { cells.new ≡ cells.old }
    ensures numbered { AreSeatsBack cells.old → AreNumberedIn cells.old map }
{
    let Some(count) = sizes.cells(map) else {
        return;
    };
    for key in 0..count {
        print_cell_tickets(cells, sizes, map, key);
    }
}

/// How many tickets were drawn from each cell that counts. If every seat came back, their tickets are numbered.
fn print_tickets(cells: &mut Cells, sizes: &MapSizes)
    requires { sizes.now ≡ cells.old.sizes }
    ensures same { cells.new ≡ cells.old }
    ensures numbered { AreSeatsBack cells.old → AreAllNumbered cells.old }
{
    for map in 0..sizes.maps() {
        print_map_tickets(cells, sizes, map);
    }
}

/// A node whose ports hold packets, the cells of its maps, what puts into each port, and their workers.
#[derive(Drop)]
struct Desks<J: Family, R: Wait + Drop> {
    node: Node<J, R>,
    cells: Cells,
    ports: Vec<Port>,
    put_passes: Vec<PutPass>,
    workers: Vec<Worker<J, Replies>>,
}

/// A node of that configuration, whose banks begin with their contents, and whose ports hold the packets that came to
/// them. The program judges at each port at first, and after it those that are published.
fn own_desks<'r, J: Family, R: Wait>(
    rt: &'r R,
    alloc: Global,
    opened: NodeHistory,
    own: &OwnNode,
    program: Accepted,
    arrivals: Arrivals,
) -> Result<Desks<J, &'r R>, AllocError>
    requires room { opened ≡ J.book }
    requires sizes { program.sizes ≡ own.now.sizes }
    requires few { AreFew arrivals }
    requires count { length arrivals ≡ own.now.ports }
    ensures own { IfOk result (λ made. IsOwnDesk own.now program arrivals made.node made.cells
        made.ports.items made.put_passes.items made.workers.items) }
    ensures served { IfOk result (λ made.
        AreServed made.node (vec_len made.workers) made.ports.items made.workers.items) }
{
    let config = own.config();
    // Only memory can be refused to it: a configuration has a number of ports that a node may have.
    let Ok((mut unshared, cells, passes, mut line)) = UnsharedNode::<J, _>::with_programs(
        alloc,
        rt,
        opened,
        &config,
        program,
        own.publishes(),
    ) else {
        return Err(AllocError);
    };
    let mut known = unshared.front();
    set_all(
        alloc,
        &mut unshared,
        &mut line,
        &mut known,
        own.banks(),
        own.contents(),
    )?;
    let node = unshared.share(alloc)?;
    let (ports, put_passes, serve_passes) = fill(rt, alloc, arrivals)?;
    let workers = workers_of(alloc, &known, passes, serve_passes)?;
    Ok(Desks {
        node,
        cells,
        ports,
        put_passes,
        workers,
    })
}

/// Serves the packets that came to the ports of the node of that configuration, each port in a thread of its own, to
/// the end. Returns the replies of each port, and the sum of the reports. The program judges in all slots at first.
/// After the run each seat is taken back to the cells.
///
/// # Errors
///
/// An error if memory or a thread is refused.
pub fn serve_arrivals<J: Family + Send + Sync + 'static, R: Threads + Wait + Sync>(
    rt: &R,
    alloc: Global,
    opened: NodeHistory,
    own: &OwnNode,
    program: Accepted,
    arrivals: Arrivals,
) -> Result<(Vec<Replies>, Report), AllocError>
    requires room { opened ≡ J.book }
    requires sizes { program.sizes ≡ own.now.sizes }
    requires few { AreFew arrivals }
    requires count { length arrivals ≡ own.now.ports }
    ensures { IfOk result (λ made. ServeOwn own.now program arrivals made.0.items made.1) }
{
    threads_are_lawful();
    quotas_hold_in_threads();
    workers_shares_count();
    let sizes = program.sizes();
    let made = own_desks::<J, _>(rt, alloc, opened, own, program, arrivals)?;
    let Desks {
        node,
        mut cells,
        ports,
        put_passes,
        workers,
    } = made;
    let (workers, report) = serve(rt, alloc, &node, &ports, workers, &NoGate);
    // Memory or a thread was refused, and there is no more to report.
    let Ok(report) = report else {
        return Err(AllocError);
    };
    let sinks = sinks_of(alloc, &ports, put_passes, &mut cells, workers)?;
    print_tickets(&mut cells, &sizes);
    Ok((sinks, report))
}
