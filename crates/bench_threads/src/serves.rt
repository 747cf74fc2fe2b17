//! Ports of a node that are served at once, each in a thread of its own.

ghost use Rattle.std.specs.Prelude.{◌≡◌, IfOk, vec_len};
ghost use Rattle.ports.specs.Queue.{IsServePassOf};
ghost use Rattle.ports.specs.Serves.{AreServed, IsWorkerOf};

use anyhow::{Result, bail};
use bver::Accepted;
use node_parts::{BankConfig, NodeConfig};
use ports::{MAX_CAPACITY, NoGate, Port, Replies, ServePass, Worker, serve};
use rcrc::crc;
use spw::{End, Packet};
use std::alloc::Global;
use std::rt::Clock;
use std::sync::Wait;
use std::thread::Threads;
use std::time::Instant;
use target::{Family, Node, NodeHistory, Pass};

/// How many packets each port is given: as many as its queue holds beside the end mark.
const PACKETS: u16 = MAX_CAPACITY - 1;

/// A bank, whose journal has room for the packets of four ports.
const BANK: BankConfig = BankConfig {
    base: 0xA000_0000,
    size: 0x1_0000,
    room: 4096,
};

/// A write of 16 bytes to the beginning of the bank 0, without its header CRC.
const WRITE: [u8; 33] = [
    0xFE, 0x01, 0x6C, 0x00, 0x67, 0x00, 0x00, 0x00, 0xA0, 0x00, 0x00, 0x00, 0x00, 0x00, 0x10, 0x00,
    0x01, 0x23, 0x45, 0x67, 0x89, 0xAB, 0xCD, 0xEF, 0x10, 0x11, 0x12, 0x13, 0x14, 0x15, 0x16, 0x17,
    0x56,
];

/// A write of 16 bytes to the beginning of the bank of that number.
fn write_to(alloc: Global, bank: u8) -> Result<Packet> {
    let mut bytes = WRITE;
    bytes[7] = bank;
    bytes[15] = crc(&bytes[..15]);
    Ok(Packet::new(Vec::from_slice(alloc, &bytes)?, End::Eop)?)
}

/// A port whose queue is full of writes to that bank and then the end mark, and what takes from it.
fn filled<R: Wait>(rt: &R, alloc: Global, bank: u8) -> Result<(Port, ServePass)>
    ensures { IfOk result (λ made. IsServePassOf made.0 made.1) }
{
    let (port, mut put_pass, serve_pass) = Port::new(alloc, MAX_CAPACITY)?;
    for _packet in 0..PACKETS {
        if port.put(rt, &mut put_pass, write_to(alloc, bank)?).is_err() {
            bail!("a full queue");
        }
    }
    if port.close(rt, &mut put_pass).is_err() {
        bail!("a full queue");
    }
    Ok((port, serve_pass))
}

/// A worker of a port of the node, whose replies are kept in memory.
fn worker<J: Family, R: Wait + Drop>(
    alloc: Global,
    node: &Node<J, R>,
    port: &Port,
    pass: Pass<J>,
    serve_pass: ServePass,
) -> Result<Worker<J, Replies>>
    requires { IsServePassOf port.now serve_pass }
    ensures { IfOk result (IsWorkerOf node.now port.now) }
{
    if pass.banks() != node.banks() {
        bail!("another number of banks");
    }
    Ok(Worker {
        sink: Replies::new(alloc, pass.port()),
        pass,
        front: node.front(),
        serve_pass,
    })
}

/// Full ports and their workers, in order.
type Desks<J> = (Vec<Port>, Vec<Worker<J, Replies>>);

/// A full port for each pass of the node: its packets go to the bank of its number, or to the only one.
fn desks<J: Family, R: Wait + Drop, W: Wait>(
    rt: &W,
    alloc: Global,
    node: &Node<J, R>,
    passes: Vec<Pass<J>>,
) -> Result<Desks<J>>
    ensures { IfOk result (λ made. AreServed node.now (vec_len made.1) made.0.items made.1.items) }
{
    let mut ports = Vec::new(alloc);
    let mut workers = Vec::new(alloc);
    for pass in passes {
        let bank = if node.banks() == 1 { 0 } else { pass.port() };
        let (port, serve_pass) = filled(rt, alloc, bank)?;
        let worker = worker(alloc, node, &port, pass, serve_pass)?;
        ports.push(port)?;
        workers.push(worker)?;
    }
    Ok((ports, workers))
}

/// How many of the workers' replies report success.
fn successes<J: Family>(workers: &[Worker<J, Replies>]) -> u64 {
    let mut done = 0u64;
    for worker in workers {
        for reply in worker.sink.replies() {
            if reply.get(3).copied() == Some(0) {
                done = done.wrapping_add(1);
            }
        }
    }
    done
}

/// Serves this many full ports of a fresh node, which has a bank for each or one for all. Returns how many writes were
/// done, and the nanoseconds that the ports were served.
///
/// # Errors
///
/// It fails if a node may not have this many ports, if memory or a thread is refused, or if there is no clock.
pub fn serve_writes<J: Family + Send + Sync + 'static, R: Threads + Wait + Clock + Sync>(
    rt: &R,
    alloc: Global,
    opened: NodeHistory,
    program: Accepted,
    ports: u8,
    has_one_bank: bool,
) -> Result<(u64, u128)>
    requires { opened ≡ J.book }
{
    let banks = [BANK; 4];
    let count = if has_one_bank {
        1
    } else {
        usize::from(ports.min(4))
    };
    let config = NodeConfig {
        address: 0xFE,
        ports,
        banks: &banks[..count],
        sizes: program.sizes(),
    };
    let (node, passes) = Node::<J, _>::new(alloc, rt, opened, &config, program)?;
    let (ports, workers) = desks(rt, alloc, &node, passes)?;
    let start = Instant::now(rt)?;
    let (workers, report) = serve(rt, alloc, &node, &ports, workers, &NoGate);
    let nanos = start.elapsed(rt)?.as_nanos();
    report?;
    Ok((successes(&workers), nanos))
}
