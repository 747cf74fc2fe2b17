//! All ports of a node at once, each in a thread of its own.

ghost use Rattle.std.specs.Prelude.{◌≡◌, ◌+◌, ◌≤◌, ◌++◌, ◌⊎◌, true, false, IfNone, IfOk, IfSome, None, Some, OnErr, length, map, vec_len, vec_capacity};
ghost use Rattle.std.specs.List.{All};
ghost use Rattle.std.specs.PromisedHandle.{KeepsEach};
ghost use mathlib.Core.List.{IsPrefix};
ghost use Rattle.annals.specs.Publishes.{publishes_of};
ghost use Rattle.annals.specs.Shown.{AreListed, shown_in};
ghost use Rattle.ports.specs.Serves.{AreServed, HasRoomFor, HaveComeBack, HaveServed, IsOneMissing, IsShort, IsSumOf, IsWorkerInformed, IsTotalOf, ShareOneHistory};

use crate::gate::Gate;
use crate::port::Port;
use crate::sink::Sink;
use crate::starts::{Ended, start_each};
use crate::worker::{Report, Worker};
use annals::{acts_grow, loads_are_apart};
use std::alloc::Global;
use std::sync::{Mutex, MutexGuard, Wait};
use std::thread::{Promise, PromisedHandle, Threads};
use target::{Family, Front, Node};
use thiserror::Error;

/// Why ports were not served.
#[derive(Clone, Copy, Debug, PartialEq, Eq, Error)]
pub enum ServeFault {
    /// A worker could not be started: memory was refused, or no thread could be made.
    #[error("no memory")]
    Memory,
}

impl ServeFault {
    /// The number of the fault: 1.
    pub fn code(self) -> u8
        ensures { result ≡ 1 }
    {
        match self {
            ServeFault::Memory => 1,
        }
    }
}

/// Joins each thread, in order, into a list that has the room.
fn join_each<R: Threads, T: Drop, P: Promise<T>>(
    rt: &R,
    threads: Vec<PromisedHandle<T, P>>,
    mut all: Vec<T>,
) -> Vec<T>
    requires { HasRoomFor (vec_len threads) all }
    ensures len { vec_len result ≡ vec_len threads }
    ensures each { KeepsEach P.Promise (vec_len threads) threads.items result.items }
{
    for thread in threads {
        let Ok(()) = all.push(thread.join(rt)) else {
            unreachable!()
        };
    }
    all
}

/// The sum of two reports, if both are there.
fn both(total: Option<Report>, report: Option<Report>) -> Option<Report>
    ensures sum { IfSome result (IsSumOf total report) }
    ensures none { IfNone result ((total ≡ None) ⊎ (report ≡ None)) }
{
    Some(total?.plus(report?))
}

/// Somebody learns all that was published, and that readers see it.
fn show_all<R: Wait, J: Family, Q: Wait + Drop>(rt: &R, node: &Node<J, Q>, known: &mut Front<J>)
    ensures seen { IsPrefix known.old known.new }
    ensures shown { length (publishes_of known.new) ≤ shown_in known.new }
    ensures listed { AreListed known.new }
{
    let mut guard = node.publisher().lock(rt);
    let publisher = &mut *guard;
    publisher.announce(known);
    publisher.knows_all(known);
    MutexGuard::unlock(guard);
}

/// What anybody knew of the history, all that the workers know of it, all that their ports did there, and all that was
/// published. Readers see all these publishes.
fn all_known<R: Wait, J: Family, Q: Wait + Drop, S: Sink + Drop>(
    rt: &R,
    node: &Node<J, Q>,
    ended: &[Ended<J, S>],
    mut known: Front<J>,
) -> Front<J>
    ensures reported { All (λ e. IsWorkerInformed result e.worker) ended.now }
    ensures shown { length (publishes_of result) ≤ shown_in result }
    ensures listed { AreListed result }
{
    acts_grow();
    for one in ended {
        known.learn(&one.worker.front);
        one.worker.pass.announce(&mut known);
    }
    show_all(rt, node, &mut known);
    known
}

/// The workers that came back, in order, in a list that has the room, and, if each served, the sum of their reports.
///
/// What the workers know of the history begins one list. It has no entries of their ports except those that their
/// shares count. Of their ports it has what they asked for.
fn gather<R: Wait, J: Family, Q: Wait + Drop, S: Sink + Drop>(
    rt: &R,
    node: &Node<J, Q>,
    ended: Vec<Ended<J, S>>,
    mut workers: Vec<Worker<J, S>>,
    known: Front<J>,
) -> (Vec<Worker<J, S>>, Option<Report>)
    requires { HasRoomFor (vec_len ended) workers }
    ensures workers { result.0.items ≡ map (λ e. e.worker) ended.items }
    ensures total { IfSome result.1 (IsTotalOf (map (λ e. e.report) ended.items)) }
    ensures missing { IfNone result.1 (IsOneMissing (map (λ e. e.report) ended.items)) }
    ensures space { vec_capacity workers ≤ vec_capacity result.0 }
    ensures history { ShareOneHistory result.0.items }
{
    let mut total = Some(Report {
        discarded: 0,
        lost: 0,
    });
    let whole = all_known(rt, node, ended.as_slice(), known);
    for one in ended {
        total = both(total, one.report);
        let mut worker = one.worker;
        worker.pass.knows_entries(&whole);
        let Ok(()) = workers.push(worker) else {
            unreachable!()
        };
    }
    (workers, total)
}

/// The sum of the reports, if all workers were started.
fn of_all(all: bool, total: Option<Report>) -> Option<Report>
    ensures sum { IfSome result (λ report. (all ≡ true) × (total ≡ Some report)) }
    ensures none { IfNone result ((all ≡ false) ⊎ (total ≡ None)) }
{
    if all { total } else { None }
}

/// The workers, and after them the rest, for which there is room.
fn with_rest<T: Drop>(mut workers: Vec<T>, rest: Vec<T>) -> Vec<T>
    requires { vec_len workers + vec_len rest ≤ vec_capacity workers }
    ensures { result.items ≡ workers.items ++ rest.items }
{
    for worker in rest {
        let Ok(()) = workers.push(worker) else {
            unreachable!()
        };
    }
    workers
}

/// Serves each port by the worker at its place, each in a thread of its own, until every worker has taken its port's
/// end mark. No worker takes a packet before all threads were started. It waits for the threads. The conditions are one
/// worker a port, in order, with the port's serve pass, and passes that have as many banks as the node.
///
/// What comes back are the workers, in order, and the sum of their reports. What the workers know of the history of the
/// node's banks begins one list. Each command that left an entry at a bank is in what its worker knows of it.
///
/// - Each entry of a worker's port in that list, except those that the port had left before, is that of one of these
///   commands. At each bank they are in the order of the port's packets, each once.
/// - Each publish of a worker's port there, except those that the port had asked for before, is that of one of its
///   loads. They are in the order of its packets, each once.
/// - Of entries and publishes of ports that were not served the contract says nothing.
///
/// # Errors
///
/// [`ServeFault::Memory`]: memory was refused, or a thread could not be made. The workers come back in order, each as
/// it went in or after its port's end mark. At most one is missing, the one whose thread could not be made. If none is
/// missing, they may serve their ports again. The fault comes only if fewer workers come back than went in, or one of
/// them is as it went in, or there are none. It is tested that no packet was taken then.
pub fn serve<
    R: Threads + Wait + Sync,
    J: Family + Send + Sync + 'static,
    Q: Wait + Drop + Send,
    S: Sink + Drop + Send + 'static,
    G: Gate + Sync,
>(
    rt: &R,
    alloc: Global,
    node: &Node<J, Q>,
    ports: &[Port],
    workers: Vec<Worker<J, S>>,
    gate: &G,
) -> (Vec<Worker<J, S>>, Result<Report, ServeFault>)
    requires { AreServed node.now (vec_len workers) ports.now workers.items }
    ensures served { IfOk result.1
        (HaveServed S.sent S.failed node.now ports.now workers.items result.0.items) }
    ensures kept { OnErr result.1 (HaveComeBack S.sent S.failed workers.items result.0.items) }
    ensures short { OnErr result.1 (IsShort workers.items result.0.items) }
    ensures back { length result.0.items ≡ length workers.items
        → AreServed node.now (length workers.items) ports.now result.0.items }
{
    loads_are_apart();
    let count = workers.len();
    let (Ok(threads), Ok(rest), Ok(ended), Ok(back)) = (
        Vec::with_capacity(alloc, count),
        Vec::with_capacity(alloc, count),
        Vec::with_capacity(alloc, count),
        Vec::with_capacity(alloc, count),
    ) else {
        return (workers, Err(ServeFault::Memory));
    };
    let all_started = Mutex::new(false);
    let started = start_each(
        rt,
        alloc,
        &all_started,
        node,
        ports,
        workers,
        gate,
        threads,
        rest,
    );
    let (workers, total) = gather(
        rt,
        node,
        join_each(rt, started.threads, ended),
        back,
        node.front(),
    );
    match of_all(started.all, total) {
        Some(report) => (workers, Ok(report)),
        None => (with_rest(workers, started.rest), Err(ServeFault::Memory)),
    }
}
