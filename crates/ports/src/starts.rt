//! A thread for each worker.

ghost use Rattle.std.specs.Prelude.{◌≡◌, ◌+◌, ◌<◌, ◌≤◌, true, false, length, slice_index_or, vec_len};
ghost use Rattle.ports.specs.Serves.{AreLast, AreServed, AreThreadsOf, HasRoomFor, IsBack, IsWorkerOf};

use crate::gate::Gate;
use crate::port::Port;
use crate::sink::Sink;
use crate::worker::{Report, Worker};
use crate::works::work;
use std::alloc::Global;
use std::snapshot::Snapshot;
use std::sync::{Mutex, MutexGuard, Wait};
use std::thread;
use std::thread::{Promise, PromisedHandle, Threads};
use target::{Family, Node};

/// What a thread gives back: its worker, and the worker's report if it served.
#[derive(Drop)]
pub(crate) struct Ended<J: Family, S: Sink + Drop> {
    pub worker: Worker<J, S>,
    pub report: Option<Report>,
}

/// The thread of a worker.
pub(crate) type Thread<J, S> = PromisedHandle<Ended<J, S>, Start<J, S>>;

/// What a thread promises: the worker that comes back with a report is this one after its end mark.
#[derive(Drop)]
pub(crate) struct Start<J: Family, S: Sink + Drop>(Snapshot<Worker<J, S>>);

impl<J: Family, S: Sink + Drop> Promise<Ended<J, S>> for Start<J, S> {
    ghost use Rattle.ports.specs.Serves.{IsBack};

    ghost kept_by = { λ p r. IsBack S.sent S.failed p.0.value r.worker r.report };
}

/// Serves the port if all threads were started. Otherwise it hands the worker back as it came.
fn worked_on<R: Wait, J: Family, Q: Wait + Drop, S: Sink + Drop, G: Gate>(
    rt: &R,
    alloc: Global,
    all_started: &Mutex<bool>,
    node: &Node<J, Q>,
    port: &Port,
    mut worker: Worker<J, S>,
    gate: &G,
) -> Ended<J, S>
    requires { IsWorkerOf node.now port.now worker }
    ensures { IsBack S.sent S.failed worker result.worker result.report }
{
    let guard = all_started.lock(rt);
    let serves = *guard;
    MutexGuard::unlock(guard);
    if !serves {
        return Ended {
            worker,
            report: None,
        };
    }
    let report = work(rt, alloc, node, port, &mut worker, gate);
    Ended {
        worker,
        report: Some(report),
    }
}

/// The port of a worker, which is at this place.
fn port_of<'a, J: Family, S: Sink + Drop, Q: Wait + Drop>(
    node: &Node<J, Q>,
    ports: &'a [Port],
    place: usize,
    worker: &Worker<J, S>,
) -> &'a Port
    requires inside { place < length ports.now }
    requires served { (p : Port) → IsWorkerOf node.now (slice_index_or ports.now place p) worker.now }
    ensures { IsWorkerOf node.now result.now worker.now }
{
    &ports[place]
}

/// The threads that were started, in order, the workers that were not, and whether all were. A worker whose thread
/// could not be made is in neither list.
#[derive(Drop)]
pub(crate) struct Started<J: Family, S: Sink + Drop> {
    pub threads: Vec<Thread<J, S>>,
    pub rest: Vec<Worker<J, S>>,
    pub all: bool,
}

/// Starts a thread for each worker, as far as threads can be made. They begin to serve after all were started, and have
/// ended when this returns.
pub(crate) fn start_each<
    R: Threads + Wait + Sync,
    J: Family + Send + Sync + 'static,
    Q: Wait + Drop + Send,
    S: Sink + Drop + Send + 'static,
    G: Gate + Sync,
>(
    rt: &R,
    alloc: Global,
    all_started: &Mutex<bool>,
    node: &Node<J, Q>,
    ports: &[Port],
    workers: Vec<Worker<J, S>>,
    gate: &G,
    threads: Vec<Thread<J, S>>,
    rest: Vec<Worker<J, S>>,
) -> Started<J, S>
    requires threads { HasRoomFor (vec_len workers) threads }
    requires rest { HasRoomFor (vec_len workers) rest }
    requires served { AreServed node.now (vec_len workers) ports.now workers.items }
    ensures len { result.all ≡ true → vec_len result.threads ≡ vec_len workers }
    ensures most { vec_len result.threads + vec_len result.rest ≤ vec_len workers }
    ensures few { vec_len workers ≤ vec_len result.threads + vec_len result.rest + 1 }
    ensures missing { result.all ≡ false
        → vec_len result.threads + vec_len result.rest < vec_len workers }
    ensures rest { AreLast result.rest.items workers.items }
    ensures each { AreThreadsOf (vec_len result.threads) result.threads.items workers.items }
{
    thread::scope(
        thread::scope_env(),
        rt,
        |scope| -> Started<J, S>
            requires threads { HasRoomFor (vec_len workers) threads }
            requires rest { HasRoomFor (vec_len workers) rest }
            requires served { AreServed node.now (vec_len workers) ports.now workers.items }
            ensures len { result.all ≡ true → vec_len result.threads ≡ vec_len workers }
            ensures most { vec_len result.threads + vec_len result.rest ≤ vec_len workers }
            ensures few { vec_len workers ≤ vec_len result.threads + vec_len result.rest + 1 }
            ensures missing { result.all ≡ false
                → vec_len result.threads + vec_len result.rest < vec_len workers }
            ensures rest { AreLast result.rest.items workers.items }
            ensures each { AreThreadsOf (vec_len result.threads) result.threads.items workers.items }
        {
            let mut threads = threads;
            let mut rest = rest;
            let mut all = true;
            let mut guard = all_started.lock(rt);
            for worker in workers {
                if !all {
                    let Ok(()) = rest.push(worker) else {
                        unreachable!()
                    };
                    continue;
                }
                let port = port_of(node, ports, threads.len(), &worker);
                let start = Start(Snapshot::of(&worker));
                match scope.spawn_with(
                    start,
                    move || worked_on(rt, alloc, all_started, node, port, worker, gate),
                ) {
                    Ok(thread) => {
                        let Ok(()) = threads.push(thread) else {
                            unreachable!()
                        };
                    }
                    Err(_refused) => all = false,
                }
            }
            *guard = all;
            MutexGuard::unlock(guard);
            Started { threads, rest, all }
        },
    )
}
