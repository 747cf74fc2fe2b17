//! Runs of a worker at its port.

ghost use Rattle.std.specs.Prelude.{◌≡◌, length};
ghost use Rattle.ports.specs.Queue.{IsServePassOf};
ghost use Rattle.ports.specs.Worked.{standing_of};
ghost use Rattle.test_laws.specs.Accounts.{IsAccounted};

use ports::{
    NoGate, Port, Replies, Report, Worker, work, workers_entries_are_all, workers_entries_follow,
    workers_programs_were_published, workers_publishes_are_all,
};
use std::alloc::Global;
use std::sync::Wait;
use target::{Family, Front, Node};

/// Works until the end mark, and then learns all of the history that the port asked for. Returns the report, and what
/// is known then. The conditions are those of [`work`].
pub fn accounted<J: Family, R: Wait, Q: Wait + Drop>(
    rt: &R,
    alloc: Global,
    node: &Node<J, Q>,
    port: &Port,
    worker: &mut Worker<J, Replies>,
) -> (Report, Front<J>)
    requires serves { IsServePassOf port.now worker.old.serve_pass }
    requires banks { length worker.old.pass.pass.shares ≡ node.now }
    ensures { IsAccounted (standing_of worker.old) (standing_of worker.new) result.1 }
{
    workers_programs_were_published();
    workers_entries_follow();
    workers_entries_are_all();
    workers_publishes_are_all();
    let report = work(rt, alloc, node, port, worker, &NoGate);
    let mut known = worker.front.again();
    worker.pass.announce(&mut known);
    worker.pass.knows_entries(&known);
    (report, known)
}
