//! What serves a port.

ghost use Rattle.std.specs.Prelude.{◌≡◌};
ghost use Rattle.ports.specs.Worked.{report_sum};

use crate::port::ServePass;
use crate::sink::Sink;
use target::{Family, Front, Pass};

/// What serves a port: what the port has of its node and knows of its history, what takes from its queue, and its sink.
#[derive(Drop)]
pub struct Worker<J: Family, S: Sink + Drop> {
    /// What the port has of its node.
    pub pass: Pass<J>,
    /// What the port knows of the history of the node's banks: at first that is [`Node::front`](target::Node::front).
    pub front: Front<J>,
    /// What takes from the port's queue.
    pub serve_pass: ServePass,
    /// The sink of the port's replies.
    pub sink: S,
}

/// What a worker has done until the end mark. Its counts stay at 2^64 - 1.
#[derive(Clone, Copy, Debug, PartialEq, Eq)]
pub struct Report {
    /// How many packets were no command.
    pub discarded: u64,
    /// How many replies the sink did not take.
    pub lost: u64,
}

impl Report {
    /// This report and another as one.
    pub(crate) fn plus(self, other: Report) -> Report
        ensures { result ≡ report_sum self other }
    {
        Report {
            discarded: self.discarded.saturating_add(other.discarded),
            lost: self.lost.saturating_add(other.lost),
        }
    }
}
