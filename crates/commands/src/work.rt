//! What the words of a command line ask for.

use crate::jobs::Job;
use crate::node_jobs::NodeJob;
use job_live::words::LiveWords;

/// What the words of a command line ask for.
#[derive(Debug, Drop)]
pub enum Work {
    /// A job over files, which is done once: [`perform`](crate::perform) does it.
    Once(Job),
    /// A job for the node of a file: [`Job::placed`] gives the job by the configuration that the file says.
    OnNode(NodeJob),
    /// A talk on a node: [`live`](crate::live) holds it in lines, and [`live_frames`](crate::live_frames) in frames.
    Live(LiveWords),
    /// A text, which is to be printed: that of `help` or `--help`, or the version.
    Printed(String),
}
