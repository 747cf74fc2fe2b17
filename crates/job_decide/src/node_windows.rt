//! The windows of the node of the jobs.

ghost use Rattle.std.specs.Prelude.{◌≡◌};
ghost use Rattle.job_decide.specs.DecideJob.{own_windows};
ghost use Rattle.node_parts.specs.Nodes.{windows_of};

use job_nodes::node::node_config;
use machine::MapSizes;
use rmap::Windows;

/// The address of the node of the jobs, and where its bank is.
pub fn own_windows() -> Windows
    ensures { result ≡ own_windows }
{
    node_config(1, MapSizes::new(&[]).unwrap()).windows()
}
