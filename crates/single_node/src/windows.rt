//! The windows of a node, as its ports know them. They exist only in proofs: the node has them once, and lends them.

ghost use Rattle.std.specs.Prelude.{◌≡◌};
ghost use base.Fml.{ftrue};
ghost use Rattle.rmap.specs.Windows.{WindowsValue};

use rmap::Windows;
use std::marker::Model;

/// The windows of the node of a port, for proofs: it has no bytes.
#[derive(Drop)]
pub(crate) struct LentWindows {
    ghost windows: { WindowsValue },
}

impl Model for LentWindows {
    ghost also_owns = { λ _. ftrue };
}

impl LentWindows {
    /// Those windows.
    pub(crate) fn of(_windows: &Windows) -> LentWindows
        ensures { result.windows ≡ _windows.now }
    {
        LentWindows {}
    }
}
