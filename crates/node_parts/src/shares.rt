//! The shares of one port.

ghost use Rattle.std.specs.Prelude.{◌≡◌, OnOk, OnErr, [], ◌∷◌, ◌++◌};

use bank::Share;
use std::alloc::{AllocError, Global};
use std::marker::Model;
use std::mem;

/// The shares of one port, by the number of the bank. Only [`Banks::new`](crate::Banks::new) makes them.
#[derive(Debug, Drop)]
pub struct PortShares {
    shares: Vec<Share>,
}

impl Model for PortShares {
    ghost use Rattle.std.specs.Prelude.{List};
    ghost use Rattle.bank.specs.Records.{ShareValue};

    ghost Value = { List ShareValue };

    ghost view = { λ h. h.shares.items };
}

impl PortShares {
    /// No shares yet.
    pub(crate) fn new(alloc: Global) -> PortShares
        ensures { result ≡ [] }
    {
        PortShares {
            shares: Vec::new(alloc),
        }
    }

    /// Adds the share of the next bank.
    pub(crate) fn push(&mut self, share: Share) -> Result<(), AllocError>
        ensures ok { OnOk result (self.new ≡ self.old ++ share ∷ []) }
    {
        self.shares.push(share)?;
        Ok(())
    }

    /// Takes the shares, and leaves none.
    pub fn take(&mut self, alloc: Global) -> Vec<Share>
        ensures shares { result.items ≡ self.old }
        ensures empty { self.new ≡ [] }
    {
        mem::replace(&mut self.shares, Vec::new(alloc))
    }
}
