//! The list of what was published, as other values hold it.

ghost use Rattle.std.specs.Prelude.{◌≡◌};
ghost use Rattle.node_programs.specs.Histories.{longer_history};
ghost use Rattle.node_parts.specs.Nodes.{first_programs};

use crate::publishing::{Published, Publishing};
use std::marker::Model;

/// The list of what was published. It exists only in proofs.
#[derive(Drop)]
pub(crate) struct ProgramList {
    published: Published,
}

impl Model for ProgramList {
    ghost use Rattle.std.specs.Prelude.{List};
    ghost use Rattle.node_programs.specs.declared.publishes.Publish.{Publish};

    ghost Value = { List Publish };

    ghost view = { λ l. l.published.programs };
}

impl ProgramList {
    /// The list that has only the factory program, which is published for slot 0.
    pub fn first(factory: &Publishing) -> ProgramList
        requires { factory.now.slot ≡ 0 }
        ensures { result ≡ first_programs factory.now.program }
    {
        let none = Published::new();
        ProgramList {
            published: none.longer(factory),
        }
    }

    /// The same list.
    pub fn again(&self) -> ProgramList
        ensures { result ≡ self.now }
    {
        ProgramList {
            published: self.published.again(),
        }
    }

    /// The list with one publish more.
    pub fn with(&self, next: &Publishing) -> ProgramList
        ensures { result ≡ longer_history self.now next.now.slot next.now.program }
    {
        ProgramList {
            published: self.published.longer(next),
        }
    }
}
