//! What a publisher reports.

ghost use Rattle.std.specs.Prelude.{◌≡◌, ◌<◌, ◌≤◌, ◌+◌, ◌^◌, length};
ghost use Rattle.publish.specs.Reached.{reached};

use crate::history::Front;
use annals::Family;
use std::marker::{Model, PhantomData};

/// How far the history went when a program was published. Contracts see it as the programs.
#[derive(Drop)]
pub struct Told<J: Family> {
    front: Front,
    of: PhantomData<J>,
}

impl<J: Family> Model for Told<J> {
    ghost use Rattle.std.specs.Prelude.{◌≡◌, ◌<◌, ◌≤◌, ◌^◌, List, length};
    ghost use Rattle.node_programs.specs.declared.publishes.Publish.{Publish};

    ghost Value = { List Publish };

    ghost view = { λ t. t.front.programs };

    ghost invariant = { λ t. (t.front.family ≡ J.book) × (0 < length t.front.programs) × (length t.front.programs ≤ 2 ^ 32) };
}

impl<J: Family> Told<J> {
    /// A report that the history goes that far.
    pub(crate) fn new(front: Front) -> Told<J>
        requires family { front.family ≡ J.book }
        requires some { 0 < length front.programs }
        requires few { length front.programs ≤ 2 ^ 32 }
        ensures { result ≡ front.programs }
    {
        Told {
            front,
            of: PhantomData,
        }
    }

    /// The generation of the program that was published: its place in the history.
    pub fn generation(&self) -> u32
        ensures { result + 1 ≡ length self.now }
    {
        (self.front.len() - 1) as u32
    }

    /// How far.
    pub(crate) fn front(&self) -> &Front
        ensures { result.now ≡ reached J.book self.now }
    {
        &self.front
    }
}
