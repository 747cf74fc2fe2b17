//! The names of slots.

ghost use Rattle.std.specs.Prelude.{◌≡◌, [], ℕ, List, IfOk};
ghost use Rattle.basm.specs.Names.{HasOneMore, IsNew, slot_named};

use std::alloc::{AllocError, Global};
use std::collections::BTreeMap;
use std::marker::Model;

/// The slots of names.
#[derive(Drop)]
pub struct Names<'a> {
    slots: BTreeMap<&'a str, u32>,
}

impl<'a> Model for Names<'a> {
    ghost use Rattle.std.specs.Prelude.{ℕ, List, map};

    ghost Value = { List (List ℕ × ℕ) };

    ghost view = { λ names. map (λ entry. (entry.0.now, entry.1)) names.slots.entries };
}

impl<'a> Names<'a> {
    /// No names.
    pub fn new(alloc: Global) -> Names<'a>
        ensures { result ≡ [] }
    {
        Names {
            slots: BTreeMap::new(alloc),
        }
    }

    /// The slot of the name, if it has one.
    pub fn slot_of(&self, name: &str) -> Option<u32>
        ensures { result ≡ slot_named self.now name.now }
    {
        match self.slots.get(name) {
            Some(slot) => Some(*slot),
            None => None,
        }
    }

    /// Gives the name a slot, unless it has one. The result is whether it gave it now.
    ///
    /// # Errors
    ///
    /// Memory is refused.
    pub fn define(&mut self, name: &'a str, slot: u32) -> Result<bool, AllocError>
        ensures names { IfOk result (λ _. HasOneMore self.old self.new name.now slot) }
        ensures is_new { IfOk result (IsNew self.old name.now) }
    {
        if self.slots.contains_key(name) {
            return Ok(false);
        }
        match self.slots.insert(name, slot) {
            Ok(_) => Ok(true),
            Err(_) => Err(AllocError),
        }
    }
}
