//! What is done at a node, as the history has it.

use bank::Entry;
use bver::Accepted;
use node_programs::Publish;
use std::collections::LinkedList;
use std::sync::Arc;

/// What a line asks for, and what is then done. The line is a port's or the instrument's. No value of it is made.
pub enum Act {
    /// A judged command of a port leaves that entry in a bank's journal.
    Leaves(Entry),
    /// The instrument puts those bytes at an address of a bank.
    Sets((u32, LinkedList<u8>)),
    /// The instrument takes a bank's journal, and begins one with room for that many entries.
    Rotates(u64),
    /// A program is published for a slot, by the line of that number, which is a port's or the instrument's.
    Publishes((u64, Publish)),
}

/// What a chain of the history has. No value of it is made.
pub enum Deed {
    /// A bank began, with that many zero bytes from an address on, and with room for that many entries in its journal.
    /// The other chains begin with a bank of none.
    Opens((u32, u32, u32)),
    /// That was done, at a bank or to what is published.
    Does(Act),
    /// A line asked for that, at the chain of that number.
    Asks((u64, Act)),
    /// From here on readers see one program more of those that were published.
    Shows,
}

/// An entry of the history. It has a deed and the number of the deed's chain, which is that of a bank, of the
/// publishes, or of a line. It also has its place among the deeds there, and the key of the cell whose pen adds the
/// next one. No value of it is made.
pub struct HistoryEntry {
    pub chain: u64,
    pub place: u64,
    pub deed: Deed,
    pub next: u64,
}

/// What reports a deed.
pub(crate) trait Announces {
    ghost use Rattle.annals.specs.declared.deed.Deed.{Deed};

    /// The deed.
    ghost deed: { Self → Deed };
}

/// What reports an act.
pub(crate) trait AnnouncesAct {
    ghost use Rattle.annals.specs.declared.deed.Act.{Act};

    /// The act.
    ghost act: { Self → Act };
}

impl AnnouncesAct for Entry {
    ghost use Rattle.annals.specs.declared.deed.Act.TheVariants.{Leaves};

    ghost act = { λ entry. Leaves entry };
}

/// An instrument puts bytes at an address.
#[derive(Drop)]
pub(crate) struct Setting<'a> {
    pub(crate) address: u32,
    pub(crate) bytes: &'a [u8],
}

impl<'a> AnnouncesAct for Setting<'a> {
    ghost use Rattle.annals.specs.declared.deed.Act.TheVariants.{Sets};

    ghost act = { λ setting. Sets (setting.address, setting.bytes.now) };
}

/// An instrument takes a journal, and begins one with room for that many entries.
#[derive(Drop)]
pub(crate) struct Rotation {
    pub(crate) room: u32,
}

impl AnnouncesAct for Rotation {
    ghost use Rattle.annals.specs.declared.deed.Act.TheVariants.{Rotates};

    ghost act = { λ rotation. Rotates rotation.room };
}

/// The line of that number publishes a program for a slot.
#[derive(Drop)]
pub(crate) struct Publishing<'a> {
    pub(crate) by: u8,
    pub(crate) publish: &'a (u8, Arc<Accepted>),
}

impl<'a> AnnouncesAct for Publishing<'a> {
    ghost use Rattle.std.specs.Arc.{arc_value};
    ghost use Rattle.node_programs.specs.Histories.{entry};
    ghost use Rattle.annals.specs.declared.deed.Act.TheVariants.{Publishes};

    ghost act = { λ p. Publishes (p.by, entry p.publish.now.0 (arc_value p.publish.now.1)) };
}

/// An act was done.
#[derive(Drop)]
pub(crate) struct Doing<'a, A: AnnouncesAct> {
    pub(crate) act: &'a A,
}

impl<'a, A: AnnouncesAct> Announces for Doing<'a, A> {
    ghost use Rattle.annals.specs.declared.deed.Deed.TheVariants.{Does};

    ghost deed = { λ doing. Does (A.act doing.act.now) };
}

/// A line asked for an act, at the chain of that number.
#[derive(Drop)]
pub(crate) struct Asking<'a, A: AnnouncesAct> {
    pub(crate) chain: u8,
    pub(crate) act: &'a A,
}

impl<'a, A: AnnouncesAct> Announces for Asking<'a, A> {
    ghost use Rattle.annals.specs.declared.deed.Deed.TheVariants.{Asks};

    ghost deed = { λ asking. Asks (asking.chain, A.act asking.act.now) };
}

/// A bank began, of that many zero bytes from an address on, with room for that many entries.
#[derive(Drop)]
pub(crate) struct OpensBank(pub(crate) (u32, u32, u32));

impl Announces for OpensBank {
    ghost use Rattle.annals.specs.declared.deed.Deed.TheVariants.{Opens};

    ghost deed = { λ opening. Opens opening.0 };
}
