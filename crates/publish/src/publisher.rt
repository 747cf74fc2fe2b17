//! What changes the table of programs.

ghost use Rattle.std.specs.Prelude.{◌≡◌, ◌<◌, ◌≤◌, ◌^◌, [], length, drop, fold, IfOk, OnOk, OnErr, IfErr, Err};
ghost use mathlib.Core.List.{IsPrefix};
ghost use Rattle.annals.specs.Publishes.{line_loading, publishes_of};
ghost use Rattle.annals.specs.Shown.{AreListed, shown_in};
ghost use Rattle.node_programs.specs.Histories.{entry, longer_history};
ghost use Rattle.node_programs.specs.Published.{sizes_of};
ghost use Rattle.publish.specs.Reached.{reached};

use crate::history::{Front, History};
use crate::loader::LoadRights;
use crate::reported::Told;
use crate::rule::{InFamily, PublishedView, Shows};
use crate::table::Table;
use annals::{Family, Line, PublishedCount};
use bver::{Accepted, MapSizes};
use core::mem::replace_with;
use left_right::writer::Writer;
use node_programs::{LAST_SLOT, ProgramStore, PublishFault};
use std::alloc::{AllocError, Global};
use std::marker::Model;
use std::sync::{Arc, Wait};

/// What changes the table of programs. Contracts see it as the list of what was published, which begins
/// with the factory program. Its end waits for readers.
pub struct Publisher<J: Family, R: Wait + Drop> {
    pub(crate) alloc: Global,
    pub(crate) writer: Writer<Table, Table, PublishedView, InFamily<J>>,
    pub(crate) history: History<J>,
    pub(crate) published_count: Arc<PublishedCount<J>>,
    pub(crate) rt: R,
}

impl<J: Family, R: Wait + Drop> Model for Publisher<J, R> {
    ghost use Rattle.std.specs.Prelude.{◌≡◌, List, [], drop};
    ghost use Rattle.node_programs.specs.declared.publishes.Publish.{Publish};

    ghost Value = { List Publish };

    ghost view = { λ p. p.writer.desk.shown.value.programs };

    ghost invariant = { λ p. (p.history ≡ p.writer.desk.shown.value.programs) × (p.writer.desk.shown.value.family ≡ J.book) × (drop p.writer.behind p.writer.log.items ≡ []) };
}

impl<J: Family, R: Wait + Drop> Drop for Publisher<J, R> {
    fn drop(self) {
        let Self {
            alloc: _,
            writer,
            history: _history,
            published_count: _published_count,
            rt,
        } = self;
        drop(writer.take(&rt));
    }
}

impl<J: Family, R: Wait + Drop> Publisher<J, R> {
    /// The maps for which each program was accepted, with their kinds: those of the factory program.
    pub fn sizes(&self) -> MapSizes
        ensures { result ≡ sizes_of self.now }
    {
        self.writer.published().shown(0).program().sizes()
    }

    /// Publishes a program for a slot, as the line asks, and gives how far the history went then. It may wait for
    /// readers. The condition is a program that was accepted for the maps of the node
    /// ([`Reader::sizes`](crate::Reader::sizes)).
    ///
    /// # Errors
    ///
    /// - `Slot` for a slot above 3.
    /// - `GenerationsFull` after 4,294,967,295 publishes.
    /// - `Memory` if memory was refused.
    ///
    /// What is published stays as it was.
    pub fn install(
        &mut self,
        line: &mut Line<J>,
        slot: u8,
        program: Accepted,
    ) -> Result<Told<J>, PublishFault>
        requires { program.sizes ≡ sizes_of self.old }
        ensures published { OnOk result (self.new ≡ longer_history self.old slot program) }
        ensures reported { IfOk result (λ reported. reported ≡ self.new) }
        ensures same { OnErr result (self.new ≡ self.old) }
        ensures asked { OnOk result (line.new ≡ line_loading line.old (entry slot program)) }
        ensures unasked { OnErr result (line.new ≡ line.old) }
        ensures slot { 3 < slot → result ≡ Err PublishFault.Slot }
        ensures full { slot ≤ 3 → 2 ^ 32 ≤ length self.old
            → result ≡ Err PublishFault.GenerationsFull }
        ensures memory { slot ≤ 3 → length self.old < 2 ^ 32
            → IfErr result (λ fault. fault ≡ PublishFault.Memory) }
    {
        if slot > LAST_SLOT {
            return Err(PublishFault::Slot);
        }
        if self.front().len() > u64::from(u32::MAX) {
            return Err(PublishFault::GenerationsFull);
        }
        let mut table = self.writer.published().copy()?;
        let publish = (slot, Arc::new(self.alloc, program)?);
        // From here on nothing asks for memory, and nothing is refused.
        self.history.add(line, &publish);
        let reported = Told::new(self.history.front());
        table.put(slot, publish.1, self.history.front());
        replace_with(&mut self.writer, (table, &self.rt), |writer, (table, rt)| {
            shown(rt, writer, table)
        });
        self.history.show(&self.published_count);
        Ok(reported)
    }

    /// How far the history goes.
    pub(crate) fn front(&self) -> &Front
        ensures value { result.now ≡ reached J.book self.now }
        ensures some { 0 < length self.now }
    {
        self.writer.published().front()
    }

    /// Publishes the table once more, so that the queue of operations has room from now on.
    #[tactic(auto, using(crate::proofs::Fronts::prefix_same))]
    pub(crate) fn make_room(&mut self) -> Result<(), AllocError>
        ensures { self.new ≡ self.old }
    {
        let table = self.writer.published().copy()?;
        if self.writer.append(table).is_err() {
            return Err(AllocError);
        }
        replace_with(&mut self.writer, &self.rt, |writer, rt| flushed(rt, writer));
        Ok(())
    }

    /// Somebody learns enough of the node's history that it has all that was published, and that readers see all of it.
    pub fn announce(&self, known: &mut annals::Front<J>)
        ensures old { IsPrefix known.old known.new }
        ensures reported { IsPrefix self.now (publishes_of known.new) }
        ensures shown { length self.now ≤ shown_in known.new }
        ensures listed { AreListed known.new }
    {
        self.history.announce(&self.published_count, known);
    }

    /// The publishes that anybody has seen of the node's history begin what was published.
    pub fn knows_all(&mut self, known: &annals::Front<J>)
        ensures begins { IsPrefix (publishes_of known.now) self.old }
        ensures same { self.new ≡ self.old }
    {
        self.history.knows_all(known);
    }

    /// What was reached of the history is a beginning of what was published.
    pub(crate) fn begins_with(&mut self, front: &Front)
        requires { front.now.family ≡ J.book }
        ensures begins { IsPrefix front.now.programs self.old }
        ensures same { self.new ≡ self.old }
    {
        self.history.begins_with(front);
    }
}

/// What is published grows by [`Publisher::install`], which may wait, as the port's line asks, and the port's reader learns of it.
impl<J: Family, R: Wait + Drop> ProgramStore<LoadRights<J>> for Publisher<J, R> {
    ghost use Rattle.std.specs.Prelude.{◌≡◌};
    ghost use Rattle.annals.specs.Publishes.{line_loading};

    ghost published = { λ p. p };

    ghost known = { λ l. l.reader.programs };

    ghost notes = { λ old publish new. new.line ≡ line_loading old.line publish };

    fn sizes(&self) -> MapSizes {
        self.writer.published().shown(0).program().sizes()
    }

    #[tactic(auto, using(crate::proofs::Fronts::learnt))]
    fn publish(
        &mut self,
        _alloc: Global,
        loader: &mut LoadRights<J>,
        slot: u8,
        program: Accepted,
    ) -> Result<u32, PublishFault> {
        let reported = self.install(&mut loader.line, slot, program)?;
        self.begins_with(loader.reader.front());
        loader.reader.learn(&reported);
        Ok(reported.generation())
    }
}

/// The writer after readers see what is pending.
fn flushed<J: Family, R: Wait>(
    rt: &R,
    writer: Writer<Table, Table, PublishedView, InFamily<J>>,
) -> (Writer<Table, Table, PublishedView, InFamily<J>>, ())
    requires family { (fold (λ _ t. t) writer.desk.shown.value
        (drop writer.behind writer.log.items)).family
        ≡ J.book }
    requires longer { IsPrefix writer.desk.shown.value.programs
        (fold (λ _ t. t) writer.desk.shown.value (drop writer.behind writer.log.items)).programs }
    ensures shown { result.0.desk.shown.value
        ≡ fold (λ _ t. t) writer.desk.shown.value (drop writer.behind writer.log.items) }
    ensures pending { drop result.0.behind result.0.log.items ≡ [] }
{
    let mut writer = writer;
    for _ in rt.forever() {
        let (next, done) = writer.publish_as::<Shows, R>(rt);
        writer = next;
        if done.is_ok() {
            break;
        }
    }
    (writer, ())
}

/// The writer after readers see the table.
fn shown<J: Family, R: Wait>(
    rt: &R,
    writer: Writer<Table, Table, PublishedView, InFamily<J>>,
    table: Table,
) -> (Writer<Table, Table, PublishedView, InFamily<J>>, ())
    requires pending { drop writer.behind writer.log.items ≡ [] }
    requires family { table.family ≡ J.book }
    requires longer { IsPrefix writer.desk.shown.value.programs table.programs }
    ensures shown { result.0.desk.shown.value ≡ table }
    ensures pending { drop result.0.behind result.0.log.items ≡ [] }
{
    let mut writer = writer;
    let mut table = table;
    for _ in rt.forever() {
        match writer.append(table) {
            Ok(()) => break,
            Err(back) => table = back,
        }
    }
    flushed(rt, writer)
}
