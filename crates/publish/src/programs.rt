//! A node's table of programs, as it is made.

ghost use Rattle.std.specs.Prelude.{◌≡◌, ◌<◌, ◌≤◌, ◌+◌, ◌∷◌, ◌++◌, [], All, length, map, None, IfOk, OnOk, replicate};
ghost use Rattle.annals.specs.Publishes.{line_loading, publishes_chain, publishes_of};
ghost use Rattle.node_programs.specs.Histories.{entry};
ghost use Rattle.node_programs.specs.Published.{sizes_of};
ghost use Rattle.publish.specs.Firsts.{IsFirstProgram, first_entry, line_with_firsts, programs_with};
ghost use Rattle.publish.specs.Reached.{known};
ghost use Rattle.publish.specs.Lines.{opening_line};

use crate::history::{Front, History, NodeHistory};
use crate::publisher::Publisher;
use crate::reader::Reader;
use crate::rule::{InFamily, PublishedView};
use crate::table::Table;
use annals::{Chain, Family, Line, PublishedCount};
use bver::{Accepted, MapSizes};
use left_right::writer::Writer;
use std::alloc::{AllocError, Global};
use std::sync::{Arc, Wait};

/// A node's programs.
pub struct Programs;

impl Programs {
    /// The programs of a node: what publishes them, that many readers, and the instrument's line of the history, which
    /// asked for the factory program. Each slot begins with that program, of generation 0. The publisher keeps `rt`,
    /// since its end waits for readers.
    ///
    /// # Errors
    ///
    /// `AllocError` if memory was refused, or the history has begun already (no test met that).
    pub fn new<J: Family, R: Wait + Drop>(
        alloc: Global,
        rt: R,
        opened: NodeHistory,
        factory: Accepted,
        readers: u8,
    ) -> Result<(Publisher<J, R>, Vec<Reader<J>>, Line<J>), AllocError>
        requires { opened ≡ J.book }
        ensures publisher { IfOk result (λ made. made.0 ≡ entry 0 factory ∷ []) }
        ensures readers { IfOk result
            (λ made. made.1.items ≡ replicate readers (known (entry 0 factory ∷ []) None)) }
        ensures line { IfOk result (λ made. made.2 ≡ opening_line factory) }
    {
        let (chain, mut line, published_count) = opened.into_publishes()?;
        let (publisher, readers) = Programs::with_chain(
            alloc,
            rt,
            chain,
            published_count,
            &mut line,
            factory,
            &[],
            readers,
        )?;
        Ok((publisher, readers, line))
    }

    /// The programs of a node whose history has chains of banks as well, as [`Programs::new`] makes them. After the
    /// factory program these were published in order, each for its slot, and the readers know of all of them. The line
    /// asks for the factory program and for these.
    ///
    /// The conditions are the chain of its publishes, in which nothing was published, and programs that were accepted
    /// for the maps of the factory program. Others are slots of 0 to 3, and at most 4,294,967,295 publishes.
    ///
    /// # Errors
    ///
    /// `AllocError` if memory was refused.
    pub fn with_chain<J: Family, R: Wait + Drop>(
        alloc: Global,
        rt: R,
        chain: Chain<J>,
        published_count: PublishedCount<J>,
        line: &mut Line<J>,
        factory: Accepted,
        firsts: &[(u8, Accepted)],
        readers: u8,
    ) -> Result<(Publisher<J, R>, Vec<Reader<J>>), AllocError>
        requires number { chain.number ≡ publishes_chain }
        requires none { publishes_of chain.log ≡ [] }
        requires firsts { All (IsFirstProgram factory.sizes) firsts.now }
        requires few { length firsts.now ≤ 4294967295 }
        ensures publisher { IfOk result (λ made. made.0 ≡ programs_with factory firsts.now) }
        ensures readers { IfOk result (λ made.
            made.1.items ≡ replicate readers (known (programs_with factory firsts.now) None)) }
        ensures asked { IfOk result (λ _. line.new
            ≡ line_with_firsts (line_loading line.old (entry 0 factory)) firsts.now) }
        ensures owner { IfOk result (λ _. line.new.port ≡ line.old.port) }
    {
        let sizes = factory.sizes();
        let published_count = Arc::new(alloc, published_count)?;
        let first = (0u8, Arc::new(alloc, factory)?);
        let history = History::begin(chain, line, &first);
        let front = history.front();
        let table = Table::first(first.1, front.again())?;
        let spare = table.copy()?;
        let writer: Writer<Table, Table, PublishedView, InFamily<J>> = Writer::new(
            alloc,
            table,
            spare,
            usize::from(readers.max(1)),
        )?;
        let mut publisher = Publisher {
            alloc,
            writer,
            history,
            published_count,
            rt,
        };
        publisher.make_room()?;
        publisher.history.show(&publisher.published_count);
        install_all(&mut publisher, line, firsts)?;
        let entrances = entrances(
            alloc,
            &publisher.writer,
            &publisher.published_count,
            publisher.front(),
            sizes,
            readers,
        )?;
        Ok((publisher, entrances))
    }
}

/// Publishes programs in order, each for its slot, as the line asks. The conditions are those of [`Publisher::install`], for each of
/// them.
fn install_all<J: Family, R: Wait + Drop>(
    publisher: &mut Publisher<J, R>,
    line: &mut Line<J>,
    firsts: &[(u8, Accepted)],
) -> Result<(), AllocError>
    requires some { 0 < length publisher.old }
    requires firsts { All (IsFirstProgram (sizes_of publisher.old)) firsts.now }
    requires few { length publisher.old + length firsts.now ≤ 4294967296 }
    ensures published { OnOk result (publisher.new ≡ publisher.old ++ map first_entry firsts.now) }
    ensures asked { OnOk result (line.new ≡ line_with_firsts line.old firsts.now) }
    ensures owner { OnOk result (line.new.port ≡ line.old.port) }
{
    for index in 0..firsts.len() {
        let first = &firsts[index];
        let program = first.1.copy()?;
        // It can only be refused memory: the slot is one of four, and a generation is left.
        let Ok(_reported) = publisher.install(line, first.0, program) else {
            return Err(AllocError);
        };
    }
    Ok(())
}

/// That many readers of a table.
fn entrances<J: Family>(
    alloc: Global,
    writer: &Writer<Table, Table, PublishedView, InFamily<J>>,
    published_count: &Arc<PublishedCount<J>>,
    front: &Front,
    sizes: MapSizes,
    readers: u8,
) -> Result<Vec<Reader<J>>, AllocError>
    requires family { front.now.family ≡ J.book }
    requires some { 0 < length front.now.programs }
    requires sizes { sizes ≡ sizes_of front.now.programs }
    ensures { IfOk result (λ made. made.items ≡ replicate readers (known front.now.programs None)) }
{
    let mut entrances = Vec::with_capacity(alloc, usize::from(readers))?;
    for _port in 0..readers {
        let entrance = writer.factory().reader()?;
        entrances.push(Reader::new(entrance, published_count.clone()?, front.again(), sizes))?;
    }
    Ok(entrances)
}
