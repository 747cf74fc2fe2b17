//! The job `node`.

ghost use Rattle.std.specs.Prelude.{◌≡◌, ◌++◌, ℕ, List, IfErr, IfOk, codes, false, option_map, string_bytes, None, Some};
ghost use Rattle.clap.specs.Walk.{first_of};
ghost use Rattle.job_parts.specs.Matched.{app_of, fields_of, found_of, rows_of};
ghost use Rattle.job_node_file.specs.NodeFileJob.{NamesNodeFile, first_input, node_file_app, second_input};
ghost use Rattle.job_node_file.specs.Printed.{HasEnd, HasNoText, PrintsNodeFile};
ghost use Rattle.job_node_file.specs.Quotas.{lines_asked};
ghost use Rattle.job_parts.specs.Arguments.{Lacks};
ghost use Rattle.job_parts.specs.Statuses.{IsDoneWith};
ghost use Rattle.job_parts.specs.Stops.{StopsBy};
ghost use Rattle.job_parts.specs.Inputs.{AreInputs};

use crate::header::whole_header;
use crate::quotas::{add_quota_lines, asked_quotas, asked_text};
use bver::Accepted;
use clap::{ArgMatches, Command};
use job_config::own_node::OwnNode;
use job_config::reading::{ReadNode, node_in};
use job_parts::arguments::{file, flag, is_flag_set, name_of, option};
use job_parts::inputs::{Content, InputFile, Inputs};
use job_parts::printing::print_text;
use job_parts::status::ExitStatus;
use job_parts::stops::JobStop;
use job_parts::storage::Files;
use job_parts::usage::UsageFault;
use machine::{MapKind, MapSizes};
use node_parts::BankConfig;
use policy_table::Quota;
use std::alloc::{AllocError, Global};
use std::io::Write;

/// Adds where a bank is, and what its journal has room for: `bank EXTENDED FIRST LAST size N journal N`. If the bank
/// begins with bytes, `contents N` comes after that.
fn add_bank(
    text: &mut String,
    number: u8,
    bank: &BankConfig,
    contents: usize,
) -> Result<(), AllocError> {
    let (base, size, room) = (bank.base, bank.size, bank.room);
    let last = base.saturating_add(size.saturating_sub(1));
    write!(
        text,
        "bank {number:02X} {base:08X} {last:08X} size {size} journal {room}"
    )?;
    if contents > 0 {
        write!(text, " contents {contents}")?;
    }
    text.push('\n')
}

/// Adds the banks, a line each.
fn add_banks(text: &mut String, node: &OwnNode) -> Result<(), AllocError> {
    let mut number: u8 = 0;
    for (bank, contents) in node.banks().iter().zip(node.contents()) {
        add_bank(text, number, bank, contents.bytes().len())?;
        number = number.saturating_add(1);
    }
    Ok(())
}

/// Adds how many cells each map has, a line each: `map N cells N`. For a map of the greatest numbers, `peak` comes
/// after that.
fn add_maps(text: &mut String, sizes: &MapSizes) -> Result<(), AllocError> {
    for map in 0..sizes.maps() {
        let cells = sizes.cells(map).unwrap_or(0);
        match sizes.kind(map) {
            Some(MapKind::Peak) => writeln!(text, "map {map} cells {cells} peak")?,
            Some(MapKind::Counter) | None => writeln!(text, "map {map} cells {cells}")?,
        }
    }
    Ok(())
}

/// Adds a publish: `publish N slot N weight N`, with its generation.
fn add_publish(
    text: &mut String,
    generation: usize,
    slot: u8,
    program: &Accepted,
) -> Result<(), AllocError> {
    let weight = program.image().weight();
    writeln!(text, "publish {generation} slot {slot} weight {weight}")
}

/// The lines of a node: its logical address, how many ports it has, and its banks and maps. Then come what the program
/// that judges at first costs at most, and the programs that are published before the first packet.
fn node_text(alloc: Global, node: &OwnNode, program: &Accepted) -> Result<String, AllocError> {
    let mut text = String::new(alloc);
    let (address, ports) = (node.address(), node.ports());
    writeln!(text, "address {address:02X}\nports {ports}")?;
    add_banks(&mut text, node)?;
    add_maps(&mut text, &node.sizes())?;
    let weight = program.image().weight();
    writeln!(text, "program weight {weight}")?;
    let mut generation: usize = 0;
    for (slot, program) in node.publishes() {
        generation = generation.saturating_add(1);
        add_publish(&mut text, generation, *slot, program)?;
    }
    Ok(text)
}

/// The lines of a node, and those of the quotas of its table.
fn whole_lines(
    alloc: Global,
    node: &OwnNode,
    program: &Accepted,
    quotas: &Option<Vec<Quota>>,
) -> Result<String, AllocError>
    ensures { IfOk result (λ text. (begun : List ℕ)
        × (string_bytes text ≡ begun ++ lines_asked (option_map (λ q. q.items) quotas.now))) }
{
    let mut text = node_text(alloc, node, program)?;
    add_quota_lines(&mut text, quotas)?;
    Ok(text)
}

/// The header or the lines of a node.
fn text_of(
    alloc: Global,
    words: &NodeFileWords,
    node: &OwnNode,
    program: &Accepted,
    quotas: &Option<Vec<Quota>>,
) -> Result<String, AllocError>
    ensures { IfOk result (λ text. HasEnd words.now.header node.now program.now
        (option_map (λ q. q.items) quotas.now) (string_bytes text)) }
{
    if words.header {
        whole_header(alloc, node, program, quotas)
    } else {
        whole_lines(alloc, node, program, quotas)
    }
}

/// The words of the job `node`.
#[derive(Debug, Drop)]
pub struct NodeFileWords {
    /// The name of the node's file.
    pub node: String,
    /// Whether a header of C is printed in place of lines.
    pub header: bool,
    /// The name of the file of the table that the node flies, of which the quotas are printed.
    pub table: Option<String>,
}

impl NodeFileWords {
    /// What the job reads: the table, if one is named, and then the node's file. The node's file names the other files.
    pub fn inputs(&self) -> Inputs<'_>
        ensures { AreInputs (first_input self.now) (second_input self.now) None result }
    {
        let node = InputFile::new(self.node.as_str(), Content::Node);
        match &self.table {
            Some(name) => Inputs::of(
                Some(InputFile::new(name.as_str(), Content::Table)),
                Some(node),
            ),
            None => Inputs::of(Some(node), None),
        }
    }
}

/// `node FILE [--c] [--table TABLE]`.
///
/// # Errors
///
/// An error if memory is refused.
pub fn node_file_command<'a>(alloc: Global) -> Result<Command<'a>, AllocError>
    ensures shape { IfOk result (λ c. app_of c ≡ node_file_app) }
    ensures local { IfOk result (λ c. (fields_of c).has_globals ≡ false) }
{
    let about = "Prints the node of a node's file, to be checked, or as a header of C";
    let help = "The node's file, or - for standard input";
    let node = file(alloc, "node", "FILE", help);
    let help = "Prints a header of C, with the banks, the maps and all bytes";
    let header = flag(alloc, "c", help);
    let help = "The policy table that the node flies: prints the limits of its quotas, too";
    let table = option(alloc, "table", "TABLE", help);
    Command::new(alloc, "node")
        .about(about)
        .arg(node)?
        .arg(header)?
        .arg(table)
}

/// The name of the file of the table by `--table`, if the option is given.
fn table_name_of(alloc: Global, found: &ArgMatches) -> Result<Option<String>, AllocError>
    ensures { IfOk result (λ table. first_of (codes "table") (rows_of (found_of found.now))
        ≡ option_map string_bytes table) }
{
    match job_parts::arguments::text_of(found, "table") {
        Some(name) => Ok(Some(String::from_str(alloc, name)?)),
        None => Ok(None),
    }
}

/// The words of `node` with these matches.
///
/// # Errors
///
/// `BadOption` if the matches name no node's file, or `Memory` if memory is refused.
pub fn node_file_job(alloc: Global, found: &ArgMatches) -> Result<NodeFileWords, UsageFault>
    ensures ok { IfOk result (NamesNodeFile (rows_of (found_of found.now))) }
    ensures err { IfErr result (Lacks (codes "node") (rows_of (found_of found.now))) }
{
    let node = name_of(alloc, found, "node")?;
    let header = is_flag_set(found, "c");
    let table = table_name_of(alloc, found)?;
    Ok(NodeFileWords {
        node,
        header,
        table,
    })
}

/// Prints the node of a node's file: its lines, or a header of C, with the limits of the quotas of the table that is
/// named. Nothing is printed of a file with a fault.
///
/// # Errors
///
/// Those of [`asked_text`], then those of [`node_in`], and then those of [`asked_quotas`]. Then `NoMemory` if memory is
/// refused to the text, or the error of `out`.
pub fn print_node_file<'a, F: Files, W: Write>(
    alloc: Global,
    words: &'a NodeFileWords,
    files: &mut F,
    out: &mut W,
) -> Result<ExitStatus, JobStop<'a>>
    ensures done { IfOk result (IsDoneWith (PrintsNodeFile F.reads words.now files.old files.new
        (W.contents out.old) (W.contents out.new))) }
    ensures stops { IfErr result (StopsBy (λ fault.
        HasNoText F.reads words.now files.old files.new fault)) }
    ensures quiet { IfErr result (StopsBy (λ _. W.contents out.new ≡ W.contents out.old)) }
{
    let table = asked_text(alloc, files, words.table.as_deref())?;
    let ReadNode { node, program } = node_in(alloc, files, words.node.as_str())?;
    let quotas = asked_quotas(alloc, table.as_deref(), &node, &program)?;
    let text = text_of(alloc, words, &node, &program, &quotas)?;
    print_text(out, text.as_str())?;
    Ok(ExitStatus::Done)
}
