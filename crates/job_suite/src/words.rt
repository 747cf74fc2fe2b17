//! The words of the job `suite`.

ghost use Rattle.std.specs.Prelude.{◌≡◌, IfErr, IfOk, MatchBool, None, codes, false, option_map, string_bytes};
ghost use Rattle.clap.specs.Walk.{first_of};
ghost use Rattle.job_parts.specs.Inputs.{AreInputs, input_value};
ghost use Rattle.job_parts.specs.Matched.{app_of, fields_of, found_of, rows_of};
ghost use Rattle.job_parts.specs.Options.{IsOptionFault};
ghost use Rattle.job_suite.specs.SuiteJob.{AreBeginnings, GivesRanges, GivesRows, GivesSeed, GivesTable, GivesWithout, IsTableWord, NamesSuite, RefusesRanges, RefusesRows, RefusesSeed, RefusesSuite, RefusesTable, RefusesWithout, WritesTable, suite_first_read, name_of_table, node_read, suite_second_read, suite_app};

use crate::ranges::{MemoryRange, at_colon, ranges_written};
use crate::rows::is_beginning;
use clap::{ArgMatches, Command};
use job_config::sources::node_option;
use job_packets::numbers::{number_written, slots_written};
use job_parts::arguments::{flag, is_flag_set, option, text_of};
use job_parts::inputs::{Content, InputFile, Inputs};
use job_parts::usage::UsageFault;
use std::alloc::{AllocError, Global};

/// The table of a slot's program, or of several.
#[derive(Debug, Drop)]
pub struct TableWord {
    /// The slots.
    pub slots: Vec<u8>,
    /// The name of the table's file.
    pub name: String,
}

/// The words of the job `suite`.
#[derive(Debug, Drop)]
pub struct SuiteWords {
    /// The name of the node's file; without it the node is that of which no file says anything.
    pub node: Option<String>,
    /// The number from which fields are drawn.
    pub seed: u32,
    /// The beginning of the names of the rows that are printed. If it is empty, all are.
    pub rows: String,
    /// The beginnings of the names of the rows that are left out, with commas between. If it is empty, none is.
    pub without: String,
    /// The table whose image programs of the node are, if one is named.
    pub table: Option<TableWord>,
    /// Whether the index is printed in place of the lines.
    pub index: bool,
    /// Where memory may change.
    pub within: Vec<MemoryRange>,
    /// Whether the boot window may be written.
    pub loads: bool,
}

impl SuiteWords {
    /// The name of the table's file, if a table is named.
    pub fn table_name(&self) -> Option<&str>
        ensures { option_map (λ n. n.now) result ≡ name_of_table self.now.table }
    {
        match &self.table {
            Some(table) => Some(table.name.as_str()),
            None => None,
        }
    }

    /// The node's file, if there is one.
    fn node_input(&self) -> Option<InputFile<'_>>
        ensures { option_map input_value result ≡ node_read self.now }
    {
        match &self.node {
            Some(name) => Some(InputFile::new(name.as_str(), Content::Node)),
            None => None,
        }
    }

    /// What the job reads: the table, if one is named, and then the node's file, if there is one. That file names the
    /// files beside it.
    pub fn inputs(&self) -> Inputs<'_>
        ensures { AreInputs (suite_first_read self.now) (suite_second_read self.now) None result }
    {
        let node = self.node_input();
        match self.table_name() {
            Some(name) => Inputs::of(Some(InputFile::new(name, Content::Table)), node),
            None => Inputs::of(node, None),
        }
    }
}

/// `suite [--node FILE] [--seed N] [--rows PREFIX] [--without LIST] [--table SLOTS:FILE] [--within LIST] [--loads] [--index]`.
///
/// # Errors
///
/// An error if memory is refused.
pub fn suite_command<'a>(alloc: Global) -> Result<Command<'a>, AllocError>
    ensures shape { IfOk result (λ c. app_of c ≡ suite_app) }
    ensures local { IfOk result (λ c. (fields_of c).has_globals ≡ false) }
{
    let help = "The number by which free fields are drawn, 0 to 4294967295; without it 0";
    let seed = option(alloc, "seed", "N", help);
    let help = "Prints only the rows whose names begin so";
    let rows = option(alloc, "rows", "PREFIX", help);
    let help = "Leaves out the rows whose names begin so, with commas between them";
    let without = option(alloc, "without", "LIST", help);
    let help = "The table of these slots' program: 0 to 3 with commas between them, or all";
    let table = option(alloc, "table", "SLOTS:FILE", help);
    let help = "Where memory may change, HH:LOW-HIGH with commas between them; without it nowhere";
    let within = option(alloc, "within", "LIST", help);
    let help = "The boot window may be written, and programs are loaded";
    let loads = flag(alloc, "loads", help);
    let help = "Prints for each line its number, its row and what it tries";
    let index = flag(alloc, "index", help);
    Command::new(alloc, "suite")
        .about("Prints packet lines that try a target, by the lines of the order of checks")
        .arg(node_option(alloc))?
        .arg(seed)?
        .arg(rows)?
        .arg(without)?
        .arg(table)?
        .arg(within)?
        .arg(loads)?
        .arg(index)
}

/// The name of the node's file, if there is one.
fn node_of(alloc: Global, found: &ArgMatches) -> Result<Option<String>, AllocError>
    ensures { IfOk result (λ node.
        option_map string_bytes node ≡ first_of (codes "node") (rows_of (found_of found.now))) }
{
    match text_of(found, "node") {
        Some(name) => Ok(Some(String::from_str(alloc, name)?)),
        None => Ok(None),
    }
}

/// The seed, and 0 without the option.
///
/// # Errors
///
/// `BadOption` if the value of the option is no number from 0 to 4,294,967,295.
pub fn seed_of(found: &ArgMatches) -> Result<u32, UsageFault>
    ensures ok { IfOk result (GivesSeed (first_of (codes "seed") (rows_of (found_of found.now)))) }
    ensures err { IfErr result (RefusesSeed (rows_of (found_of found.now))) }
{
    let Some(word) = text_of(found, "seed") else {
        return Ok(0);
    };
    match number_written(word, u32::MAX) {
        Some(seed) => Ok(seed),
        None => Err(UsageFault::BadOption),
    }
}

/// The beginning of names of rows that are printed, and no letters without the option.
///
/// # Errors
///
/// `BadOption` if no name of a row begins so, or `Memory` if memory is refused.
pub fn rows_written(alloc: Global, found: &ArgMatches) -> Result<String, UsageFault>
    ensures ok { IfOk result (λ rows.
        GivesRows (first_of (codes "rows") (rows_of (found_of found.now))) (string_bytes rows)) }
    ensures err { IfErr result (RefusesRows (rows_of (found_of found.now))) }
{
    let Some(word) = text_of(found, "rows") else {
        return Ok(String::new(alloc));
    };
    if is_beginning(word) {
        Ok(String::from_str(alloc, word)?)
    } else {
        Err(UsageFault::BadOption)
    }
}

/// Whether each part of a list is a beginning of names of rows.
fn are_beginnings(list: &str) -> bool
    ensures { MatchBool result (AreBeginnings list.now) (¬ AreBeginnings list.now) }
{
    for part in list.split(',') {
        if !is_beginning(part) {
            return false;
        }
    }
    true
}

/// The beginnings of names of rows that are left out, and no letters without the option.
///
/// # Errors
///
/// `BadOption` if no name of a row begins with a part of the list, or `Memory` if memory is refused.
pub fn without_written(alloc: Global, found: &ArgMatches) -> Result<String, UsageFault>
    ensures ok { IfOk result (λ without.
        GivesWithout (first_of (codes "without") (rows_of (found_of found.now))) (string_bytes without)) }
    ensures err { IfErr result (RefusesWithout (rows_of (found_of found.now))) }
{
    let Some(word) = text_of(found, "without") else {
        return Ok(String::new(alloc));
    };
    if are_beginnings(word) {
        Ok(String::from_str(alloc, word)?)
    } else {
        Err(UsageFault::BadOption)
    }
}

/// The table that a word names: `SLOTS:FILE`.
#[tactic(auto, using(crate::proofs::TableWords::no_slots))]
fn table_written(alloc: Global, word: &str) -> Result<TableWord, UsageFault>
    ensures ok { IfOk result (WritesTable word.now) }
    ensures err { IfErr result (IsOptionFault (IsTableWord word.now)) }
{
    let (slots, name) = at_colon(word);
    if name.is_empty() {
        return Err(UsageFault::BadOption);
    }
    match slots_written(alloc, slots) {
        Ok(slots) => Ok(TableWord {
            slots,
            name: String::from_str(alloc, name)?,
        }),
        Err(fault) => Err(fault.usage()),
    }
}

/// The table whose image programs of the node are, if one is named.
///
/// # Errors
///
/// `BadOption` if the value of the option names no table, or `Memory` if memory is refused.
pub fn table_of(alloc: Global, found: &ArgMatches) -> Result<Option<TableWord>, UsageFault>
    ensures ok { IfOk result
        (GivesTable (first_of (codes "table") (rows_of (found_of found.now)))) }
    ensures err { IfErr result (RefusesTable (rows_of (found_of found.now))) }
{
    match text_of(found, "table") {
        Some(word) => Ok(Some(table_written(alloc, word)?)),
        None => Ok(None),
    }
}

/// Where memory may change.
///
/// # Errors
///
/// Those of [`ranges_written`].
pub fn within_of(alloc: Global, found: &ArgMatches) -> Result<Vec<MemoryRange>, UsageFault>
    ensures ok { IfOk result (λ ranges.
        GivesRanges (first_of (codes "within") (rows_of (found_of found.now))) ranges.items) }
    ensures err { IfErr result (RefusesRanges (rows_of (found_of found.now))) }
{
    match text_of(found, "within") {
        Some(text) => ranges_written(alloc, text),
        None => Ok(Vec::new(alloc)),
    }
}

/// The words of `suite` with these matches.
///
/// # Errors
///
/// `BadOption` for the seed, the beginnings of names, the table and the ranges, or `Memory` if memory is refused.
pub fn suite_job(alloc: Global, found: &ArgMatches) -> Result<SuiteWords, UsageFault>
    ensures ok { IfOk result (NamesSuite (rows_of (found_of found.now))) }
    ensures err { IfErr result (RefusesSuite (rows_of (found_of found.now))) }
{
    let node = node_of(alloc, found)?;
    let seed = seed_of(found)?;
    let rows = rows_written(alloc, found)?;
    let without = without_written(alloc, found)?;
    let table = table_of(alloc, found)?;
    let within = within_of(alloc, found)?;
    let loads = is_flag_set(found, "loads");
    let index = is_flag_set(found, "index");
    Ok(SuiteWords {
        node,
        seed,
        rows,
        without,
        table,
        index,
        within,
        loads,
    })
}
