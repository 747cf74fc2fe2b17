//! What the job `suite` does.

ghost use Rattle.std.specs.Prelude.{◌≡◌, ◌++◌, IfErr, IfOk, OnOk, Some, false, option_map, string_bytes};
ghost use Rattle.job_parts.specs.Statuses.{IsDoneWith};
ghost use Rattle.job_parts.specs.Stops.{StopsBy};
ghost use Rattle.node_parts.specs.Nodes.{windows_of};
ghost use Rattle.spw.specs.Line.{marker_word};
ghost use Rattle.job_suite.specs.SuiteFile.{HoldsNoSuiteNode, HoldsSuiteNode, IsBench, IsNoSuite, IsSuitePlainNode, IsSuiteText, PrintsSuite};
ghost use Rattle.job_suite.specs.Tables.{AreTableOf, HasNoChart};
ghost use Rattle.job_suite.specs.Marks.{suite_marked_line};
ghost use Rattle.job_suite.specs.Trials.{AreTrials, trial_lines_of, trial_line, with_lines};

use crate::bodies::body_rows;
use crate::candidates::Candidate;
use crate::charted::Chart;
use crate::effects::effect_rows;
use crate::headers::header_rows;
use crate::index::{add_missing_row, add_missing_verdict, index_of, is_there};
use crate::judges::Judges;
use crate::maker::{Area, Maker};
use crate::pairs::{body_pairs, header_pairs};
use crate::places::{beside_bank, no_bank, no_window};
use crate::rows::{ROWS, SuiteRow, name_of};
use crate::search::{Findings, look_at_bank, look_at_window, program_rows};
use crate::tables::{asked_text, table_of};
use crate::trials::{Bench, Trial};
use crate::window_rows::{load_rows, window_rows};
use crate::words::{SuiteWords, TableWord};
use bver::Accepted;
use job_config::own_node::OwnNode;
use job_config::reading::{ReadNode, node_in};
use job_parts::factory::factory_program;
use job_parts::faults::Fault;
use job_parts::options::no_maps;
use job_parts::printing::print_text;
use job_parts::status::ExitStatus;
use job_parts::stops::JobStop;
use job_parts::storage::Files;
use node_parts::NodeConfig;
use rmap::Windows;
use spw::End;
use std::alloc::{AllocError, Global};
use std::io::Write;

/// The node of which no file says anything, and the factory program.
fn plain_node(alloc: Global) -> Result<ReadNode, AllocError>
    ensures { IfOk result (λ made. IsSuitePlainNode made.node made.program) }
{
    let node = OwnNode::plain(alloc, 1, no_maps())?;
    match factory_program(alloc, no_maps()) {
        Ok(program) => Ok(ReadNode { node, program }),
        // Only memory can be refused to it.
        Err(_) => Err(AllocError),
    }
}

/// The node of these words, and the program that judges in all slots at first.
fn node_of<'a, F: Files>(
    alloc: Global,
    words: &'a SuiteWords,
    files: &mut F,
) -> Result<ReadNode, Fault<'a>>
    ensures held { IfOk result (λ made. HoldsSuiteNode F.reads (option_map string_bytes words.now.node)
        files.old made.node made.program files.new) }
    ensures none { IfErr result (HoldsNoSuiteNode F.reads (option_map string_bytes words.now.node)
        files.old files.new) }
{
    match &words.node {
        Some(name) => node_in(alloc, files, name.as_str()),
        None => Ok(plain_node(alloc)?),
    }
}

/// The drafts of all rows before the program.
fn before_program(
    alloc: Global,
    maker: &mut Maker,
    own: &OwnNode,
    area: Area,
) -> Result<(), AllocError> {
    let banks = own.banks().len().min(255) as u8;
    header_rows(alloc, maker, area)?;
    let mut extended: u8 = 0;
    for bank in own.banks() {
        beside_bank(alloc, maker, Area::of(extended, *bank))?;
        extended = extended.wrapping_add(1);
    }
    no_bank(alloc, maker, area, banks)?;
    no_window(alloc, maker)?;
    header_pairs(alloc, maker, area, banks)
}

/// The drafts of all rows after the program.
fn after_program(
    alloc: Global,
    maker: &mut Maker,
    own: &OwnNode,
    area: Area,
) -> Result<(), AllocError> {
    body_rows(alloc, maker, area)?;
    body_pairs(alloc, maker, area)?;
    let mut extended: u8 = 0;
    for bank in own.banks() {
        effect_rows(alloc, maker, Area::of(extended, *bank))?;
        extended = extended.wrapping_add(1);
    }
    Ok(())
}

/// Which verdicts the programs give.
fn findings_of(
    alloc: Global,
    bench: &Bench,
    maker: &Maker,
    own: &OwnNode,
    chart: &Option<Chart>,
) -> Result<Findings, AllocError> {
    let mut findings = Findings::none(alloc);
    let mut extended: u8 = 0;
    for bank in own.banks() {
        let area = Area::of(extended, *bank);
        look_at_bank(alloc, bench, maker, &mut findings, chart, area)?;
        extended = extended.wrapping_add(1);
    }
    look_at_window(alloc, bench, maker, &mut findings, chart)?;
    Ok(findings)
}

/// The first bank of a node.
fn first_area(own: &OwnNode) -> Area {
    match own.banks().first() {
        Some(bank) => Area::of(0, *bank),
        None => Area {
            extended: 0,
            base: 0,
            size: 0,
        },
    }
}

/// The drafts of all rows, in order, and which verdicts the programs give.
fn candidates_of(
    alloc: Global,
    words: &SuiteWords,
    bench: &Bench,
    chart: &Option<Chart>,
) -> Result<(Vec<Candidate>, Findings), AllocError> {
    let own = &bench.judges.own;
    let mut maker = Maker::new(alloc, own.address(), words.seed);
    let area = first_area(own);
    let findings = findings_of(alloc, bench, &maker, own, chart)?;
    before_program(alloc, &mut maker, own, area)?;
    after_program(alloc, &mut maker, own, area)?;
    program_rows(alloc, &mut maker, &findings)?;
    window_rows(alloc, &mut maker, &bench.judges)?;
    load_rows(alloc, &mut maker, &bench.judges)?;
    Ok((maker.into_candidates(), findings))
}

/// Whether a name begins with a part of a list. An empty list has no parts.
fn is_left_out(name: &str, list: &str) -> bool {
    if list.is_empty() {
        return false;
    }
    for part in list.split(',') {
        if name.starts_with(part) {
            return true;
        }
    }
    false
}

/// Whether a row is one of those that the words name.
fn is_wanted(alloc: Global, words: &SuiteWords, row: SuiteRow) -> Result<bool, AllocError> {
    let name = name_of(alloc, row)?;
    let name = name.as_str();
    Ok(name.starts_with(words.rows.as_str()) && !is_left_out(name, words.without.as_str()))
}

/// Adds a line for each verdict whose row the words name, and for each slot that has no packet of it.
fn add_missing_verdicts(
    text: &mut String,
    alloc: Global,
    words: &SuiteWords,
    trials: &[Trial],
    findings: &Findings,
) -> Result<(), AllocError> {
    for verdict in [0_u64, 3, 10, 12] {
        if is_wanted(alloc, words, SuiteRow::Program(verdict))? {
            for slot in 0..4_u8 {
                add_missing_verdict(text, findings, trials, slot, verdict)?;
            }
        }
    }
    Ok(())
}

/// Adds a line for each row that the words name and that has no packet.
fn add_missing_rows(
    text: &mut String,
    alloc: Global,
    words: &SuiteWords,
    trials: &[Trial],
) -> Result<(), AllocError> {
    for row in ROWS {
        if is_wanted(alloc, words, row)? && !is_there(row, trials) {
            add_missing_row(alloc, text, row)?;
        }
    }
    Ok(())
}

/// Those drafts whose rows the words name.
fn wanted_candidates(
    alloc: Global,
    words: &SuiteWords,
    candidates: Vec<Candidate>,
) -> Result<Vec<Candidate>, AllocError> {
    let mut wanted = Vec::new(alloc);
    for candidate in candidates {
        if is_wanted(alloc, words, candidate.row)? {
            wanted.push(candidate)?;
        }
    }
    Ok(wanted)
}

/// The word of the end of a packet.
fn mark_of(end: End) -> &'static str
    ensures { result.now ≡ marker_word end }
{
    match end {
        End::Eop => "EOP",
        End::Eep => "EEP",
    }
}

/// Adds a line of a port, these digits and this word.
fn add_marked(text: &mut String, port: u8, digits: &str, mark: &str) -> Result<(), AllocError>
    ensures { OnOk result
        (string_bytes text.new ≡ string_bytes text.old ++ suite_marked_line port digits.now mark.now) }
{
    writeln!(text, "{port} {digits} {mark}")
}

/// Adds the packet line of a packet at port 0.
fn add_line(text: &mut String, alloc: Global, trial: &Trial) -> Result<(), AllocError>
    ensures { OnOk result (string_bytes text.new ≡ string_bytes text.old ++ trial_line trial.now) }
{
    let digits = hex::encode_upper(alloc, trial.packet.bytes())?;
    let mark = mark_of(trial.packet.end());
    add_marked(text, 0, digits.as_str(), mark)?;
    Ok(())
}

/// Adds the packet lines of these packets.
fn add_lines(text: &mut String, alloc: Global, trials: &[Trial]) -> Result<(), AllocError>
    ensures { OnOk result (string_bytes text.new ≡ with_lines (string_bytes text.old) trials.now) }
{
    for trial in trials {
        add_line(text, alloc, trial)?;
    }
    Ok(())
}

/// The packet lines of these packets.
fn trial_lines_of(alloc: Global, trials: &[Trial]) -> Result<String, AllocError>
    ensures { IfOk result (λ text. string_bytes text ≡ trial_lines_of trials.now) }
{
    let mut text = String::new(alloc);
    add_lines(&mut text, alloc, trials)?;
    Ok(text)
}

/// The address of a node, and where its banks are.
#[tactic(auto, using(crate::proofs::BankLimits::at_most_eight))]
fn windows_of(own: &OwnNode) -> Windows
    ensures { result ≡ windows_of own.now.address own.now.banks }
{
    let config = NodeConfig {
        address: own.address(),
        ports: own.ports(),
        banks: own.banks(),
        sizes: own.sizes(),
    };
    config.windows()
}

/// What the suite is for.
fn bench_of(
    alloc: Global,
    words: &SuiteWords,
    own: OwnNode,
    first: Accepted,
) -> Result<Bench, AllocError>
    ensures { IfOk result (IsBench words.now own first) }
{
    let ranges = Vec::from_slice(alloc, words.within.as_slice())?;
    Ok(Bench {
        windows: windows_of(&own),
        judges: Judges::of(own, first),
        ranges,
        loads: words.loads,
    })
}

/// The text of a suite for a node of that logical address: its lines, or its index.
fn text_of(
    alloc: Global,
    words: &SuiteWords,
    address: u8,
    trials: &[Trial],
    findings: &Findings,
) -> Result<String, AllocError>
    ensures { IfOk result (λ text. words.now.index ≡ false
        → string_bytes text ≡ trial_lines_of trials.now) }
{
    if words.index {
        let mut text = index_of(alloc, address, trials)?;
        add_missing_verdicts(&mut text, alloc, words, trials, findings)?;
        add_missing_rows(&mut text, alloc, words, trials)?;
        Ok(text)
    } else {
        trial_lines_of(alloc, trials)
    }
}

/// The packets of a suite, and which verdicts the programs give.
fn trials_of(
    alloc: Global,
    words: &SuiteWords,
    bench: &Bench,
    chart: &Option<Chart>,
) -> Result<(Vec<Trial>, Findings), AllocError>
    ensures { IfOk result (λ made. AreTrials bench.now made.0.items) }
{
    let (candidates, findings) = candidates_of(alloc, words, bench, chart)?;
    let candidates = wanted_candidates(alloc, words, candidates)?;
    let askers = findings.askers(alloc)?;
    let trials = bench.trials(alloc, candidates.as_slice(), askers.as_slice())?;
    Ok((trials, findings))
}

/// The text of a suite.
fn suite_text(
    alloc: Global,
    words: &SuiteWords,
    bench: &Bench,
    chart: &Option<Chart>,
) -> Result<String, AllocError>
    ensures { IfOk result (λ text. IsSuiteText words.now bench.now (string_bytes text)) }
{
    let (trials, findings) = trials_of(alloc, words, bench, chart)?;
    let address = bench.judges.own.address();
    text_of(alloc, words, address, trials.as_slice(), &findings)
}

/// The chart of the table with this text, if a table is named.
fn chart_of<'a>(
    alloc: Global,
    table: &Option<TableWord>,
    text: &Option<String>,
    judges: &Judges,
) -> Result<Option<Chart>, Fault<'a>>
    ensures ok { IfOk result (λ _. AreTableOf judges.now judges.now.own.sizes table.now
        (option_map string_bytes text.now)) }
    ensures err { IfErr result (HasNoChart judges.now judges.now.own.sizes table.now
        (option_map string_bytes text.now)) }
{
    match (table, text) {
        (Some(table), Some(text)) => {
            let slots = table.slots.as_slice();
            let policy = table_of(alloc, text.as_str(), slots, judges, &judges.own.sizes())?;
            Ok(Some(Chart::of(alloc, &policy, slots)?))
        }
        (None, _) | (Some(_), None) => Ok(None),
    }
}

/// Prints the packet lines of a suite, or its index.
///
/// # Errors
///
/// The faults of the table's file, of the node's file, and of the table; then `NoMemory`.
pub fn suite_file<'a, F: Files, W: Write>(
    alloc: Global,
    words: &'a SuiteWords,
    files: &mut F,
    out: &mut W,
) -> Result<ExitStatus, JobStop<'a>>
    ensures done { IfOk result (IsDoneWith (PrintsSuite F.reads words.now files.old files.new
        (W.contents out.old) (W.contents out.new))) }
    ensures stops { IfErr result (StopsBy (IsNoSuite F.reads words.now files.old files.new)) }
    ensures quiet { IfErr result (StopsBy (λ _. W.contents out.new ≡ W.contents out.old)) }
{
    let table = asked_text(alloc, files, words.table_name())?;
    let ReadNode { node, program } = node_of(alloc, words, files)?;
    let bench = bench_of(alloc, words, node, program)?;
    let chart = chart_of(alloc, &words.table, &table, &bench.judges)?;
    let text = suite_text(alloc, words, &bench, &chart)?;
    print_text(out, text.as_str())?;
    Ok(ExitStatus::Done)
}
