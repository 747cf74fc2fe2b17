//! The command line.

ghost use Rattle.std.specs.Prelude.{◌≡◌, IfOk, IfErr, Some, option_map};
ghost use Rattle.clap.specs.Simple.{app_of, subcommand_rows_of};
ghost use Rattle.clap.specs.Values.{kind_of};
ghost use Rattle.clap.specs.Walk.{rows_of, texts};
ghost use Rattle.clap.specs.Matches.{found_of};
ghost use Rattle.commands.specs.CommandLine.{rmapctl_app, with_chart_jobs, with_first_jobs, with_packet_jobs, IsNodeJobOf, Names, NamesPlaced, NamesPlain, NamesWork, NamesNone, LacksWork, RefusesMatches, RefusesNodeFile, RefusesPlaced, RefusesPlain, ReportsRefusal};
ghost use Rattle.commands.specs.Words.{name_of_word};

use crate::jobs::Job;
use crate::node_jobs::{NodeJob, beside_file, own_file, with_node_option};
use crate::one_input::reads_input_twice;
use crate::word::SubcommandWord;
use crate::work::Work;
use clap::error::ErrorKind;
use clap::{ArgMatches, Command, Error};
use job_charts::compare::{compare_command, compare_job};
use job_charts::map::{map_command, map_job};
use job_codes::explain::{explain_command, explain_job};
use job_codes::why::why_command;
use job_config::node_lines::node_lines;
use job_decide::decide::{decide_command, decide_job};
use job_live::words::{live_command, live_job};
use job_node_file::node_file::{node_file_command, node_file_job};
use job_nodes::judge::judge_command;
use job_nodes::sim::sim_command;
use job_packets::packet::{packet_command, packet_job};
use job_parts::usage::UsageFault;
use job_ports::serve::serve_command;
use job_rehearse::rehearse::{rehearse_command, rehearse_job};
use job_show::show::{show_command, show_job};
use job_suite::words::{suite_command, suite_job};
use job_texts::asm::{asm_command, asm_job};
use job_texts::dis::{dis_command, dis_job};
use job_texts::images::image_args;
use job_texts::policies::{policy_command, policy_job};
use job_texts::verify::verify_command;
use job_trace::trace::trace_command;
use job_weigh::weigh::{weigh_command, weigh_job};
use std::alloc::{AllocError, Global};

/// What `rmapctl --version` prints.
const VERSION: &str = "1.0+6";

/// The command line with the jobs on programs and on packets in order.
fn with_first_jobs<'a>(alloc: Global, rmapctl: Command<'a>) -> Result<Command<'a>, AllocError>
    ensures { IfOk result (λ c. app_of c ≡ with_first_jobs (app_of rmapctl.entry)) }
{
    let asm = asm_command(alloc)?;
    let dis = dis_command(alloc)?;
    let verify = with_node_option(alloc, verify_command(alloc)?)?;
    let judge = judge_command(alloc)?;
    let policy = with_node_option(alloc, policy_command(alloc)?)?;
    rmapctl
        .subcommand(asm)?
        .subcommand(dis)?
        .subcommand(verify)?
        .subcommand(judge)?
        .subcommand(policy)
}

/// The command line with the jobs that print more of packet lines, and the one on the rules of a table, after others.
fn with_packet_jobs<'a>(alloc: Global, rmapctl: Command<'a>) -> Result<Command<'a>, AllocError>
    ensures { IfOk result (λ c. app_of c ≡ with_packet_jobs (app_of rmapctl.entry)) }
{
    let packet = with_node_option(alloc, packet_command(alloc)?)?;
    let show = show_command(alloc)?;
    let decide = with_node_option(alloc, decide_command(alloc)?)?;
    let trace = trace_command(alloc)?;
    rmapctl
        .subcommand(packet)?
        .subcommand(show)?
        .subcommand(decide)?
        .subcommand(trace)
}

/// The command line with the jobs before a load, and the one that tries a target, after others. The jobs before a load
/// show what tables decide of all commands, and rehearse the load.
fn with_chart_jobs<'a>(alloc: Global, rmapctl: Command<'a>) -> Result<Command<'a>, AllocError>
    ensures { IfOk result (λ c. app_of c ≡ with_chart_jobs (app_of rmapctl.entry)) }
{
    let compare = with_node_option(alloc, compare_command(alloc)?)?;
    let map = with_node_option(alloc, map_command(alloc)?)?;
    let rehearse = rehearse_command(alloc)?;
    let suite = suite_command(alloc)?;
    rmapctl
        .subcommand(compare)?
        .subcommand(map)?
        .subcommand(rehearse)?
        .subcommand(suite)
}

/// The whole command line.
pub(crate) fn command_line<'a>(alloc: Global) -> Result<Command<'a>, AllocError>
    ensures { IfOk result (λ c. app_of c ≡ rmapctl_app) }
{
    let serve = serve_command(alloc)?;
    let sim = sim_command(alloc)?;
    let live = live_command(alloc)?;
    let explain = explain_command(alloc)?;
    let why = with_node_option(alloc, why_command(alloc)?)?;
    let weigh = with_node_option(alloc, weigh_command(alloc)?)?;
    let node = node_file_command(alloc)?;
    let rmapctl = Command::new(alloc, "rmapctl").bin_name("rmapctl")?;
    let about = "An RMAP target whose commands are judged by BPF programs";
    let top = rmapctl
        .about(about)
        .version(VERSION)
        .no_binary_name(true)
        .disable_help_subcommand(true)
        .subcommand_required(true);
    let all = with_first_jobs(alloc, top)?
        .subcommand(serve)?
        .subcommand(sim)?
        .subcommand(live)?
        .subcommand(explain)?
        .subcommand(why)?
        .subcommand(weigh)?
        .subcommand(node)?;
    let reported = with_packet_jobs(alloc, all)?;
    with_chart_jobs(alloc, reported)
}

/// What is printed of words that `clap` refuses.
fn reported(alloc: Global, refusal: &Error) -> UsageFault
    ensures { ReportsRefusal (kind_of refusal.now) result }
{
    if refusal.kind() == ErrorKind::OutOfMemory {
        return UsageFault::Memory;
    }
    match refusal.to_string(alloc) {
        Ok(text) => UsageFault::Parse(text),
        Err(_) => UsageFault::Memory,
    }
}

/// What the subcommand of this word names with its matches, whether they name a node's file or not: a job, or a talk.
fn plain_named(alloc: Global, word: SubcommandWord, rows: &ArgMatches) -> Result<Work, UsageFault>
    ensures ok { IfOk result (NamesPlain (name_of_word word, rows_of (found_of rows.now))) }
    ensures err { IfErr result (RefusesPlain word (rows_of (found_of rows.now))) }
{
    let job = match word {
        SubcommandWord::Live => return Ok(Work::Live(live_job(alloc, rows)?)),
        SubcommandWord::Asm => Job::Assemble(asm_job(alloc, rows)?),
        SubcommandWord::Dis => Job::Disassemble(dis_job(alloc, rows)?),
        SubcommandWord::Verify => Job::Verify(image_args(alloc, rows)?),
        SubcommandWord::Judge => Job::Judge(node_lines(alloc, rows)?),
        SubcommandWord::Policy => Job::Policy(policy_job(alloc, rows)?),
        SubcommandWord::Serve => Job::Serve(node_lines(alloc, rows)?),
        SubcommandWord::Sim => Job::Simulate(node_lines(alloc, rows)?),
        SubcommandWord::Explain => Job::Explain(explain_job(alloc, rows)?),
        SubcommandWord::Why => Job::Why(image_args(alloc, rows)?),
        SubcommandWord::Weigh => Job::Weigh(weigh_job(alloc, rows)?),
        SubcommandWord::Node => Job::Node(node_file_job(alloc, rows)?),
        SubcommandWord::Packet => Job::Packet(packet_job(alloc, rows)?),
        SubcommandWord::Show => Job::Show(show_job(alloc, rows)?),
        SubcommandWord::Decide => Job::Decide(decide_job(alloc, rows)?),
        SubcommandWord::Trace => Job::Trace(node_lines(alloc, rows)?),
        SubcommandWord::Compare => Job::Compare(compare_job(alloc, rows)?),
        SubcommandWord::Map => Job::Map(map_job(alloc, rows)?),
        SubcommandWord::Rehearse => Job::Rehearse(rehearse_job(alloc, rows)?),
        SubcommandWord::Suite => Job::Suite(suite_job(alloc, rows)?),
    };
    Ok(Work::Once(job))
}

/// The job of these matches, or the job for the node of the file that they name.
#[tactic(auto, using(crate::proofs::Placing::spoils_place))]
fn placed_by(alloc: Global, job: Job, rows: &ArgMatches) -> Result<Work, UsageFault>
    ensures ok { IfOk result (IsNodeJobOf job (rows_of (found_of rows.now))) }
    ensures err { IfErr result (RefusesNodeFile (rows_of (found_of rows.now))) }
{
    let Some(name) = own_file(&job, rows) else {
        return Ok(Work::Once(job));
    };
    match beside_file(rows) {
        Some(_) => Err(UsageFault::BadOption),
        None => {
            let node = String::from_str(alloc, name)?;
            Ok(Work::OnNode(NodeJob { job, node }))
        }
    }
}

/// What the subcommand of this word names with its matches, whatever of it is standard input.
#[tactic(auto, using(crate::proofs::Placing::places, crate::proofs::Placing::names_talk, crate::proofs::Placing::is_unplaced, crate::proofs::Placing::is_no_text, crate::proofs::Placing::refuses_plain, crate::proofs::Placing::refuses_place))]
fn placed_named(alloc: Global, word: SubcommandWord, rows: &ArgMatches) -> Result<Work, UsageFault>
    ensures ok { IfOk result (NamesPlaced (Some (name_of_word word, rows_of (found_of rows.now)))) }
    ensures err { IfErr result (RefusesPlaced word (rows_of (found_of rows.now))) }
{
    match plain_named(alloc, word, rows)? {
        Work::Once(job) => placed_by(alloc, job, rows),
        Work::OnNode(_) => unreachable!(),
        Work::Printed(_) => unreachable!(),
        Work::Live(words) => Ok(Work::Live(words)),
    }
}

/// What the subcommand of this word names, with its matches.
#[tactic(auto, using(crate::proofs::Placing::names_apart, crate::proofs::Placing::refuses_placed, crate::proofs::Placing::refuses_input))]
fn work_named(alloc: Global, word: SubcommandWord, rows: &ArgMatches) -> Result<Work, UsageFault>
    ensures ok { IfOk result (Names (Some (name_of_word word, rows_of (found_of rows.now)))) }
    ensures err { IfErr result (RefusesMatches word (rows_of (found_of rows.now))) }
{
    let work = placed_named(alloc, word, rows)?;
    if reads_input_twice(&work) {
        Err(UsageFault::BadOption)
    } else {
        Ok(work)
    }
}

/// The name of the subcommand that was found, and its matches.
fn found_in<'b, 'a>(found: &'b ArgMatches<'a>) -> Option<(&'a str, &'b ArgMatches<'a>)>
    ensures { subcommand_rows_of found.now
        ≡ option_map (λ it. (it.0.now, rows_of (found_of it.1.now))) result }
{
    found.subcommand()
}

/// What the subcommand that was found names.
#[tactic(auto, using(crate::proofs::Matching::names_work, crate::proofs::Matching::lacks_named, crate::proofs::Matching::lacks_word))]
fn work_of(alloc: Global, found: &ArgMatches) -> Result<Work, UsageFault>
    ensures ok { IfOk result (Names (subcommand_rows_of found.now)) }
    ensures err { IfErr result (LacksWork (subcommand_rows_of found.now)) }
{
    let Some((name, rows)) = found_in(found) else {
        return Err(UsageFault::BadOption);
    };
    let Some(word) = SubcommandWord::named(name) else {
        return Err(UsageFault::BadOption);
    };
    work_named(alloc, word, rows)
}

/// What the words of a command line name, without the program's own name: a job over files, or a talk.
///
/// # Errors
///
/// Why words name none.
///
/// - `Parse`, with the text of `clap` for the user: also for `--help`, `-h` and `--version`.
/// - `BadOption`: an option or a code is none, or two files that are read are standard input.
/// - `Memory`: memory is refused.
pub fn words(alloc: Global, words: &[&str]) -> Result<Work, UsageFault>
    ensures ok { IfOk result (NamesWork (texts words.now)) }
    ensures err { IfErr result (NamesNone (texts words.now)) }
{
    let command = command_line(alloc)?;
    match command.try_get_matches_from(words) {
        Ok(found) => work_of(alloc, &found),
        Err(refusal) => Err(reported(alloc, &refusal)),
    }
}
