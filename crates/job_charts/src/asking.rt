//! The commands of which a chart is asked.

ghost use Rattle.std.specs.Prelude.{◌≡◌, ℕ, IfErr, IfOk, MatchOption, MatchResult, codes, false, map, option_map};
ghost use Rattle.clap.specs.Simple.{app_of};
ghost use Rattle.clap.specs.declared.builder.command.Command.TheViews.{out-Command as fields_of};
ghost use Rattle.clap.specs.Walk.{first_of, rows_of};
ghost use Rattle.clap.specs.Matches.{found_of};
ghost use Rattle.job_packets.specs.HexWords.{Has};
ghost use Rattle.job_parts.specs.Options.{IsBadValue, IsOptionFault};
ghost use Rattle.policy_table.specs.Fields.{IsKind};
ghost use Rattle.policy_table.specs.declared.rules.RuleKind.{RuleKind};
ghost use Rattle.regions.specs.Points.{HasCommand};
ghost use Rattle.regions.specs.Regions.{lies_in};
ghost use Rattle.regions.specs.declared.points.Point.{Point};
ghost use Rattle.charts.specs.Points.{holds_at};
ghost use Rattle.job_charts.specs.ChartScope.{AreAddresses, GivesAddresses, GivesAsking, GivesByte, GivesKind, GivesOwnPort, HasAddresses, dash_parts, is_all, with_asking};

use charts::region_of;
use clap::{ArgMatches, Command};
use job_packets::hex_words::hex_written;
use job_parts::arguments::{option, text_of};
use job_parts::usage::UsageFault;
use policy_table::{Rule, RuleKind};
use regions::PointRegion;
use rmap::Verdict;
use spw::read_port;
use std::alloc::{AllocError, Global};

/// The commands of which a chart is asked.
#[derive(Clone, Copy, Debug)]
pub struct ChartScope {
    /// A rule whose words they meet. Its quota and its verdict say nothing.
    pub rule: Rule,
    /// The port at which they come in; each without it.
    pub port: Option<u8>,
}

impl ChartScope {
    /// Whether all commands are asked of.
    pub fn is_all(&self) -> bool
        ensures { result ≡ is_all self.now }
    {
        let rule = &self.rule;
        self.port.is_none()
            && rule.kind == RuleKind::Any
            && rule.key.is_none()
            && rule.initiator.is_none()
            && rule.extended.is_none()
            && rule.low == 0
            && rule.high == u32::MAX
    }

    /// The points of these commands.
    pub fn region(&self) -> PointRegion
        ensures { (p : Point) → HasCommand p → lies_in result p ≡ holds_at self.now.rule p }
    {
        region_of(&self.rule)
    }
}

/// The subcommand with the options that say of which commands a chart is asked.
///
/// # Errors
///
/// An error if memory is refused.
pub fn asking_arguments<'a>(alloc: Global, command: Command<'a>) -> Result<Command<'a>, AllocError>
    requires { (fields_of command).has_globals ≡ false }
    ensures shape { IfOk result (λ c. app_of c ≡ with_asking (app_of command.entry)) }
    ensures local { IfOk result (λ c. (fields_of c).has_globals ≡ false) }
{
    let help = "Only commands of this kind: read, write or rmw; of any without it";
    let kind = option(alloc, "kind", "KIND", help);
    let key = option(alloc, "key", "HH", "Only commands with this key");
    let help = "Only commands of this initiator";
    let initiator = option(alloc, "initiator", "HH", help);
    let help = "Only commands with this extended address";
    let extended = option(alloc, "extended", "HH", help);
    let help = "Only commands whose bytes lie in RANGE: LOW-HIGH, or one address";
    let address = option(alloc, "address", "RANGE", help);
    let help = "Only commands that come in at this port, 0 to 31";
    let port = option(alloc, "port", "N", help);
    command
        .arg(kind)?
        .arg(key)?
        .arg(initiator)?
        .arg(extended)?
        .arg(address)?
        .arg(port)
}

/// The kind that a word writes.
fn kind_written(word: &str) -> Option<RuleKind>
    ensures { MatchOption result ((kind : RuleKind) → ¬ IsKind word.now kind) (IsKind word.now) }
{
    match word {
        "read" => Some(RuleKind::Read),
        "write" => Some(RuleKind::Write),
        "rmw" => Some(RuleKind::Rmw),
        "any" => Some(RuleKind::Any),
        _ => None,
    }
}

/// The kind by `--kind`; any without it.
fn kind_of(found: &ArgMatches) -> Result<RuleKind, UsageFault>
    ensures { MatchResult result
        (GivesKind (first_of (codes "kind") (rows_of (found_of found.now))))
        (IsBadValue (Has (GivesKind (first_of (codes "kind") (rows_of (found_of found.now)))))) }
{
    let Some(word) = text_of(found, "kind") else {
        return Ok(RuleKind::Any);
    };
    match kind_written(word) {
        Some(kind) => Ok(kind),
        None => Err(UsageFault::BadOption),
    }
}

/// The byte by the option of this name, of at most two hexadecimal digits; none without it.
fn byte_of(found: &ArgMatches, name: &str) -> Result<Option<u8>, UsageFault>
    ensures { MatchResult result
        (GivesByte (first_of name.now (rows_of (found_of found.now))))
        (IsBadValue (Has (GivesByte (first_of name.now (rows_of (found_of found.now)))))) }
{
    let Some(word) = text_of(found, name) else {
        return Ok(None);
    };
    match hex_written(word, 2) {
        Some(byte) => Ok(Some(byte as u8)),
        None => Err(UsageFault::BadOption),
    }
}

/// The parts of a word between its hyphens.
fn parts_of(alloc: Global, word: &str) -> Result<Vec<&str>, AllocError>
    ensures { IfOk result (λ parts. map (λ part. part.now) parts.items ≡ dash_parts word.now) }
{
    word.split('-').collect(alloc)
}

/// The first and the last address that one word or two write.
fn addresses_written(parts: &[&str]) -> Option<(u32, u32)>
    ensures { MatchOption result (¬ HasAddresses (map (λ part. part.now) parts.now))
        (λ both. AreAddresses (map (λ part. part.now) parts.now) both.0 both.1) }
{
    match parts {
        [one] => match hex_written(one, 8) {
            Some(low) => Some((low, low)),
            None => None,
        },
        [one, other] => match hex_written(one, 8) {
            Some(low) => match hex_written(other, 8) {
                Some(high) => if low <= high { Some((low, high)) } else { None },
                None => None,
            },
            None => None,
        },
        _ => None,
    }
}

/// The first and the last address by `--address`; all without it.
fn addresses_of(alloc: Global, found: &ArgMatches) -> Result<(u32, u32), UsageFault>
    ensures ok { IfOk result (λ both.
        GivesAddresses (first_of (codes "address") (rows_of (found_of found.now))) both.0 both.1) }
    ensures err { IfErr result (IsOptionFault (Has (λ (both : ℕ × ℕ).
        GivesAddresses (first_of (codes "address") (rows_of (found_of found.now))) both.0 both.1))) }
{
    let Some(word) = text_of(found, "address") else {
        return Ok((0, u32::MAX));
    };
    let parts = parts_of(alloc, word)?;
    match addresses_written(parts.as_slice()) {
        Some(both) => Ok(both),
        None => Err(UsageFault::BadOption),
    }
}

/// The port by `--port`, if it is there.
fn port_of(found: &ArgMatches) -> Result<Option<u8>, UsageFault>
    ensures { MatchResult result
        (GivesOwnPort (first_of (codes "port") (rows_of (found_of found.now))))
        (IsBadValue (Has (GivesOwnPort (first_of (codes "port") (rows_of (found_of found.now)))))) }
{
    let Some(word) = text_of(found, "port") else {
        return Ok(None);
    };
    match read_port(word) {
        Ok(port) => Ok(Some(port)),
        Err(_) => Err(UsageFault::BadOption),
    }
}

/// The commands that are asked of by the matches.
///
/// # Errors
///
/// `BadOption` if the value of an option is none of that option, or `Memory` if memory is refused.
pub fn asking_of(alloc: Global, found: &ArgMatches) -> Result<ChartScope, UsageFault>
    ensures ok { IfOk result (GivesAsking (rows_of (found_of found.now))) }
    ensures err { IfErr result (IsOptionFault (Has (GivesAsking (rows_of (found_of found.now))))) }
{
    let kind = kind_of(found)?;
    let key = byte_of(found, "key")?;
    let initiator = byte_of(found, "initiator")?;
    let extended = byte_of(found, "extended")?;
    let (low, high) = addresses_of(alloc, found)?;
    let port = port_of(found)?;
    let rule = Rule {
        kind,
        key,
        initiator,
        extended,
        low,
        high,
        quota: None,
        verdict: Verdict::Authorised,
    };
    Ok(ChartScope { rule, port })
}
