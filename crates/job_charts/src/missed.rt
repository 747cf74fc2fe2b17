//! Rules of a table that match no command of a node.

ghost use Rattle.std.specs.Prelude.{◌≡◌, ◌++◌, ◌∷◌, [], IfOk, MatchBool, OnOk};
ghost use Rattle.std.specs.Option.{option_or};
ghost use Rattle.job_charts.specs.Missed.{AddsBank, ArePlaces, IsMissed, MeetsNone, MeetsPlace, MissesPlaces, bank_missed, bank_rules, boot_rules, port_missed, range_missed, window_rule};
ghost use Rattle.chart_lines.specs.Reporting.{PrintsFirst};

use charts::is_stopped_by;
use policy_table::{PortRule, Rule, RuleKind};
use rmap::{BOOT_WINDOW, LOAD_REGISTER, LOAD_RESULT_SIZE, STAGING_SIZE, Verdict, Windows};
use std::alloc::{AllocError, Global};

/// The most banks of a node.
const BANKS: u8 = 8;

/// Why a rule matches no command of a node.
#[derive(Clone, Copy, Debug, PartialEq, Eq)]
pub enum Missed {
    /// The node does not have its port.
    Port(u8),
    /// The node does not have the bank of its extended address.
    Bank(u8),
    /// No bank, and nothing of the boot window, has a byte of its range.
    Range,
}

/// A rule of all commands to this many bytes from an address on.
fn window_rule(extended: u8, base: u32, size: u32) -> Rule
    ensures { result ≡ window_rule extended base size }
{
    Rule {
        kind: RuleKind::Any,
        key: None,
        initiator: None,
        extended: Some(extended),
        low: base,
        high: base.saturating_add(size.saturating_sub(1)),
        quota: None,
        verdict: Verdict::Authorised,
    }
}

/// Adds the rule of all commands to a bank, if there is one.
fn push_window(
    places: &mut Vec<Rule>,
    number: u8,
    own: Option<(u32, u32)>,
) -> Result<(), AllocError>
    ensures { OnOk result (places.new.items ≡ places.old.items ++ bank_rules number own) }
{
    if let Some((base, size)) = own {
        places.push(window_rule(number, base, size))?;
    }
    Ok(())
}

/// Adds the rule of all commands to the bank of a number, if there is one.
fn push_bank(places: &mut Vec<Rule>, windows: &Windows, number: u8) -> Result<(), AllocError>
    ensures { OnOk result (AddsBank windows.now number places.old.items places.new.items) }
{
    push_window(places, number, windows.bank(number))
}

/// The rules of all commands to each bank.
fn bank_places(alloc: Global, windows: &Windows) -> Result<Vec<Rule>, AllocError>
    ensures { IfOk result (λ places. PrintsFirst (AddsBank windows.now) 8 [] places.items) }
{
    let mut places = Vec::new(alloc);
    for number in 0..BANKS {
        push_bank(&mut places, windows, number)?;
    }
    Ok(places)
}

/// The rules of all commands to the boot window.
fn boot_rules() -> [Rule; 2]
    ensures { result ≡ boot_rules }
{
    [
        window_rule(BOOT_WINDOW, 0, STAGING_SIZE),
        window_rule(BOOT_WINDOW, LOAD_REGISTER, LOAD_RESULT_SIZE),
    ]
}

/// A rule of all commands to each place of a node.
fn places_of(alloc: Global, windows: &Windows) -> Result<Vec<Rule>, AllocError>
    ensures { IfOk result (λ places. ArePlaces windows.now places.items) }
{
    let mut places = bank_places(alloc, windows)?;
    places.extend_from_slice(&boot_rules())?;
    Ok(places)
}

/// Rules with one more after them.
fn with_rule(alloc: Global, places: &[Rule], own: &Rule) -> Result<Vec<Rule>, AllocError>
    ensures { IfOk result (λ rules. rules.items ≡ places.now ++ own.now ∷ []) }
{
    let mut rules = Vec::from_slice(alloc, places)?;
    rules.push(*own)?;
    Ok(rules)
}

/// Whether the last rule of some holds at a command that one of the `places` rules before it is the first to hold at.
fn meets_place(rules: &[Rule], places: usize) -> bool
    ensures { MatchBool result (MeetsPlace rules.now places) (MissesPlaces rules.now places places) }
{
    for number in 0..places {
        if is_stopped_by(rules, number, places) {
            return true;
        }
    }
    false
}

/// Whether a rule holds at no command of a node.
fn meets_none(alloc: Global, windows: &Windows, own: &Rule) -> Result<bool, AllocError>
    ensures { IfOk result (MeetsNone windows.now own.now) }
{
    let places = places_of(alloc, windows)?;
    let rules = with_rule(alloc, places.as_slice(), own)?;
    Ok(!meets_place(rules.as_slice(), places.len()))
}

/// That a port is none of this many, if it is so.
fn port_missed(ports: u8, port: Option<u8>) -> Option<Missed>
    ensures { result ≡ port_missed ports port }
{
    let port = port?;
    if port < ports {
        None
    } else {
        Some(Missed::Port(port))
    }
}

/// That an extended address is of no bank, and not of the boot window, if it is so.
fn bank_missed(windows: &Windows, number: Option<u8>) -> Option<Missed>
    ensures { result ≡ bank_missed windows.now number }
{
    let number = number?;
    if number == BOOT_WINDOW || windows.bank(number).is_some() {
        None
    } else {
        Some(Missed::Bank(number))
    }
}

/// That a rule holds at no command of a node, if it is so.
fn range_missed(missed: bool) -> Option<Missed>
    ensures { result ≡ range_missed missed }
{
    if missed { Some(Missed::Range) } else { None }
}

/// The first of three reasons that there is.
fn first_of(port: Option<Missed>, bank: Option<Missed>, range: Option<Missed>) -> Option<Missed>
    ensures { result ≡ option_or port (option_or bank range) }
{
    match port {
        Some(port) => Some(port),
        None => match bank {
            Some(bank) => Some(bank),
            None => range,
        },
    }
}

/// Why a rule matches no command of a node with these windows and this many ports. It is `None` if the rule matches
/// one, unless rules before it do.
///
/// # Errors
///
/// An error if memory is refused.
pub fn why_missed(
    alloc: Global,
    windows: &Windows,
    ports: u8,
    own: &PortRule,
) -> Result<Option<Missed>, AllocError>
    ensures { IfOk result (IsMissed windows.now ports own.now) }
{
    let range = meets_none(alloc, windows, &own.rule)?;
    let port = port_missed(ports, own.port);
    let bank = bank_missed(windows, own.rule.extended);
    Ok(first_of(port, bank, range_missed(range)))
}
