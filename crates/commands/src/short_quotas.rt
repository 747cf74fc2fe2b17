//! Quotas of a table that let no whole load pass.

ghost use Rattle.std.specs.Prelude.{◌<◌, ◌≤◌};

use bver::{Accepted, verify};
use job_config::own_node::NODE_ADDRESS;
use job_rehearse::askers::{LoadInitiator, askers_of};
use job_rehearse::loaders::LoadSender;
use job_rehearse::passing::{Passing, is_kind, loader_passing};
use machine::MapSizes;
use policy::{Policy, PortRule, RuleKind, compile_policy};
use rmap::{BOOT_WINDOW, Verdict};
use spw::{lines_of, words_of};
use std::alloc::{AllocError, Global};

/// Bytes of the size of the smallest image.
const SMALLEST: [u8; 32] = [0; 32];

/// Whether a rule has a quota of at least one ticket, and lets writes to the boot window pass while tickets are left.
fn may_end_loads(own: &PortRule) -> bool {
    let rule = &own.rule;
    let writes = match rule.kind {
        RuleKind::Write | RuleKind::Any => true,
        RuleKind::Read | RuleKind::Rmw => false,
    };
    let is_place = match rule.extended {
        None => true,
        Some(place) => place == BOOT_WINDOW,
    };
    let has_tickets = match rule.quota {
        Some(quota) => quota.limit > 0,
        None => false,
    };
    writes && is_place && has_tickets && rule.verdict == Verdict::Authorised
}

/// The number of the word of a rule, from 0, that is its quota.
fn quota_word(own: &PortRule) -> usize {
    if own.named { 5 } else { 6 }
}

/// Adds a line with `-` for one of its words.
fn add_freed(text: &mut String, alloc: Global, line: &str, quota: usize) -> Result<(), AllocError> {
    let words = words_of(alloc, line)?;
    let mut number: usize = 0;
    for word in words.as_slice() {
        let word = if number == quota { "-" } else { *word };
        write!(text, "{word} ")?;
        number = number.saturating_add(1);
    }
    text.push('\n')
}

/// A table in which a rule has no quota.
fn freed_of(alloc: Global, table: &str, own: &PortRule) -> Result<String, AllocError> {
    let mut text = String::new(alloc);
    let mut number: usize = 0;
    for line in lines_of(table) {
        number = number.saturating_add(1);
        if number == own.line {
            add_freed(&mut text, alloc, line, quota_word(own))?;
        } else {
            write!(text, "{line}\n")?;
        }
    }
    Ok(text)
}

/// The program of a table; `None` if it compiles to none.
fn judge_of(
    alloc: Global,
    table: &Policy,
    sizes: &MapSizes,
) -> Result<Option<Accepted>, AllocError> {
    let Ok(image) = compile_policy(alloc, table, sizes) else {
        return Ok(None);
    };
    // Only memory can be refused to this: what a table compiles to is accepted.
    match verify(alloc, image, sizes) {
        Ok(judge) => Ok(Some(judge)),
        Err(_) => Err(AllocError),
    }
}

/// Whether a program ever lets a load of the smallest image pass.
fn passes(
    alloc: Global,
    judge: &Accepted,
    asker: LoadInitiator,
    port: u8,
) -> Result<bool, AllocError>
    requires { port < 32 }
{
    let loader = LoadSender {
        port,
        initiator: asker.initiator.byte,
        key: asker.key.byte,
        target: NODE_ADDRESS,
    };
    let passing = loader_passing(alloc, judge, loader, &SMALLEST)?;
    Ok(!is_kind(Passing::Never, passing))
}

/// Whether one program never lets the load pass, and the other does.
fn is_held(
    alloc: Global,
    held: &Accepted,
    freed: &Accepted,
    asker: LoadInitiator,
    port: u8,
) -> Result<bool, AllocError>
    requires { port < 32 }
{
    Ok(!passes(alloc, held, asker, port)? && passes(alloc, freed, asker, port)?)
}

/// Whether it is so for a load by one of these at a port of the node.
fn are_held(
    alloc: Global,
    held: &Accepted,
    freed: &Accepted,
    askers: &[LoadInitiator],
    ports: u8,
) -> Result<bool, AllocError>
    requires { ports ≤ 32 }
{
    for asker in askers {
        for port in 0..ports {
            if is_held(alloc, held, freed, *asker, port)? {
                return Ok(true);
            }
        }
    }
    Ok(false)
}

/// The program of a table without the quota of a rule; `None` if it compiles to none.
fn freed_judge(
    alloc: Global,
    table: &str,
    own: &PortRule,
    sizes: &MapSizes,
) -> Result<Option<Accepted>, AllocError> {
    let text = freed_of(alloc, table, own)?;
    match Policy::read_for(alloc, text.as_str(), sizes) {
        Ok(freed) => judge_of(alloc, &freed, sizes),
        Err(_fault) => Ok(None),
    }
}

/// Adds which rules of a table have a quota that lets no whole load pass, in slot 3 of a node with these maps and
/// ports. For such a rule, one of the table's askers can never load the smallest image, but can if the rule has no
/// quota.
///
/// # Errors
///
/// An error if memory is refused.
pub fn add_short_quotas(
    text: &mut String,
    alloc: Global,
    table: &str,
    sizes: &MapSizes,
    ports: u8,
) -> Result<(), AllocError>
    requires { ports ≤ 32 }
{
    let read = Policy::read_for(alloc, table, sizes).ok();
    let Some(policy) = &read else {
        return Ok(());
    };
    let Some(held) = judge_of(alloc, policy, sizes)? else {
        return Ok(());
    };
    let askers = askers_of(alloc, &read)?;
    for own in policy.rules() {
        if may_end_loads(own)
            && let Some(freed) = freed_judge(alloc, table, own, sizes)?
            && are_held(alloc, &held, &freed, askers.as_slice(), ports)?
        {
            let line = own.line;
            write!(
                text,
                "    rule {line} has a quota that lets no whole load pass\n"
            )?;
        }
    }
    Ok(())
}
