//! What more is printed of a text or a table with a fault, after the line that reports the fault.

use crate::jobs::Job;
use basm::{AsmCode, AsmFault, assemble};
use basm_lex::{is_name, read_mnemonic};
use machine::{MapKind, MapSizes};
use policy::{Policy, PolicyFault, PortRule, TableVersion, TextFault};
use policy_table::{port_rule_slots, reported_fault, table_slots};
use spw::lines_of;
use std::alloc::{AllocError, Global};

/// How the lines of a text or a table end, and what is between their words.
const TEXT_FORM: &str = "lines end in only a line feed; words are parted by spaces";

/// How the lines of a program's text end.
const LINE_FORM: &str = "lines end in only a line feed";

/// What is printed of a table in place of the text of a program.
const IS_TABLE: &str = "    this is a table of a policy\n";

/// What is printed of the text of a program in place of a table.
const IS_PROGRAM: &str = "    this is the text of a program\n";

/// What is printed of a line that is a bare name.
const LOOSE_NAME: &str = "a label ends in a colon";

/// The most slots of an image.
const MAX_SLOTS: usize = 512;

/// The line of that number of a text, from 1; an empty one if there is none.
fn line_at(text: &str, number: usize) -> &str {
    let mut place: usize = 0;
    for line in lines_of(text) {
        place = place.saturating_add(1);
        if place == number {
            return line;
        }
    }
    ""
}

/// Whether all of a text can be seen: letters, digits and signs, and spaces between them.
fn is_seen(text: &str) -> bool {
    for byte in text.as_bytes() {
        if *byte < b' ' || *byte > b'~' {
            return false;
        }
    }
    true
}

/// Adds the maps as `--maps` writes them.
fn add_list(text: &mut String, sizes: &MapSizes) -> Result<(), AllocError> {
    for map in 0..sizes.maps() {
        if map > 0 {
            text.push(',')?;
        }
        let cells = sizes.cells(map).unwrap_or(0);
        write!(text, "{cells}")?;
        if let Some(MapKind::Peak) = sizes.kind(map) {
            text.push('p')?;
        }
    }
    Ok(())
}

/// Adds which cells each map has.
fn add_cells(text: &mut String, sizes: &MapSizes) -> Result<(), AllocError> {
    for map in 0..sizes.maps() {
        let last = sizes.cells(map).unwrap_or(0).saturating_sub(1);
        text.push_str(if map > 0 { ", " } else { ": " })?;
        match sizes.kind(map) {
            Some(MapKind::Peak) => write!(text, "map {map} is a peak map")?,
            Some(MapKind::Counter) | None => write!(text, "map {map} has cells 0 to {last}")?,
        }
    }
    text.push('\n')
}

/// How many maps the quotas of rules name, at least.
fn maps_of(rules: &[PortRule]) -> u16 {
    let mut maps: u16 = 0;
    for own in rules {
        if let Some(quota) = own.rule.quota {
            maps = maps.max(u16::from(quota.map).saturating_add(1));
        }
    }
    maps
}

/// How many cells of that map the quotas of rules name, at least.
fn cells_of(rules: &[PortRule], map: u16) -> u16 {
    let mut cells: u16 = 1;
    for own in rules {
        if let Some(quota) = own.rule.quota {
            if u16::from(quota.map) == map {
                cells = cells.max(quota.cell.saturating_add(1));
            }
        }
    }
    cells
}

/// The least maps that have the cells of the quotas of rules, if a node can have them.
fn least_maps(alloc: Global, rules: &[PortRule]) -> Result<Option<MapSizes>, AllocError> {
    let mut cells = Vec::new(alloc);
    for map in 0..maps_of(rules) {
        cells.push(cells_of(rules, map))?;
    }
    Ok(MapSizes::new(cells.as_slice()).ok())
}

/// Adds the least list of maps with which a table is read, which was tried.
fn add_least(text: &mut String, alloc: Global, policy: &Policy) -> Result<(), AllocError> {
    let Some(sizes) = least_maps(alloc, policy.rules())? else {
        return text.push_str("    no node has the maps of its quotas\n");
    };
    match policy.fault_for(&sizes) {
        Some(fault) if fault.fault() == PolicyFault::NoCell => Ok(()),
        _ => {
            text.push_str("    --maps ")?;
            add_list(text, &sizes)?;
            text.push_str(" is the least list for its quotas\n")
        }
    }
}

/// Adds that there are no maps. If the table is read, adds the least list for it.
fn add_no_maps(
    text: &mut String,
    alloc: Global,
    table: &str,
    is_on_node: bool,
) -> Result<(), AllocError> {
    if is_on_node {
        return text.push_str("    the node's file has no maps\n");
    }
    text.push_str("    without --maps there are no maps\n")?;
    match Policy::read(alloc, table) {
        Ok(policy) => add_least(text, alloc, &policy),
        Err(_) => Ok(()),
    }
}

/// Adds which cells the maps have.
fn add_maps(
    text: &mut String,
    alloc: Global,
    table: &str,
    sizes: &MapSizes,
    is_on_node: bool,
) -> Result<(), AllocError> {
    if sizes.maps() == 0 {
        return add_no_maps(text, alloc, table, is_on_node);
    }
    text.push_str(if is_on_node {
        "    the node's file says "
    } else {
        "    --maps says "
    })?;
    add_list(text, sizes)?;
    add_cells(text, sizes)
}

/// Adds that each rule in the lines from `first` to `last` takes this many slots.
fn add_cost(text: &mut String, first: usize, last: usize, slots: u8) -> Result<(), AllocError> {
    if first == last {
        write!(text, "    the rule of line {first} takes {slots} slots\n")
    } else {
        write!(
            text,
            "    each rule of lines {first} to {last} takes {slots} slots\n"
        )
    }
}

/// Adds how many slots each rule takes.
fn add_costs(text: &mut String, rules: &[PortRule]) -> Result<(), AllocError> {
    let mut same: Option<(usize, usize, u8)> = None;
    for own in rules {
        let slots = port_rule_slots(own);
        same = match same {
            Some((first, _, own_slots)) if own_slots == slots => Some((first, own.line, slots)),
            Some((first, last, own_slots)) => {
                add_cost(text, first, last, own_slots)?;
                Some((own.line, own.line, slots))
            }
            None => Some((own.line, own.line, slots)),
        };
    }
    match same {
        Some((first, last, slots)) => add_cost(text, first, last, slots),
        None => Ok(()),
    }
}

/// Adds what the rules take of a table that is too long.
fn add_length(text: &mut String, alloc: Global, table: &str) -> Result<(), AllocError> {
    let Ok(policy) = Policy::read(alloc, table) else {
        return Ok(());
    };
    add_costs(text, policy.rules())?;
    let slots = table_slots(policy.rules());
    write!(
        text,
        "    all take {slots} slots, with those before and after them"
    )?;
    if policy.version() == TableVersion::One && slots <= MAX_SLOTS {
        text.push_str(": they fit if .version 2 is line 1")?;
    }
    text.push('\n')
}

/// Adds what the line of a fault holds, if it has a word. What cannot be seen is spelled.
fn add_line(text: &mut String, line: &str) -> Result<(), AllocError> {
    if line.trim().is_empty() {
        return Ok(());
    }
    let spelled = line.escape_debug();
    write!(text, "    the line is {spelled}")?;
    if !is_seen(line) {
        write!(text, ": {TEXT_FORM}")?;
    }
    text.push('\n')
}

/// Adds what the line of a fault holds. Of a quota it adds which cells the maps have, and of a rule for which there is
/// no room what all rules take.
fn add_details(
    text: &mut String,
    alloc: Global,
    table: &str,
    sizes: &MapSizes,
    is_on_node: bool,
    fault: TextFault,
) -> Result<(), AllocError> {
    add_line(text, line_at(table, fault.line()))?;
    match fault.fault() {
        PolicyFault::NoCell => add_maps(text, alloc, table, sizes, is_on_node),
        PolicyFault::TooLong => add_length(text, alloc, table),
        PolicyFault::BadRange | PolicyFault::Memory | PolicyFault::BadLine => Ok(()),
    }
}

/// The faults of a table, for a node with maps of these sizes. If the table is to be drawn, the fault that it is too
/// long for a program is left out.
fn faults_of(
    alloc: Global,
    table: &str,
    sizes: &MapSizes,
    is_drawn: bool,
) -> Result<Vec<TextFault>, AllocError> {
    let all = Policy::faults(alloc, table, sizes)?;
    if !is_drawn {
        return Ok(all);
    }
    let mut faults = Vec::new(alloc);
    for fault in all.as_slice() {
        if fault.fault() != PolicyFault::TooLong {
            faults.push(*fault)?;
        }
    }
    Ok(faults)
}

/// Whether the lines of a table have no fault, for a node with maps of these sizes.
///
/// # Errors
///
/// An error if memory is refused.
pub fn is_drawn(alloc: Global, table: &str, sizes: &MapSizes) -> Result<bool, AllocError> {
    let faults = faults_of(alloc, table, sizes, true)?;
    Ok(faults.is_empty())
}

/// What more is printed of the faults of a table. It is what the line holds of the one that is reported, and each other
/// fault in a line of its own. The reported one was printed with its place before, except if the place is to come here.
fn faults_report(
    alloc: Global,
    table: &str,
    sizes: &MapSizes,
    is_on_node: bool,
    faults: &[TextFault],
    is_placed: bool,
) -> Result<String, AllocError> {
    let mut text = String::new(alloc);
    let Some(first) = reported_fault(faults) else {
        return Ok(text);
    };
    if !is_placed {
        add_details(&mut text, alloc, table, sizes, is_on_node, first)?;
    }
    for fault in faults {
        if is_placed || *fault != first {
            write!(text, "    {fault}\n")?;
        }
        if is_placed && *fault == first {
            add_details(&mut text, alloc, table, sizes, is_on_node, first)?;
        }
    }
    Ok(text)
}

/// What is printed of a table that was drawn and is too long for a program. It is empty if the table is not too long.
///
/// # Errors
///
/// An error if memory is refused.
pub fn length_report(alloc: Global, table: &str, sizes: &MapSizes) -> Result<String, AllocError> {
    let mut text = String::new(alloc);
    let faults = Policy::faults(alloc, table, sizes)?;
    match reported_fault(faults.as_slice()) {
        Some(fault) if fault.fault() == PolicyFault::TooLong => {
            write!(text, "    no program has this table: {fault}\n")?;
            add_length(&mut text, alloc, table)?;
        }
        _ => {}
    }
    Ok(text)
}

/// All that is printed of the faults of a table, if the job printed the number of one: where each is.
///
/// # Errors
///
/// An error if memory is refused.
pub fn placed_report(
    alloc: Global,
    table: &str,
    sizes: &MapSizes,
    is_on_node: bool,
) -> Result<String, AllocError> {
    let faults = faults_of(alloc, table, sizes, false)?;
    faults_report(alloc, table, sizes, is_on_node, faults.as_slice(), true)
}

/// Whether a line is a bare name, as of a label without its colon.
fn is_bare_name(line: &str) -> bool {
    let word = line.trim();
    is_name(word) && read_mnemonic(word).is_none()
}

/// Whether a line is this name, in upper or lower case, or begins with it and a colon after it.
fn looks_like(alloc: Global, line: &str, name: &str) -> Result<bool, AllocError> {
    let is_bare = is_bare_name(line);
    let line = line.trim_start().to_ascii_lowercase(alloc)?;
    let name = name.to_ascii_lowercase(alloc)?;
    Ok(match line.as_str().strip_prefix(name.as_str()) {
        Some(rest) => {
            let rest = rest.trim_start();
            rest.starts_with(':') || (is_bare && rest.is_empty())
        }
        None => false,
    })
}

/// Adds the lines of a program's text that look as if they defined this name, except one.
fn add_alike(
    text: &mut String,
    alloc: Global,
    source: &str,
    name: &str,
    own: usize,
) -> Result<(), AllocError> {
    let mut number: usize = 0;
    for line in lines_of(source) {
        number = number.saturating_add(1);
        if number != own && looks_like(alloc, line, name)? {
            let spelled = line.escape_debug();
            write!(text, "    line {number} looks like it: {spelled}\n")?;
        }
    }
    Ok(())
}

/// The last word of a line: what a jump names.
fn last_word(line: &str) -> &str {
    let line = line.trim();
    let line = line.strip_suffix(':').unwrap_or(line);
    match line.rsplit_once([' ', ',']) {
        Some((_, word)) => word,
        None => line,
    }
}

/// What more is printed of the fault of a program's text: its line, with what cannot be seen spelled. If the fault is a
/// name that no line defines, the lines that look like it come too.
///
/// # Errors
///
/// An error if memory is refused.
pub fn text_report(alloc: Global, source: &str) -> Result<String, AllocError> {
    let mut text = String::new(alloc);
    let Err(AsmFault { line: number, code }) = assemble(alloc, source) else {
        return Ok(text);
    };
    let own = number as usize;
    if own == 0 {
        return Ok(text);
    }
    let line = line_at(source, own);
    let spelled = line.escape_debug();
    write!(text, "    line {own} is {spelled}")?;
    if !is_seen(line) {
        write!(text, ": {LINE_FORM}")?;
    } else if code == AsmCode::BadWord && is_bare_name(line) {
        write!(text, ": {LOOSE_NAME}")?;
    }
    text.push('\n')?;
    if let AsmCode::BadLabel = code {
        add_alike(&mut text, alloc, source, last_word(line), own)?;
    }
    Ok(text)
}

/// Whether a job reads tables, with the maps that their rules may name.
fn table_sizes(job: &Job) -> Option<&MapSizes> {
    match job {
        Job::Policy(words) => Some(&words.sizes),
        Job::Decide(words) => Some(&words.sizes),
        Job::Compare(words) => Some(&words.sizes),
        Job::Map(words) => Some(&words.sizes),
        Job::Rehearse(words) => words.sizes(),
        _ => None,
    }
}

/// Whether a text is a table that has a rule.
fn is_table(alloc: Global, text: &str) -> bool {
    match Policy::read(alloc, text) {
        Ok(table) => !table.rules().is_empty(),
        Err(_) => false,
    }
}

/// What more is printed of a job that failed, of the last text that it read, if that is one of a program or a table. It
/// is what the line of its fault holds, and for `policy` also where the fault is. If the text of a program is wanted,
/// it is that the text is a table, and the other way round. It is empty if that text has no fault. Of maps it says
/// whether a node's file says them.
///
/// # Errors
///
/// An error if memory is refused.
pub fn advice(
    alloc: Global,
    job: &Job,
    text: &str,
    is_on_node: bool,
) -> Result<String, AllocError> {
    let Some(sizes) = table_sizes(job) else {
        return match job {
            Job::Assemble(_) if is_table(alloc, text) => String::from_str(alloc, IS_TABLE),
            Job::Assemble(_) => text_report(alloc, text),
            _ => Ok(String::new(alloc)),
        };
    };
    if assemble(alloc, text).is_ok() {
        return String::from_str(alloc, IS_PROGRAM);
    }
    if let Job::Policy(_) = job {
        return placed_report(alloc, text, sizes, is_on_node);
    }
    let is_drawn = matches!(job, Job::Map(_) | Job::Compare(_));
    let faults = faults_of(alloc, text, sizes, is_drawn)?;
    if is_drawn && faults.is_empty() {
        return length_report(alloc, text, sizes);
    }
    faults_report(alloc, text, sizes, is_on_node, faults.as_slice(), false)
}
