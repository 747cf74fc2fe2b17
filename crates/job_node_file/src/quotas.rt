//! The quotas of the table that a node flies: what a program in flight reads its counters against.

ghost use Rattle.std.specs.Prelude.{◌≡◌, ◌++◌, IfErr, IfOk, OnOk, Some, length, option_map, string_bytes};
ghost use Rattle.std.specs.List.{flat_map};
ghost use Rattle.job_config.specs.Reads.{EndsForFault};
ghost use Rattle.job_node_file.specs.Quotas.{AreQuotasOf, AreNotAsked, AreQuotas, IsNoQuotas, IsTableFault, ReadsAsked, ReadsNotAsked, c_asked, c_quotas, header_end, is_flown, is_image, is_published, lines_asked, quota_line, quota_list, quota_row, quota_rows, quotas_head, quotas_in};
ghost use Rattle.job_parts.specs.declared.node_codes.NodeCode.TheVariants.{Program as NoImage};
ghost use Rattle.policy.specs.Compiled.{IsPortCompiled};
ghost use Rattle.policy_table.specs.Policies.{WritesPolicy};
ghost use Rattle.spw.specs.Line.{lines_of};

use bpf::Image;
use bver::Accepted;
use job_config::own_node::OwnNode;
use job_parts::faults::Fault;
use job_parts::node_codes::NodeCode;
use job_parts::programs::text_in;
use job_parts::storage::Files;
use machine::MapSizes;
use policy::{Policy, PortRule, TextFault, compile_policy};
use policy_table::Quota;
use std::alloc::{AllocError, Global};

/// The quotas of rules, in their order.
fn quotas_in(alloc: Global, rules: &[PortRule]) -> Result<Vec<Quota>, AllocError>
    ensures { IfOk result (λ quotas. quotas.items ≡ quotas_in rules.now) }
{
    let mut quotas = Vec::new(alloc);
    for own in rules {
        if let Some(quota) = own.rule.quota {
            quotas.push(quota)?;
        }
    }
    Ok(quotas)
}

/// Whether these bytes are the image of a program.
fn is_image(image: &[u8], program: &Accepted) -> Result<bool, AllocError>
    ensures { IfOk result (λ is. is ≡ is_image image.now program.now) }
{
    let bytes = program.image().write()?;
    Ok(image == bytes.as_slice())
}

/// Whether these bytes are the image of a program that is published.
fn is_published(image: &[u8], publishes: &[(u8, Accepted)]) -> Result<bool, AllocError>
    ensures { IfOk result (λ is. is ≡ is_published image.now publishes.now) }
{
    for publish in publishes {
        if is_image(image, &publish.1)? {
            return Ok(true);
        }
    }
    Ok(false)
}

/// Whether these bytes are the image of the program that judges at first, or of one that is published.
fn is_flown(
    image: &[u8],
    first: &Accepted,
    publishes: &[(u8, Accepted)],
) -> Result<bool, AllocError>
    ensures { IfOk result (λ is. is ≡ is_flown image.now first.now publishes.now) }
{
    if is_image(image, first)? {
        return Ok(true);
    }
    is_published(image, publishes)
}

/// The table that a text writes, and its image on a node with these maps.
fn compiled(alloc: Global, text: &str, sizes: &MapSizes) -> Result<(Policy, Image), TextFault>
    ensures table { IfOk result (λ made. WritesPolicy (lines_of text.now) made.0) }
    ensures image { IfOk result (λ made. IsPortCompiled sizes.now made.0 made.1) }
    ensures fault { IfErr result (IsTableFault sizes.now (lines_of text.now)) }
{
    let table = Policy::read(alloc, text)?;
    let image = compile_policy(alloc, &table, sizes)?;
    Ok((table, image))
}

/// That a node's file names no image of a table.
fn no_image<'a>(alloc: Global) -> Fault<'a>
    ensures { EndsForFault (Some NoImage) result }
{
    match String::from_str(alloc, "the table compiles to no image of the node's file") {
        Ok(place) => Fault::BadNode {
            code: NodeCode::Program,
            place,
        },
        Err(_) => Fault::NoMemory,
    }
}

/// The quotas of the table that a text writes and a node flies.
fn quotas_of<'a>(
    alloc: Global,
    text: &str,
    node: &OwnNode,
    program: &Accepted,
) -> Result<Vec<Quota>, Fault<'a>>
    ensures quotas { IfOk result (λ quotas. AreQuotas node.now program.now text.now quotas.items) }
    ensures none { IfErr result (IsNoQuotas node.now program.now text.now) }
{
    let (table, image) = match compiled(alloc, text, &node.sizes()) {
        Ok(made) => made,
        Err(fault) => return Err(Fault::BadTable(fault.fault())),
    };
    let bytes = image.write()?;
    if !is_flown(bytes.as_slice(), program, node.publishes())? {
        return Err(no_image(alloc));
    }
    Ok(quotas_in(alloc, table.rules())?)
}

/// The text of the file of the table that is named, if one is.
///
/// # Errors
///
/// `CannotRead` if the file cannot be read, or is not UTF-8.
pub fn asked_text<'a, F: Files>(
    alloc: Global,
    files: &mut F,
    name: Option<&'a str>,
) -> Result<Option<String>, Fault<'a>>
    ensures text { IfOk result (λ text. ReadsAsked F.reads (option_map (λ n. n.now) name.entry)
        files.old (option_map string_bytes text) files.new) }
    ensures none { IfErr result (λ fault. ReadsNotAsked F.reads
        (option_map (λ n. n.now) name.entry) files.old fault files.new) }
{
    match name {
        Some(name) => Ok(Some(text_in(alloc, files, name)?)),
        None => Ok(None),
    }
}

/// The quotas of the table that a text writes, if there is one, and a node flies. The node flies the table if its own
/// program or a publish is the image to which the table compiles on the node's maps.
///
/// # Errors
///
/// `BadTable` for the table, also if memory is refused to it or to its image. `BadNode` of the program if the node's
/// file names no such image. `NoMemory` if memory is refused after the table.
pub fn asked_quotas<'a>(
    alloc: Global,
    text: Option<&str>,
    node: &OwnNode,
    program: &Accepted,
) -> Result<Option<Vec<Quota>>, Fault<'a>>
    ensures quotas { IfOk result (λ quotas. AreQuotasOf node.now program.now
        (option_map (λ t. t.now) text.entry) (option_map (λ q. q.items) quotas)) }
    ensures none { IfErr result
        (AreNotAsked node.now program.now (option_map (λ t. t.now) text.entry)) }
{
    match text {
        Some(text) => Ok(Some(quotas_of(alloc, text, node, program)?)),
        None => Ok(None),
    }
}

/// Adds the line of each quota: `quota map N cell N limit N`.
fn add_lines(text: &mut String, quotas: &[Quota]) -> Result<(), AllocError>
    ensures { OnOk result
        (string_bytes text.new ≡ string_bytes text.old ++ flat_map quota_line quotas.now) }
{
    for quota in quotas {
        let (map, cell, limit) = (quota.map, quota.cell, quota.limit);
        writeln!(text, "quota map {map} cell {cell} limit {limit}")?;
    }
    Ok(())
}

/// Adds the lines of the quotas of a table, if one was named.
///
/// # Errors
///
/// An error if memory is refused.
pub fn add_quota_lines(text: &mut String, quotas: &Option<Vec<Quota>>) -> Result<(), AllocError>
    ensures { OnOk result (string_bytes text.new
        ≡ string_bytes text.old ++ lines_asked (option_map (λ q. q.items) quotas.now)) }
{
    match quotas {
        Some(quotas) => add_lines(text, quotas.as_slice()),
        None => Ok(()),
    }
}

/// Adds the row of each quota.
fn add_each_row(text: &mut String, quotas: &[Quota]) -> Result<(), AllocError>
    ensures { OnOk result
        (string_bytes text.new ≡ string_bytes text.old ++ flat_map quota_row quotas.now) }
{
    for quota in quotas {
        let (map, cell, limit) = (quota.map, quota.cell, quota.limit);
        writeln!(text, "  {{{map}, {cell}, {limit}}},")?;
    }
    Ok(())
}

/// Adds the rows of quotas: one of zeros if there are none.
fn add_rows(text: &mut String, quotas: &[Quota]) -> Result<(), AllocError>
    ensures { OnOk result
        (string_bytes text.new ≡ string_bytes text.old ++ quota_rows quotas.now) }
{
    if quotas.is_empty() {
        return text.push_str("  {0, 0, 0},\n");
    }
    add_each_row(text, quotas)
}

/// Adds the line before the rows of quotas.
#[tactic(auto, unfolding(crate::specs::Quotas::quotas_head))]
fn add_quotas_head(text: &mut String) -> Result<(), AllocError>
    ensures { OnOk result (string_bytes text.new ≡ string_bytes text.old ++ quotas_head) }
{
    text.push_str(
        "static const struct { uint8_t map; uint16_t cell; uint64_t limit; } node_quotas[] = {\n",
    )
}

/// Adds how many quotas there are, and the array of them.
fn add_c_quotas(text: &mut String, quotas: &[Quota]) -> Result<(), AllocError>
    ensures { OnOk result
        (string_bytes text.new ≡ string_bytes text.old ++ c_quotas quotas.now) }
{
    let count = quotas.len();
    writeln!(text, "#define NODE_QUOTAS {count}\n")?;
    add_quotas_head(text)?;
    add_rows(text, quotas)?;
    text.push_str("};\n")?;
    Ok(())
}

/// Adds the quotas of a table, if one was named.
fn add_c_asked(text: &mut String, quotas: &Option<Vec<Quota>>) -> Result<(), AllocError>
    ensures { OnOk result (string_bytes text.new
        ≡ string_bytes text.old ++ c_asked (option_map (λ q. q.items) quotas.now)) }
{
    match quotas {
        Some(quotas) => add_c_quotas(text, quotas.as_slice()),
        None => Ok(()),
    }
}

/// Adds the end of a header: the bytes of the pool, and the quotas.
///
/// # Errors
///
/// An error if memory is refused.
pub fn add_header_end(
    text: &mut String,
    pool: u64,
    quotas: &Option<Vec<Quota>>,
) -> Result<(), AllocError>
    ensures { OnOk result (string_bytes text.new
        ≡ string_bytes text.old ++ header_end pool (option_map (λ q. q.items) quotas.now)) }
{
    writeln!(text, "\n#define NODE_POOL_BYTES {pool}")?;
    add_c_asked(text, quotas)?;
    text.push_str("\n#endif\n")?;
    Ok(())
}
