//! A node by its file and the files beside it.

ghost use Rattle.std.specs.Prelude.{◌≡◌, ◌≤◌, ◌⊎◌, ◌∷◌, [], All, IfErr, IfOk, IfSome, None, Ok, Some, length, option_map, string_bytes, true};
ghost use Rattle.job_config.specs.Configured.{IsBadConfiguration, IsConfiguration, banks_at};
ghost use Rattle.job_config.specs.Faults.{code_of_fault};
ghost use Rattle.job_config.specs.Numbers.{number_at_key};
ghost use Rattle.job_config.specs.Reads.{BeginWith, BeginsBank, EndsForFault, EndsBySaid, HoldPublishes, HoldsBanks, HoldsBeside, HoldsFirst, HoldsImageAt, HoldsParts, HoldsProgramOf, HoldsPublish, HoldsPublishes, IsBadNode, IsBadText, IsNoToml, ReadsConfiguration, ReadsNoConfiguration, ReadsNoNode, ReadsNode, SomeRead};
ghost use Rattle.job_config.specs.OwnNodes.{IsPublish, fit};
ghost use Rattle.job_config.specs.declared.faults.ConfigFault.TheVariants.{Memory};
ghost use Rattle.job_config.specs.declared.places.NumberKey.TheVariants.{Slot};
ghost use Rattle.bver.specs.Justified.{IsJustified};
ghost use Rattle.bpf.specs.Program.{IsProgram, image_bytes};
ghost use Rattle.job_parts.specs.Factory.{factory};
ghost use Rattle.job_parts.specs.Reading.{TextUnread};
ghost use Rattle.std.specs.Str.{IsUtf8};
ghost use Rattle.machine.specs.Runs.{IsSafe};
ghost use Rattle.job_parts.specs.declared.node_codes.NodeCode.TheVariants.{Text};
ghost use Rattle.node_parts.specs.Nodes.{are_within};
ghost use Rattle.toml.specs.Data.{Members};
ghost use Rattle.toml.specs.Errors.{IsMemory};
ghost use Rattle.toml.specs.Parse.{parse_document};
ghost use Rattle.toml.specs.View.{items_view, table_view, view};

use crate::configuration::{Configuration, configuration_of};
use crate::every_fault::Faults;
use crate::faults::{ConfigFault, NameWord, Trouble};
use crate::names::{beside, name_at, name_of_contents};
use crate::numbers::number_at_key;
use crate::own_node::{Contents, OwnNode};
use crate::places::{NameKey, NumberKey, TableKind, TablePlace};
use crate::tables::{OWN, list_at, table_in};
use bpf::{Image, ImageFault};
use bver::{Accepted, MapSizes, Refusal, verify};
use job_parts::factory::factory_program;
use job_parts::faults::Fault;
use job_parts::forms::form_line;
use job_parts::node_codes::NodeCode;
use job_parts::programs::{bytes_in, text_in};
use job_parts::storage::Files;
use node_parts::BankConfig;
use rmap::{LAST_SLOT, STAGING_SIZE};
use std::alloc::{AllocError, Global};
use toml::{Table, Value};

/// What a node's file gives: the node, and the program that judges in all slots at first.
#[derive(Debug, Drop)]
pub struct ReadNode {
    /// The node.
    pub node: OwnNode,
    /// The program.
    pub program: Accepted,
}

/// Whether a trouble is that memory was refused.
fn is_memory(trouble: Trouble) -> bool {
    match trouble {
        Trouble::NoImage(fault, _) => fault == ImageFault::Memory,
        Trouble::Refused(refused) => refused.code == Refusal::Memory,
        Trouble::Unread | Trouble::TooLong { .. } => false,
    }
}

/// The fault of a file that a key names.
fn bad_file(
    alloc: Global,
    place: TablePlace,
    key: NameKey,
    name: &str,
    trouble: Trouble,
) -> Result<ConfigFault, AllocError> {
    if is_memory(trouble) {
        return Ok(ConfigFault::Memory);
    }
    let name = NameWord::new(alloc, name)?;
    Ok(ConfigFault::BadFile {
        place,
        key,
        name,
        trouble,
    })
}

/// The bytes of the file of this name, if it can be read.
fn read_bytes<F: Files>(alloc: Global, files: &mut F, path: &str) -> Option<Vec<u8>>
    ensures gave { IfSome result (λ bytes. F.reads files.old path.now (Some bytes.items) files.new) }
    ensures read { SomeRead F.reads files.old files.new }
{
    match bytes_in(alloc, files, path) {
        Ok(bytes) => Some(bytes),
        Err(_) => None,
    }
}

/// The bytes of the file that a key names, if they are no more than `most`.
fn bytes_beside<F: Files>(
    alloc: Global,
    file: &str,
    files: &mut F,
    place: TablePlace,
    key: NameKey,
    name: &str,
    most: usize,
) -> Result<Vec<u8>, ConfigFault>
    ensures held { IfOk result (λ bytes.
        HoldsBeside F.reads file.now name.now most files.old bytes.items files.new) }
    ensures read { SomeRead F.reads files.old files.new }
{
    let path = beside(alloc, file, name)?;
    let Some(bytes) = read_bytes(alloc, files, path.as_str()) else {
        return Err(bad_file(alloc, place, key, name, Trouble::Unread)?);
    };
    let count = bytes.len();
    if count > most {
        let trouble = Trouble::TooLong { bytes: count, most };
        return Err(bad_file(alloc, place, key, name, trouble)?);
    }
    Ok(bytes)
}

/// The bytes that a bank of a table begins with.
pub(crate) fn contents_in<F: Files>(
    alloc: Global,
    file: &str,
    files: &mut F,
    item: &Value,
    place: TablePlace,
    size: u32,
) -> Result<Contents, ConfigFault>
    ensures held { IfOk result (λ own.
        BeginsBank F.reads file.now place (view item.now) size files.old own files.new) }
    ensures short { IfOk result (λ own. length own ≤ size) }
    ensures read { SomeRead F.reads files.old files.new }
{
    let table = table_in(item, place)?;
    let Some(name) = name_at(table, place, NameKey::Contents)? else {
        return Ok(Contents::new(Vec::new(alloc)));
    };
    let key = NameKey::Contents;
    let bytes = bytes_beside(alloc, file, files, place, key, name, size as usize)?;
    Ok(Contents::new(bytes))
}

/// The bytes that each of these banks begins with, by the list of their tables.
fn contents_of<F: Files>(
    alloc: Global,
    file: &str,
    files: &mut F,
    list: &[Value],
    banks: &[BankConfig],
) -> Result<Vec<Contents>, ConfigFault>
    requires { length list.now ≡ length banks.now }
    ensures held { IfOk result (λ contents. BeginWith F.reads file.now 0 (items_view list.now)
        banks.now files.old contents.items files.new) }
    ensures fit { IfOk result (λ contents. fit banks.now contents.items ≡ true) }
    ensures read { SomeRead F.reads files.old files.new }
{
    let mut contents = Vec::new(alloc);
    for index in 0..banks.len() {
        let place = TablePlace {
            kind: TableKind::Bank,
            number: index,
        };
        let size = banks[index].size;
        let own = contents_in(alloc, file, files, &list[index], place, size)?;
        contents.push(own)?;
    }
    Ok(contents)
}

/// No bytes for the one bank of a file without banks.
fn no_contents(alloc: Global) -> Result<Vec<Contents>, AllocError>
    ensures { IfOk result (λ contents. contents.items ≡ [] ∷ []) }
{
    let mut contents = Vec::new(alloc);
    contents.push(Contents::new(Vec::new(alloc)))?;
    Ok(contents)
}

/// The bytes that each of these banks begins with, which are those of the table.
#[tactic(auto, using(crate::proofs::Each::banks_count, crate::proofs::Each::banks_none, crate::proofs::Each::count_view))]
fn all_contents<F: Files>(
    alloc: Global,
    file: &str,
    files: &mut F,
    table: &Table,
    banks: &[BankConfig],
) -> Result<Vec<Contents>, ConfigFault>
    requires { banks_at (table_view table.now) ≡ Ok banks.now }
    ensures held { IfOk result (λ contents. HoldsBanks F.reads file.now (table_view table.now)
        banks.now files.old contents.items files.new) }
    ensures fit { IfOk result (λ contents. fit banks.now contents.items ≡ true) }
    ensures read { SomeRead F.reads files.old files.new }
{
    match list_at(table, TableKind::Bank)? {
        Some(list) => contents_of(alloc, file, files, list, banks),
        None => Ok(no_contents(alloc)?),
    }
}

/// The program that bytes spell, which may judge on a node with these maps; or why it may not.
fn accepted(alloc: Global, bytes: &[u8], sizes: MapSizes) -> Result<Accepted, Trouble>
    ensures spelled { IfOk result (λ program. bytes.now ≡ image_bytes program.program) }
    ensures limits { IfOk result (λ program. IsProgram program.program) }
    ensures sizes { IfOk result (λ program. program.sizes ≡ sizes) }
    ensures justified { IfOk result (λ program. IsJustified program.program program.sizes) }
    ensures safe { IfOk result (λ program. IsSafe program.program program.sizes) }
{
    let image = match Image::read(alloc, bytes) {
        Ok(image) => image,
        Err(fault) => {
            let form = form_line(alloc, bytes);
            return Err(Trouble::NoImage(fault, form));
        }
    };
    match verify(alloc, image, &sizes) {
        Ok(program) => Ok(program),
        Err(refused) => Err(Trouble::Refused(refused)),
    }
}

/// The program of the image file that a key names, of at most `most` bytes, which may judge on a node with these maps.
/// It is verified here, and nowhere after.
fn program_beside<F: Files>(
    alloc: Global,
    file: &str,
    files: &mut F,
    place: TablePlace,
    key: NameKey,
    name: &str,
    most: usize,
    sizes: MapSizes,
) -> Result<Accepted, ConfigFault>
    ensures held { IfOk result (λ program.
        HoldsProgramOf F.reads file.now name.now most files.old program files.new) }
    ensures sizes { IfOk result (λ program. program.sizes ≡ sizes) }
    ensures read { SomeRead F.reads files.old files.new }
{
    let bytes = bytes_beside(alloc, file, files, place, key, name, most)?;
    match accepted(alloc, bytes.as_slice(), sizes) {
        Ok(program) => Ok(program),
        Err(trouble) => Err(bad_file(alloc, place, key, name, trouble)?),
    }
}

/// The factory program, for these maps.
fn first_of_none(alloc: Global, sizes: MapSizes) -> Result<Accepted, ConfigFault>
    ensures program { IfOk result (λ program. program.program ≡ factory) }
    ensures sizes { IfOk result (λ program. program.sizes ≡ sizes) }
    ensures justified { IfOk result (λ program. IsJustified program.program program.sizes) }
    ensures safe { IfOk result (λ program. IsSafe program.program program.sizes) }
{
    // Only memory can be refused to it.
    match factory_program(alloc, sizes) {
        Ok(program) => Ok(program),
        Err(_) => Err(ConfigFault::Memory),
    }
}

/// The program that judges in all slots at first.
pub(crate) fn first_program<F: Files>(
    alloc: Global,
    file: &str,
    files: &mut F,
    table: &Table,
    sizes: MapSizes,
) -> Result<Accepted, ConfigFault>
    ensures held { IfOk result (λ program. HoldsFirst F.reads file.now (table_view table.now)
        files.old program files.new) }
    ensures sizes { IfOk result (λ program. program.sizes ≡ sizes) }
    ensures read { SomeRead F.reads files.old files.new }
{
    let key = NameKey::Program;
    match name_at(table, OWN, key)? {
        Some(name) => program_beside(alloc, file, files, OWN, key, name, usize::MAX, sizes),
        None => first_of_none(alloc, sizes),
    }
}

/// The slot that the table of a publish names.
pub(crate) fn slot_in(table: &Table, place: TablePlace) -> Result<u8, ConfigFault>
    ensures value { number_at_key (table_view table.now) place Slot 0 3 ≡ result }
    ensures few { IfOk result (λ slot. slot ≤ 3) }
{
    let slot = number_at_key(table, place, NumberKey::Slot, 0, u32::from(LAST_SLOT))?;
    Ok(slot as u8)
}

/// The program of the image that the table of a publish names.
pub(crate) fn image_in<F: Files>(
    alloc: Global,
    file: &str,
    files: &mut F,
    table: &Table,
    place: TablePlace,
    sizes: MapSizes,
) -> Result<Accepted, ConfigFault>
    ensures held { IfOk result (λ program.
        HoldsImageAt F.reads file.now place (table_view table.now) files.old program files.new) }
    ensures sizes { IfOk result (λ program. program.sizes ≡ sizes) }
    ensures read { SomeRead F.reads files.old files.new }
{
    let key = NameKey::Image;
    let name = name_of_contents(table, place, key)?;
    let most = STAGING_SIZE as usize;
    program_beside(alloc, file, files, place, key, name, most, sizes)
}

/// The publish of a table.
fn publish_in<F: Files>(
    alloc: Global,
    file: &str,
    files: &mut F,
    item: &Value,
    place: TablePlace,
    sizes: MapSizes,
) -> Result<(u8, Accepted), ConfigFault>
    ensures held { IfOk result (λ publish.
        HoldsPublish F.reads file.now place (view item.now) files.old publish files.new) }
    ensures each { IfOk result (IsPublish sizes) }
    ensures read { SomeRead F.reads files.old files.new }
{
    let table = table_in(item, place)?;
    let slot = slot_in(table, place)?;
    let program = image_in(alloc, file, files, table, place, sizes)?;
    Ok((slot, program))
}

/// The publishes of a list of tables.
fn publishes_in<F: Files>(
    alloc: Global,
    file: &str,
    files: &mut F,
    list: &[Value],
    sizes: MapSizes,
) -> Result<Vec<(u8, Accepted)>, ConfigFault>
    ensures held { IfOk result (λ publishes.
        HoldPublishes F.reads file.now 0 (items_view list.now) files.old publishes.items files.new) }
    ensures each { IfOk result (λ publishes. All (IsPublish sizes) publishes.items) }
    ensures count { IfOk result (λ publishes. length publishes.items ≤ length list.now) }
    ensures read { SomeRead F.reads files.old files.new }
{
    let mut publishes = Vec::new(alloc);
    for index in 0..list.len() {
        let place = TablePlace {
            kind: TableKind::Publish,
            number: index,
        };
        let publish = publish_in(alloc, file, files, &list[index], place, sizes)?;
        publishes.push(publish)?;
    }
    Ok(publishes)
}

/// The most publishes of a file: each has a generation of its own.
const MOST_PUBLISHES: usize = u32::MAX as usize;

/// What is published before the first packet.
fn publishes_of<F: Files>(
    alloc: Global,
    file: &str,
    files: &mut F,
    table: &Table,
    sizes: MapSizes,
) -> Result<Vec<(u8, Accepted)>, ConfigFault>
    ensures held { IfOk result (λ publishes. HoldsPublishes F.reads file.now (table_view table.now)
        files.old publishes.items files.new) }
    ensures each { IfOk result (λ publishes. All (IsPublish sizes) publishes.items) }
    ensures few { IfOk result (λ publishes. length publishes.items ≤ 4294967295) }
    ensures read { SomeRead F.reads files.old files.new }
{
    let Some(list) = list_at(table, TableKind::Publish)? else {
        return Ok(Vec::new(alloc));
    };
    let count = list.len();
    if count > MOST_PUBLISHES {
        return Err(ConfigFault::BadCount {
            kind: TableKind::Publish,
            count,
        });
    }
    publishes_in(alloc, file, files, list, sizes)
}

/// The node of this configuration, which is that of the table, with the contents of the files that the table names.
fn node_with<F: Files>(
    alloc: Global,
    file: &str,
    files: &mut F,
    table: &Table,
    configuration: Configuration,
) -> Result<ReadNode, ConfigFault>
    requires configured { IsConfiguration (table_view table.now) configuration }
    requires banks { banks_at (table_view table.now) ≡ Ok configuration.banks.items }
    requires within { are_within configuration.banks.items ≡ true }
    ensures held { IfOk result (λ made. HoldsParts F.reads file.now (table_view table.now)
        files.old made.node made.program files.new) }
    ensures read { SomeRead F.reads files.old files.new }
{
    let Configuration {
        address,
        ports,
        banks,
        sizes,
    } = configuration;
    let contents = all_contents(alloc, file, files, table, banks.as_slice())?;
    let program = first_program(alloc, file, files, table, sizes)?;
    let publishes = publishes_of(alloc, file, files, table, sizes)?;
    let node = OwnNode::of_parts(address, ports, banks, contents, sizes, publishes);
    Ok(ReadNode { node, program })
}

/// The number of the line, from 1, that has this byte of a text.
fn line_at(text: &str, place: usize) -> usize {
    let mut line: usize = 1;
    let (before, _) = text.as_bytes().split_at(place.min(text.len()));
    for byte in before {
        if *byte == b'\n' {
            line = line.saturating_add(1);
        }
    }
    line
}

/// Why a text is no TOML.
fn no_toml(alloc: Global, text: &str, fault: &toml::de::Error) -> Result<ConfigFault, AllocError>
    ensures { IfOk result
        (λ bad. (bad ≡ Memory) ⊎ (¬ IsMemory fault.now × (code_of_fault bad ≡ Some Text))) }
{
    match fault.span() {
        Some(span) => Ok(ConfigFault::NoToml {
            line: line_at(text, span.start),
            message: NameWord::new(alloc, fault.message())?,
        }),
        None => Ok(ConfigFault::Memory),
    }
}

/// The table that a text is.
#[tactic(auto, using(crate::proofs::Texts::no_table))]
fn table_of(alloc: Global, text: &str) -> Result<Table, ConfigFault>
    ensures table { IfOk result (λ table. parse_document text.now ≡ Some (table_view table)) }
    ensures none { IfErr result (IsNoToml text.now) }
{
    match toml::table_from_str(alloc, text) {
        Ok(table) => Ok(table),
        Err(fault) => Err(no_toml(alloc, text, &fault)?),
    }
}

/// What ends a job whose node's file has a fault with that code; for `None`, one to which memory was refused. Each of
/// its faults is in that text, if there was memory for it.
fn ended<'a>(code: Option<NodeCode>, text: Result<String, AllocError>) -> Fault<'a>
    ensures { EndsForFault code result }
{
    let (Some(code), Ok(place)) = (code, text) else {
        return Fault::NoMemory;
    };
    Fault::BadNode { code, place }
}

/// What ends a job whose node's file, which has this name, has that fault.
fn fault_of<'a>(alloc: Global, name: &str, fault: &ConfigFault) -> Fault<'a>
    ensures { EndsForFault (code_of_fault fault.now) result }
{
    ended(fault.code(), format!(in alloc; "{name} {fault}"))
}

/// The faults of the numbers of that table, which is the node's file of this name. The fault that is given is the first
/// of them.
fn number_faults(
    alloc: Global,
    name: &str,
    table: &Table,
    fault: &ConfigFault,
) -> Result<String, AllocError> {
    let mut faults = Faults::new(alloc, name);
    faults.note_numbers(alloc, table)?;
    if faults.is_empty() {
        faults.add(fault)?;
    }
    Ok(faults.into_text())
}

/// The faults of the files that the table of the node's file of this name names. The fault that is given was found
/// first.
fn named_faults<F: Files>(
    alloc: Global,
    name: &str,
    files: &mut F,
    table: &Table,
    fault: &ConfigFault,
) -> Result<String, AllocError>
    ensures read { SomeRead F.reads files.old files.new }
{
    let mut faults = Faults::new(alloc, name);
    faults.note_named(alloc, files, table)?;
    if faults.is_empty() {
        // A file that it names has changed since it was read.
        faults.add(fault)?;
    }
    Ok(faults.into_text())
}

/// The configuration of that table, which is the node's file of this name; or what ends the job.
fn configured<'a>(alloc: Global, name: &str, table: &Table) -> Result<Configuration, Fault<'a>>
    ensures says { IfOk result (IsConfiguration (table_view table.now)) }
    ensures bad { IfErr result (λ end. EndsBySaid end (IsBadConfiguration (table_view table.now))) }
    ensures banks { IfOk result (λ c. banks_at (table_view table.now) ≡ Ok c.banks.items) }
    ensures within { IfOk result (λ c. are_within c.banks.items ≡ true) }
{
    match configuration_of(alloc, table) {
        Ok(configuration) => Ok(configuration),
        Err(fault) => {
            let faults = number_faults(alloc, name, table, &fault);
            Err(ended(fault.code(), faults))
        }
    }
}

/// The table of that text, which is the node's file of this name; or what ends the job.
fn tabled<'a>(alloc: Global, name: &str, text: &str) -> Result<Table, Fault<'a>>
    ensures table { IfOk result (λ table. parse_document text.now ≡ Some (table_view table)) }
    ensures bad { IfErr result (λ end. EndsBySaid end (IsNoToml text.now)) }
{
    match table_of(alloc, text) {
        Ok(table) => Ok(table),
        Err(fault) => Err(fault_of(alloc, name, &fault)),
    }
}

/// The node of that table, which is the node's file of this name, and of the files that it names; or what ends the job.
fn noded<'a, F: Files>(
    alloc: Global,
    name: &str,
    files: &mut F,
    table: &Table,
    configuration: Configuration,
) -> Result<ReadNode, Fault<'a>>
    requires configured { IsConfiguration (table_view table.now) configuration }
    requires banks { banks_at (table_view table.now) ≡ Ok configuration.banks.items }
    requires within { are_within configuration.banks.items ≡ true }
    ensures held { IfOk result (λ made. HoldsParts F.reads name.now (table_view table.now)
        files.old made.node made.program files.new) }
    ensures bad { IfErr result (λ end. EndsBySaid end (λ _. Unit {0})) }
    ensures read { SomeRead F.reads files.old files.new }
{
    match node_with(alloc, name, files, table, configuration) {
        Ok(node) => Ok(node),
        Err(fault) => {
            let faults = named_faults(alloc, name, files, table, &fault);
            Err(ended(fault.code(), faults))
        }
    }
}

/// The configuration that a text says, which is that of the node's file of this name.
fn configuration_of_text<'a>(
    alloc: Global,
    name: &str,
    text: &str,
) -> Result<Configuration, Fault<'a>>
    ensures says { IfOk result (λ c. (table : Members) × (parse_document text.now ≡ Some table)
        × IsConfiguration table c) }
    ensures bad { IfErr result (λ end. EndsBySaid end (IsBadText text.now)) }
    ensures within { IfOk result (λ c. are_within c.banks.items ≡ true) }
{
    let table = tabled(alloc, name, text)?;
    configured(alloc, name, &table)
}

/// The node that a text says, which is that of the node's file of this name, with what is in the files that it names.
fn node_of_text<'a, F: Files>(
    alloc: Global,
    name: &str,
    text: &str,
    files: &mut F,
) -> Result<ReadNode, Fault<'a>>
    ensures held { IfOk result (λ made. (table : Members) × (parse_document text.now ≡ Some table)
        × HoldsParts F.reads name.now table files.old made.node made.program files.new) }
    ensures bad { IfErr result (λ end.
        EndsBySaid end (λ fault. IsBadNode F.reads text.now files.old fault files.new)) }
    ensures read { SomeRead F.reads files.old files.new }
{
    let table = tabled(alloc, name, text)?;
    let configuration = configured(alloc, name, &table)?;
    noded(alloc, name, files, &table, configuration)
}

/// The text of the file of this name.
fn read_text<'a, F: Files>(alloc: Global, files: &mut F, name: &'a str) -> Result<String, Fault<'a>>
    ensures gave { IfOk result (λ text. F.reads files.old name.now (Some (string_bytes text)) files.new) }
    ensures utf8 { IfOk result (λ text. IsUtf8 (string_bytes text)) }
    ensures none { IfErr result (TextUnread F.reads files.old name.now files.new) }
    ensures read { SomeRead F.reads files.old files.new }
{
    text_in(alloc, files, name)
}

/// The node of the node's file of this name, with the contents of the files beside it that it names. Besides, the
/// program that judges in all slots at first.
///
/// # Errors
///
/// `CannotRead` if the file cannot be read, or is not UTF-8. Else `BadNode` for the first of these: no TOML, an unknown
/// key, the address, the ports, the banks, the maps, the contents of banks, the program, and the publishes. `NoMemory`
/// if memory was refused.
///
/// The text beside the first fault has a line for each fault. It has lines for the files that the file names only if
/// nothing else is wrong.
pub fn node_in<'a, F: Files>(
    alloc: Global,
    files: &mut F,
    name: &'a str,
) -> Result<ReadNode, Fault<'a>>
    ensures node { IfOk result (λ made.
        ReadsNode F.reads name.now files.old made.node made.program files.new) }
    ensures none { IfErr result (λ fault. ReadsNoNode F.reads name.now files.old fault files.new) }
{
    let text = read_text(alloc, files, name)?;
    node_of_text(alloc, name, text.as_str(), files)
}

/// The configuration of the node's file of this name. It reads none of the files that the file names.
///
/// # Errors
///
/// `CannotRead` if the file cannot be read, or is not UTF-8. Else `BadNode` for the first of these: no TOML, an unknown
/// key, the address, the ports, the banks and the maps. `NoMemory` if memory was refused.
///
/// The text beside the first fault has a line for each fault.
pub fn configuration_in<'a, F: Files>(
    alloc: Global,
    files: &mut F,
    name: &'a str,
) -> Result<Configuration, Fault<'a>>
    ensures says { IfOk result (λ c. ReadsConfiguration F.reads name.now files.old c files.new) }
    ensures none { IfErr result (λ fault. ReadsNoConfiguration F.reads name.now files.old
        fault files.new) }
    ensures within { IfOk result (λ c. are_within c.banks.items ≡ true) }
{
    let text = read_text(alloc, files, name)?;
    configuration_of_text(alloc, name, text.as_str())
}
