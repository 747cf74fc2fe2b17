//! The values of the options `--maps` and `--ports`, and the words of a node.

ghost use Rattle.std.specs.Prelude.{◌≡◌, All, IfErr, IfOk, MatchResult, codes, false, option_map, string_bytes, [], None};
ghost use Rattle.job_parts.specs.Matched.{app_of, fields_of, found_of};
ghost use Rattle.clap.specs.Walk.{first_of, rows_of, rule_of};
ghost use Rattle.basm.specs.Relation.{texts};
ghost use Rattle.job_parts.specs.Arguments.{option_rule};
ghost use Rattle.job_parts.specs.Inputs.{AreInputs, image_of, input_value};
ghost use Rattle.job_parts.specs.Options.{GivesNode, GivesPorts, GivesSizes, IsBadValue, IsMapPart, IsMapList, IsPortCount, IsSize, IsOptionFault, RefusesCount, RefusesList, RefusesNode, WriteMaps, WritesMap, WritesSuch, map_kind_of, list_parts, size_word, with_node_options, written_maps};
ghost use Rattle.machine.specs.Sizes.{listed_maps};

use crate::arguments::{option, text_of};
use crate::inputs::{Content, InputFile, Inputs};
use crate::usage::UsageFault;
use bver::MapSizes;
use clap::{Arg, ArgMatches, Command};
use machine::{MAX_CELLS, MapKind};
use spw::PORTS;
use std::alloc::{AllocError, Global};

/// The words of a node, which each job that runs one has.
#[derive(Debug, Drop)]
pub struct NodeWords {
    /// The name of the file of the BPF image that judges; without it the factory image does.
    pub image: Option<String>,
    /// How many cells each map of the node has, and of which kind it is.
    pub sizes: MapSizes,
    /// How many ports the node has: 1 to 32. With any other number the job ends as if memory were refused.
    pub ports: u8,
}

impl NodeWords {
    /// The image that judges, if one is named.
    pub fn image_input(&self) -> Option<InputFile<'_>>
        ensures { option_map input_value result ≡ image_of self.now }
    {
        match &self.image {
            Some(name) => Some(InputFile::new(name.as_str(), Content::Image)),
            None => None,
        }
    }

    /// What the node of a talk reads: that image.
    pub fn inputs(&self) -> Inputs<'_>
        ensures { AreInputs (image_of self.now) None None result }
    {
        Inputs::of(self.image_input(), None)
    }
}

/// The sizes of no maps.
pub fn no_maps() -> MapSizes
    ensures { result ≡ listed_maps [] }
{
    MapSizes::new(&[]).unwrap()
}

/// How many cells a map has by a word, or `BadOption`.
fn size_written(part: &str) -> Result<u16, UsageFault>
    ensures { MatchResult result (WritesSuch IsSize part.now) (IsBadValue (IsSize part.now)) }
{
    if part.starts_with('+') {
        return Err(UsageFault::BadOption);
    }
    let size: u16 = part.parse().map_err(|_| UsageFault::BadOption)?;
    if 1 <= size && size <= MAX_CELLS {
        Ok(size)
    } else {
        Err(UsageFault::BadOption)
    }
}

/// The digits of a part of a list, and the kind of its map.
fn size_and_kind(part: &str) -> (&str, MapKind)
    ensures digits { result.0.now ≡ size_word part.now }
    ensures kind { result.1 ≡ map_kind_of part.now }
{
    match part.strip_suffix('p') {
        Some(digits) => (digits, MapKind::Peak),
        None => (part, MapKind::Counter),
    }
}

/// The map that a part of a list writes, or `BadOption`.
fn map_written(part: &str) -> Result<(u16, MapKind), UsageFault>
    ensures { MatchResult result (WritesMap part.now) (IsBadValue (IsMapPart part.now)) }
{
    let (digits, kind) = size_and_kind(part);
    Ok((size_written(digits)?, kind))
}

/// The maps that the parts of a list write.
fn maps_written(alloc: Global, parts: &[&str]) -> Result<Vec<(u16, MapKind)>, UsageFault>
    ensures ok { IfOk result (λ maps. WriteMaps parts.now maps.items) }
    ensures err { IfErr result (IsOptionFault (All (λ part. IsMapPart part.now) parts.now)) }
{
    let mut maps = Vec::new(alloc);
    for part in parts {
        let map = map_written(part)?;
        maps.push(map)?;
    }
    Ok(maps)
}

/// The parts of a list, which commas separate.
fn parts_of(alloc: Global, text: &str) -> Result<Vec<&str>, AllocError>
    ensures { IfOk result (λ parts. texts parts.items ≡ list_parts text.now) }
{
    text.split(',').collect(alloc)
}

/// The maps that a list writes.
fn map_sizes(alloc: Global, text: &str) -> Result<MapSizes, UsageFault>
    ensures ok { IfOk result (λ sizes. IsMapList text.now × (sizes ≡ written_maps text.now)) }
    ensures err { IfErr result (IsOptionFault (IsMapList text.now)) }
{
    let parts = parts_of(alloc, text)?;
    let maps = maps_written(alloc, parts.as_slice())?;
    match MapSizes::with_kinds(maps.as_slice()) {
        Ok(sizes) => Ok(sizes),
        Err(_) => Err(UsageFault::BadOption),
    }
}

/// How many ports a word writes, or `BadOption`.
fn port_count(word: &str) -> Result<u8, UsageFault>
    ensures { MatchResult result (WritesSuch IsPortCount word.now)
        (IsBadValue (IsPortCount word.now)) }
{
    if word.starts_with('+') {
        return Err(UsageFault::BadOption);
    }
    let ports: u8 = word.parse().map_err(|_| UsageFault::BadOption)?;
    if 1 <= ports && ports <= PORTS {
        Ok(ports)
    } else {
        Err(UsageFault::BadOption)
    }
}

/// The maps of `--maps`: decimal numbers of cells with commas between them, at most 8 and at most 256 in all. The
/// number of a peak map has a `p` after it. Without the option there are no maps.
///
/// # Errors
///
/// `BadOption` if the value is no such list, or `Memory` if memory is refused.
pub fn sizes_of(alloc: Global, found: &ArgMatches) -> Result<MapSizes, UsageFault>
    ensures ok { IfOk result (GivesSizes (first_of (codes "maps") (rows_of (found_of found.now)))) }
    ensures err { IfErr result (RefusesList (rows_of (found_of found.now))) }
{
    match text_of(found, "maps") {
        Some(text) => map_sizes(alloc, text),
        None => Ok(no_maps()),
    }
}

/// The number of ports of `--ports`: a decimal number from 1 to 32, and 1 without the option.
///
/// # Errors
///
/// `BadOption` if the value is no such number.
pub fn ports_of(found: &ArgMatches) -> Result<u8, UsageFault>
    ensures ok { IfOk result
        (GivesPorts (first_of (codes "ports") (rows_of (found_of found.now)))) }
    ensures err { IfErr result (RefusesCount (rows_of (found_of found.now))) }
{
    match text_of(found, "ports") {
        Some(word) => port_count(word),
        None => Ok(1),
    }
}

/// The option `--maps`.
pub fn maps_option<'a>(alloc: Global) -> Arg<'a>
    ensures rule { rule_of result ≡ option_rule (codes "maps") }
    ensures local { result.global ≡ false }
{
    let help =
        "How many cells each map has, as 5,1p with a p for a peak map; without it there are no maps";
    option(alloc, "maps", "LIST", help)
}

/// The subcommand with the options of a node: `[--image FILE] [--maps LIST] [--ports N]`.
///
/// # Errors
///
/// An error if memory is refused.
pub fn node_arguments<'a>(alloc: Global, command: Command<'a>) -> Result<Command<'a>, AllocError>
    requires { (fields_of command).has_globals ≡ false }
    ensures shape { IfOk result (λ c. app_of c ≡ with_node_options (app_of command.entry)) }
    ensures local { IfOk result (λ c. (fields_of c).has_globals ≡ false) }
{
    let help = "The file of the BPF image that judges, in place of the factory image";
    let image = option(alloc, "image", "FILE", help);
    let maps = maps_option(alloc);
    let help = "How many ports the node has, 1 to 32; without it one";
    let ports = option(alloc, "ports", "N", help);
    command.arg(image)?.arg(maps)?.arg(ports)
}

/// The name of the file of an image by `--image`, if the option is given.
fn image_of(alloc: Global, found: &ArgMatches) -> Result<Option<String>, AllocError>
    ensures { IfOk result (λ image. first_of (codes "image") (rows_of (found_of found.now))
        ≡ option_map string_bytes image) }
{
    match text_of(found, "image") {
        Some(name) => Ok(Some(String::from_str(alloc, name)?)),
        None => Ok(None),
    }
}

/// The words of a node with these matches.
///
/// # Errors
///
/// Those of [`sizes_of`] and [`ports_of`], and `Memory` if memory is refused.
pub fn node_words(alloc: Global, found: &ArgMatches) -> Result<NodeWords, UsageFault>
    ensures ok { IfOk result (GivesNode (rows_of (found_of found.now))) }
    ensures err { IfErr result (RefusesNode (rows_of (found_of found.now))) }
{
    let image = image_of(alloc, found)?;
    let sizes = sizes_of(alloc, found)?;
    let ports = ports_of(found)?;
    Ok(NodeWords {
        image,
        sizes,
        ports,
    })
}
