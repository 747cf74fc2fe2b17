//! A node as a header of C.

ghost use Rattle.std.specs.Prelude.{◌≡◌, ◌++◌, IfOk, OnOk, length, option_map, string_bytes};
ghost use Rattle.job_node_file.specs.Headers.{IsHeader, bank_row, banks_head, byte_separator, byte_text, bytes_text, c_bytes, content_array, content_line, content_row, contents_head, contents_text, each_from, ends_row, front_text, head_text, image_array, image_head, is_peak, map_cells, map_row, map_rows, maps_head, numbers_of, numbers_text, program_row, publish_array, publish_line, publish_row, publish_rows, publishes_head, publishes_text, slot_row};

use crate::hex::{EightDigits, TwoDigits};
use crate::pool::pool_of;
use crate::quotas::add_header_end;
use bver::Accepted;
use job_config::own_node::{Contents, OwnNode};
use machine::{MapKind, MapSizes};
use node_parts::BankConfig;
use policy_table::Quota;
use std::alloc::{AllocError, Global};

/// How many bytes are in a row.
const ROW: usize = 16;

/// What is before all else.
const HEAD: &str = "\
/* Made by rmapctl node --c. */
#ifndef NODE_FILE_H
#define NODE_FILE_H

#include <sandbarstove.h>

";

/// What comes after a byte: a line feed if its row ends, and else a space.
fn byte_separator(ends: bool) -> &'static str
    ensures { result.now ≡ byte_separator ends }
{
    if ends { "\n" } else { " " }
}

/// Whether a row ends after this byte: it is the 16th, or the last of all.
fn ends_row(count: usize, place: usize) -> bool
    ensures { result ≡ ends_row count place }
{
    place % ROW == ROW - 1 || place.saturating_add(1) == count
}

/// Adds the byte at a place, of an array with this count of bytes, as `0xHH,`.
fn add_byte(text: &mut String, count: usize, place: usize, byte: u8) -> Result<(), AllocError>
    ensures { OnOk result
        (string_bytes text.new ≡ string_bytes text.old ++ byte_text count place byte) }
{
    let digits = TwoDigits(byte);
    let following = byte_separator(ends_row(count, place));
    write!(text, "0x{digits},{following}")
}

/// Adds bytes, 16 in a row.
fn add_bytes(text: &mut String, bytes: &[u8]) -> Result<(), AllocError>
    ensures { OnOk result (string_bytes text.new
        ≡ string_bytes text.old ++ each_from (byte_text (length bytes.now)) 0 bytes.now) }
{
    for place in 0..bytes.len() {
        add_byte(text, bytes.len(), place, bytes[place])?;
    }
    Ok(())
}

/// Adds the bytes of an array, and its end. An array of C is not empty: no bytes are a zero.
fn add_c_bytes(text: &mut String, bytes: &[u8]) -> Result<(), AllocError>
    ensures { OnOk result (string_bytes text.new ≡ string_bytes text.old ++ c_bytes bytes.now) }
{
    if bytes.is_empty() {
        return text.push_str("0\n};\n");
    }
    add_bytes(text, bytes)?;
    text.push_str("};\n")
}

/// Adds an address, and how many ports, banks, maps and publishes there are.
fn add_numbers(
    text: &mut String,
    address: u8,
    ports: u8,
    banks: usize,
    maps: u8,
    publishes: usize,
) -> Result<(), AllocError>
    ensures { OnOk result (string_bytes text.new
        ≡ string_bytes text.old ++ numbers_of address ports banks maps publishes) }
{
    let address = TwoDigits(address);
    write!(
        text,
        "#define NODE_ADDRESS 0x{address}\n#define NODE_PORTS {ports}\n#define NODE_BANKS {banks}\n#define NODE_MAPS {maps}\n#define NODE_PUBLISHES {publishes}\n"
    )
}

/// Adds the address of the node, and how many ports, banks, maps and publishes it has.
fn add_c_numbers(text: &mut String, node: &OwnNode) -> Result<(), AllocError>
    ensures { OnOk result (string_bytes text.new ≡ string_bytes text.old ++ numbers_text node.now) }
{
    let (banks, publishes) = (node.banks().len(), node.publishes().len());
    let maps = node.sizes().maps();
    add_numbers(text, node.address(), node.ports(), banks, maps, publishes)
}

/// Adds a bank.
fn add_bank_row(text: &mut String, bank: &BankConfig) -> Result<(), AllocError>
    ensures { OnOk result (string_bytes text.new ≡ string_bytes text.old ++ bank_row bank.now) }
{
    let (base, size, room) = (EightDigits(bank.base), bank.size, bank.room);
    writeln!(text, "  {{0x{base}u, {size}u, {room}u}},")
}

/// Adds the banks, by their extended address.
fn add_bank_rows(text: &mut String, banks: &[BankConfig]) -> Result<(), AllocError>
    ensures { OnOk result (string_bytes text.new
        ≡ string_bytes text.old ++ each_from (λ _ bank. bank_row bank) 0 banks.now) }
{
    for place in 0..banks.len() {
        add_bank_row(text, &banks[place])?;
    }
    Ok(())
}

/// Whether a map keeps the greatest numbers, as C has it.
fn is_peak(kind: Option<MapKind>) -> u8
    ensures { result ≡ is_peak kind }
{
    match kind {
        Some(MapKind::Peak) => 1,
        Some(MapKind::Counter) | None => 0,
    }
}

/// Adds a map: how many cells it has, and whether it keeps the greatest numbers.
fn add_map_row(text: &mut String, cells: u16, kind: Option<MapKind>) -> Result<(), AllocError>
    ensures { OnOk result (string_bytes text.new ≡ string_bytes text.old ++ map_row cells kind) }
{
    let peak = is_peak(kind);
    writeln!(text, "  {{{cells}, {peak}}},")
}

/// Adds the maps.
fn add_map_rows(text: &mut String, sizes: &MapSizes) -> Result<(), AllocError>
    ensures { OnOk result (string_bytes text.new ≡ string_bytes text.old
        ++ each_from (map_cells sizes.now) 0 sizes.now.cells) }
{
    for map in 0..sizes.maps() {
        let cells = sizes.cells(map).unwrap_or(0);
        add_map_row(text, cells, sizes.kind(map))?;
    }
    Ok(())
}

/// Adds the maps; one without cells if there is none, since an array of C is not empty.
fn add_maps(text: &mut String, sizes: &MapSizes) -> Result<(), AllocError>
    ensures { OnOk result (string_bytes text.new ≡ string_bytes text.old ++ map_rows sizes.now) }
{
    if sizes.maps() == 0 {
        return text.push_str("  {0, 0},\n");
    }
    add_map_rows(text, sizes)
}

/// Adds the line before the bytes that the bank of a place begins with.
fn add_content_line(text: &mut String, place: usize) -> Result<(), AllocError>
    ensures { OnOk result (string_bytes text.new ≡ string_bytes text.old ++ content_line place) }
{
    write!(
        text,
        "\nstatic const uint8_t node_contents_{place}[] = {{\n"
    )
}

/// Adds the bytes that the bank of a place begins with.
#[tactic(auto, unfolding(crate::specs::Headers::content_array))]
fn add_content(text: &mut String, place: usize, content: &Contents) -> Result<(), AllocError>
    ensures { OnOk result (string_bytes text.new
        ≡ string_bytes text.old ++ content_array place content.now) }
{
    add_content_line(text, place)?;
    add_c_bytes(text, content.bytes())
}

/// Adds the bytes that each bank begins with.
fn add_content_arrays(text: &mut String, contents: &[Contents]) -> Result<(), AllocError>
    ensures { OnOk result (string_bytes text.new
        ≡ string_bytes text.old ++ each_from content_array 0 contents.now) }
{
    for place in 0..contents.len() {
        add_content(text, place, &contents[place])?;
    }
    Ok(())
}

/// Adds a row for the bytes that a bank begins with.
fn add_content_row(text: &mut String, place: usize, content: &Contents) -> Result<(), AllocError>
    ensures { OnOk result (string_bytes text.new
        ≡ string_bytes text.old ++ content_row place content.now) }
{
    let count = content.bytes().len();
    writeln!(text, "  {{node_contents_{place}, {count}}},")
}

/// Adds a row for each bank.
fn add_content_rows(text: &mut String, contents: &[Contents]) -> Result<(), AllocError>
    ensures { OnOk result (string_bytes text.new
        ≡ string_bytes text.old ++ each_from content_row 0 contents.now) }
{
    for place in 0..contents.len() {
        add_content_row(text, place, &contents[place])?;
    }
    Ok(())
}

/// Adds the line before the image of the publish of a place.
fn add_publish_line(text: &mut String, place: usize) -> Result<(), AllocError>
    ensures { OnOk result (string_bytes text.new ≡ string_bytes text.old ++ publish_line place) }
{
    write!(text, "\nstatic const uint8_t node_publish_{place}[] = {{\n")
}

/// Adds the image of the publish of a place.
#[tactic(auto, unfolding(crate::specs::Headers::image_array))]
fn add_publish(text: &mut String, place: usize, program: &Accepted) -> Result<(), AllocError>
    ensures { OnOk result (string_bytes text.new
        ≡ string_bytes text.old ++ image_array place program.now) }
{
    let image = program.image().write()?;
    add_publish_line(text, place)?;
    add_c_bytes(text, image.as_slice())
}

/// Adds the images that are published.
fn add_publish_arrays(text: &mut String, publishes: &[(u8, Accepted)]) -> Result<(), AllocError>
    ensures { OnOk result (string_bytes text.new
        ≡ string_bytes text.old ++ each_from publish_array 0 publishes.now) }
{
    for place in 0..publishes.len() {
        add_publish(text, place, &publishes[place].1)?;
    }
    Ok(())
}

/// Adds a row for an image of this many bytes, which is published in this slot.
fn add_slot_row(text: &mut String, place: usize, slot: u8, count: usize) -> Result<(), AllocError>
    ensures { OnOk result
        (string_bytes text.new ≡ string_bytes text.old ++ slot_row place slot count) }
{
    write!(text, "  {{{slot}, node_publish_{place}, {count}}},\n")
}

/// Adds a row for a publish in this slot.
fn add_publish_row(
    text: &mut String,
    place: usize,
    slot: u8,
    program: &Accepted,
) -> Result<(), AllocError>
    ensures { OnOk result (string_bytes text.new
        ≡ string_bytes text.old ++ program_row place slot program.now) }
{
    let image = program.image().write()?;
    add_slot_row(text, place, slot, image.len())
}

/// Adds a row for each publish.
fn add_each_publish_row(text: &mut String, publishes: &[(u8, Accepted)]) -> Result<(), AllocError>
    ensures { OnOk result (string_bytes text.new
        ≡ string_bytes text.old ++ each_from publish_row 0 publishes.now) }
{
    for place in 0..publishes.len() {
        let slot = publishes[place].0;
        add_publish_row(text, place, slot, &publishes[place].1)?;
    }
    Ok(())
}

/// Adds a row for each publish; one of zeros if there is none.
fn add_publish_rows(text: &mut String, publishes: &[(u8, Accepted)]) -> Result<(), AllocError>
    ensures { OnOk result (string_bytes text.new
        ≡ string_bytes text.old ++ publish_rows publishes.now) }
{
    if publishes.is_empty() {
        return text.push_str("  {0, 0, 0},\n");
    }
    add_each_publish_row(text, publishes)
}

/// Adds what is before all else.
#[tactic(auto, unfolding(crate::specs::Headers::head_text))]
fn add_head(text: &mut String) -> Result<(), AllocError>
    ensures { OnOk result (string_bytes text.new ≡ string_bytes text.old ++ head_text) }
{
    text.push_str(HEAD)
}

/// Adds the line before the banks.
#[tactic(auto, unfolding(crate::specs::Headers::banks_head))]
fn add_banks_head(text: &mut String) -> Result<(), AllocError>
    ensures { OnOk result (string_bytes text.new ≡ string_bytes text.old ++ banks_head) }
{
    text.push_str("\nstatic const struct sandbar_bank node_banks[] = {\n")
}

/// Adds the end of the banks, and the line before the maps.
#[tactic(auto, unfolding(crate::specs::Headers::maps_head))]
fn add_maps_head(text: &mut String) -> Result<(), AllocError>
    ensures { OnOk result (string_bytes text.new ≡ string_bytes text.old ++ maps_head) }
{
    text.push_str("};\n\nstatic const struct sandbar_map node_maps[] = {\n")
}

/// Adds the end of the maps, and the line before the image.
#[tactic(auto, unfolding(crate::specs::Headers::image_head))]
fn add_image_head(text: &mut String) -> Result<(), AllocError>
    ensures { OnOk result (string_bytes text.new ≡ string_bytes text.old ++ image_head) }
{
    text.push_str("};\n\nstatic const uint8_t node_image[] = {\n")
}

/// Adds the line before the rows of what banks begin with.
#[tactic(auto, unfolding(crate::specs::Headers::contents_head))]
fn add_contents_head(text: &mut String) -> Result<(), AllocError>
    ensures { OnOk result (string_bytes text.new ≡ string_bytes text.old ++ contents_head) }
{
    text.push_str(
        "\nstatic const struct { const uint8_t *bytes; size_t length; } node_contents[] = {\n",
    )
}

/// Adds the line before the rows of publishes.
#[tactic(auto, unfolding(crate::specs::Headers::publishes_head))]
fn add_publishes_head(text: &mut String) -> Result<(), AllocError>
    ensures { OnOk result (string_bytes text.new ≡ string_bytes text.old ++ publishes_head) }
{
    text.push_str(
        "\nstatic const struct { uint8_t slot; const uint8_t *image; size_t length; } node_publishes[] = {\n",
    )
}

/// Adds the numbers, the banks and the maps of a node.
#[tactic(auto, unfolding(crate::specs::Headers::front_text))]
fn add_front(text: &mut String, node: &OwnNode) -> Result<(), AllocError>
    ensures { OnOk result (string_bytes text.new ≡ string_bytes text.old ++ front_text node.now) }
{
    add_c_numbers(text, node)?;
    add_banks_head(text)?;
    add_bank_rows(text, node.banks())?;
    add_maps_head(text)?;
    add_maps(text, &node.sizes())
}

/// Adds the bytes that banks begin with, and a row for each bank.
#[tactic(auto, unfolding(crate::specs::Headers::contents_text))]
fn add_contents(text: &mut String, contents: &[Contents]) -> Result<(), AllocError>
    ensures { OnOk result (string_bytes text.new
        ≡ string_bytes text.old ++ contents_text contents.now) }
{
    add_content_arrays(text, contents)?;
    add_contents_head(text)?;
    add_content_rows(text, contents)?;
    text.push_str("};\n")
}

/// Adds the images that are published, and a row for each publish.
#[tactic(auto, unfolding(crate::specs::Headers::publishes_text))]
fn add_publishes(text: &mut String, publishes: &[(u8, Accepted)]) -> Result<(), AllocError>
    ensures { OnOk result (string_bytes text.new
        ≡ string_bytes text.old ++ publishes_text publishes.now) }
{
    add_publish_arrays(text, publishes)?;
    add_publishes_head(text)?;
    add_publish_rows(text, publishes)?;
    text.push_str("};\n")
}

/// Adds the image that judges in all slots at first, what banks begin with, and what is published.
#[tactic(auto, unfolding(crate::specs::Headers::bytes_text))]
fn add_bytes_of(text: &mut String, node: &OwnNode, image: &[u8]) -> Result<(), AllocError>
    ensures { OnOk result (string_bytes text.new
        ≡ string_bytes text.old ++ bytes_text node.now image.now) }
{
    add_image_head(text)?;
    add_c_bytes(text, image)?;
    add_contents(text, node.contents())?;
    add_publishes(text, node.publishes())
}

/// The header of a node, with the image that judges in all slots at first, the bytes of its pool, and the quotas of its table.
///
/// # Errors
///
/// An error if memory is refused.
pub fn whole_header(
    alloc: Global,
    node: &OwnNode,
    program: &Accepted,
    quotas: &Option<Vec<Quota>>,
) -> Result<String, AllocError>
    ensures { IfOk result (λ text. IsHeader node.now program.now
        (option_map (λ q. q.items) quotas.now) (string_bytes text)) }
{
    let image = program.image().write()?;
    let pool = pool_of(alloc, node, program)?;
    let mut text = String::new(alloc);
    add_head(&mut text)?;
    add_front(&mut text, node)?;
    add_bytes_of(&mut text, node, image.as_slice())?;
    add_header_end(&mut text, pool, quotas)?;
    Ok(text)
}
