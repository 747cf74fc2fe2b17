//! The lines of the cells of a node.

ghost use Rattle.std.specs.Prelude.{◌≡◌, ◌<◌, OnOk, length, slice_index};
ghost use Rattle.job_live.specs.CellLines.{cells_text, map_line, words_text};
ghost use Rattle.job_parts.specs.Printed.{Prints};
ghost use Rattle.machine.specs.Sizes.{IsInside};
ghost use Rattle.node_programs.specs.Published.{sizes_of};
ghost use Rattle.plain_cells.specs.Words.{key_word_at};

use machine::MapSizes;
use single_node::SingleNode;
use std::io::{self, Write};

/// The word of a cell. The condition is a cell that is there.
fn word_at(node: &SingleNode, map: u8, key: u16) -> u64
    requires { IsInside (sizes_of node.now.programs) map key }
    ensures { result ≡ key_word_at node.now.words map key }
{
    node.word(map, key).unwrap()
}

/// How many cells a map has. The condition is a map that is there.
fn cells_of(sizes: &MapSizes, map: u8) -> u16
    requires { map < length sizes.now.cells }
    ensures { result ≡ slice_index sizes.now.cells map }
{
    sizes.cells(map).unwrap()
}

/// Prints the words of the cells of a map, by key, each after a space. The conditions are a map that is there, and how
/// many cells it has.
fn print_words<W: Write>(out: &mut W, node: &SingleNode, map: u8, count: u16) -> io::Result<()>
    requires map { map < length (sizes_of node.now.programs).cells }
    requires count { count ≡ slice_index (sizes_of node.now.programs).cells map }
    ensures { OnOk result (Prints W.contents out.old out.new
        (words_text node.now.words map count)) }
{
    for key in 0..count {
        let word = word_at(node, map, key);
        write!(out, " {word}")?;
    }
    Ok(())
}

/// Prints the line of a map: `cells MAP WORD WORD ..`. The conditions are those of [`print_words`].
fn print_map<W: Write>(out: &mut W, node: &SingleNode, map: u8, count: u16) -> io::Result<()>
    requires map { map < length (sizes_of node.now.programs).cells }
    requires count { count ≡ slice_index (sizes_of node.now.programs).cells map }
    ensures { OnOk result (Prints W.contents out.old out.new (map_line node.now.words map count)) }
{
    write!(out, "cells {map}")?;
    print_words(out, node, map, count)?;
    writeln!(out)
}

/// Prints the word of each cell of the node, a line a map, and how many maps there are: `cells N maps`.
///
/// # Errors
///
/// The error of `out`, if it does not take all of the text.
pub fn print_cells<W: Write>(out: &mut W, node: &SingleNode) -> io::Result<()>
    ensures { OnOk result (Prints W.contents out.old out.new
        (cells_text (sizes_of node.now.programs) node.now.words)) }
{
    let sizes = node.sizes();
    let maps = sizes.maps();
    for map in 0..maps {
        let count = cells_of(&sizes, map);
        print_map(out, node, map, count)?;
    }
    writeln!(out, "cells {maps} maps")
}
