//! The words of the cells of a node.

ghost use Rattle.std.specs.Prelude.{◌≡◌, ◌≢◌, Some};
ghost use Rattle.plain_cells.specs.Words.{word_in};
ghost use Rattle.single_node_c.specs.Held.{IfNode, code_on};
ghost use Rattle.single_node_c.specs.Words.{ReportsWord, word_code};
ghost use Rattle.single_node_c.specs.declared.codes.TheConstants.{OK};

use crate::codes::{NO_CELL, NO_NODE, OK};
use crate::handle::Handle;
use crate::held::{put, take};
use single_node::SingleNode;
use std::alloc::Global;

/// Reports the word of a cell, if there is that cell, and gives a code.
fn report_word(node: &SingleNode, map: u8, cell: u16, word: &mut u64) -> u32
    ensures code { result ≡ word_code map cell node.now }
    ensures reported { result ≡ OK → ReportsWord map cell word.new node.now }
    ensures word { result ≢ OK → word.new ≡ word.old }
{
    match node.word(map, cell) {
        Some(found) => {
            *word = found;
            OK
        }
        None => NO_CELL,
    }
}

/// Reports the word of a cell: how many tickets were drawn from it, modulo 2^64, or the greatest number that was shown
/// to it. The node stays as it is.
#[unsafe(no_mangle)]
pub extern "C" fn sandbar_word(
    alloc: Global,
    handle: &mut Handle,
    map: u8,
    cell: u16,
    word: &mut u64,
) -> u32
    ensures code { result ≡ code_on handle.old.kept (word_code map cell) }
    ensures reported { result ≡ OK → IfNode handle.old.kept (ReportsWord map cell word.new) }
    ensures word { result ≢ OK → word.new ≡ word.old }
    ensures node { handle.new.kept ≡ handle.old.kept }
{
    let Some(guarded) = take(alloc, handle) else {
        return NO_NODE;
    };
    let code = report_word(&guarded.node, map, cell, word);
    put(alloc, handle, guarded);
    code
}
