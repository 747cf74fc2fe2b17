//! Laws about calls. The functions do no work: their contracts are the laws.

ghost use Rattle.plain_cells.specs.Words.{CallsGoOn, CallsKeepCells, TicketsAreCounted, ZerosAreCells};

/// A law and no work: if calls were answered in order, the later ones were answered by the words that the earlier ones
/// left.
pub fn calls_go_on()
    ensures { CallsGoOn }
{}

/// A law and no work: the word of a counter rises by the tickets that are drawn, while there are words for that many.
/// There stays a word for each cell, as there is at first, when each is 0.
pub fn tickets_are_counted()
    ensures counted { TicketsAreCounted }
    ensures cells { CallsKeepCells }
    ensures zeros { ZerosAreCells }
{}
