//! Laws of what was published.

ghost use Rattle.node_programs.specs.Laws.{IsSetByNext, IsLastFor, IsGenerationBelow, IsKeptOrLater};

/// What a list of programs says of a slot. One publish more sets it only for its own slot. The program is the last for
/// the slot, or the factory program if there is none; its generation is its place. After a publish for the slot that
/// program is published there, or a later one.
pub fn published_programs()
    ensures next { IsSetByNext }
    ensures last { IsLastFor }
    ensures below { IsGenerationBelow }
    ensures later { IsKeptOrLater }
{}
