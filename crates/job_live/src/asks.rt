//! What a line of a talk asks for.

ghost use Rattle.std.specs.Prelude.{◌∷◌, map};
ghost use Rattle.job_live.specs.Asks.{IsAskedBy};

/// What a line of a talk asks for, by its words.
#[derive(Clone, Copy, Debug, PartialEq, Eq)]
pub enum Asks {
    /// To be taken as a packet line.
    Packet,
    /// The journal: `journal`.
    Journal,
    /// The words of all cells: `cells`.
    Cells,
    /// A write of the instrument: `set`, and words after it.
    Set,
}

/// What a line of this first word asks for, with the others after it.
fn asked_by(first: &str, others: &[&str]) -> Asks
    ensures { IsAskedBy (first.now ∷ map (λ word. word.now) others.now) result }
{
    match first {
        "journal" if others.is_empty() => Asks::Journal,
        "cells" if others.is_empty() => Asks::Cells,
        "set" => Asks::Set,
        _ => Asks::Packet,
    }
}

/// What a line of these words asks for.
pub fn asked(words: &[&str]) -> Asks
    ensures { IsAskedBy (map (λ word. word.now) words.now) result }
{
    let [first, others @ ..] = words else {
        return Asks::Packet;
    };
    asked_by(first, others)
}
