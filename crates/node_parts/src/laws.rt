//! Laws about banks and ports, about staging, and about loads. Each function does no work: its contract is the law.

ghost use Rattle.std.specs.Prelude.{◌≡◌};
ghost use Rattle.node_parts.specs.Pairs.{MadeArePaired, PairedCommandsFit, OwnStaysPaired, OthersStayPaired};
ghost use Rattle.node_parts.specs.Keeping.{AnsweredAreServed, AppliedSharesAgree, LeavesAllPaired};
ghost use Rattle.node_parts.specs.Laws.{LoadsAreTaken, RefusalsSayWhy};

use bank::extents_stay;
use bver_form::first_faults;
use node_programs::published_programs;

/// A law and no work: the banks and the passes of all ports are paired as they are made.
pub fn made_are_paired()
    ensures { MadeArePaired }
{}

/// A law and no work: if banks and a port are paired, a command judged for the port fits the bank of its place. So it
/// is applied.
pub fn paired_commands_fit()
    ensures { PairedCommandsFit }
{}

/// A law and no work: a command that is applied with the share of its port leaves banks and ports paired. That is so of
/// its own port and of every other.
pub fn pairs_stay()
    ensures own { OwnStaysPaired }
    ensures others { OthersStayPaired }
{
    extents_stay();
}

/// A law and no work: what a packet that was served leaves of banks and ports. If they are paired, all of them stay so.
pub fn packets_keep_pairs()
    ensures served { AnsweredAreServed }
    ensures all { LeavesAllPaired }
{
    extents_stay();
}

/// A law and no work: if a command is applied, share and count agree before, and so they do afterwards.
pub fn shares_agree()
    ensures { AppliedSharesAgree }
{}

/// A law and no work: after a port's own load, the loaded program or a later one judges each command that the loaded
/// slot judges.
pub fn loads_are_taken()
    ensures { LoadsAreTaken }
{
    published_programs();
}

/// A law and no work: what the refusal of a load says, by its code and its slot.
pub fn refusals_say_why()
    ensures { RefusalsSayWhy }
{
    first_faults();
}
