//! The laws of quotas.

ghost use Rattle.quotas.specs.Alone.{QuotasHoldAlone};
ghost use Rattle.quotas.specs.MatchesInHistory.{MatchesAreCounted, QuotasHold};
ghost use Rattle.quotas.specs.Threads.{QuotasHoldInThreads};

use plain_cells::tickets_are_counted;
use ports::workers_ask_once;
use sched::{every_schedule_judges_once, turns_are_paths};

/// A law and no work: in every lawful history, rules on a cell with limits of at most N match at most N commands. That
/// is over all ports and all programs, while fewer than 2⁶⁴ tickets of the cell were drawn. If the decision of a done
/// command's table ends by the match of such a rule, that command is counted.
pub fn quotas_hold()
    ensures holds { QuotasHold }
    ensures counted { MatchesAreCounted }
{
    turns_are_paths();
    every_schedule_judges_once();
}

/// A law and no work: at a node of one thread rules on a cell with limits of at most N match at most N commands. That
/// is so whatever is done to the node (`SingleNode`), over all ports and all programs, while fewer than 2⁶⁴ tickets of
/// the cell were drawn. The law has no premise on who else asks the cells: nobody does.
pub fn quotas_hold_alone()
    ensures { QuotasHoldAlone }
{
    tickets_are_counted();
}

/// A law and no work: a quota holds at the ports that threads served since their node was made. Their seats came back
/// to its cells ([`Pass::into_seat`](target::Pass::into_seat), [`Cells::take_back`](cells::Cells::take_back)). Of the
/// commands that were judged, rules on a cell with limits of at most N match at most N. That is over all ports and all
/// programs, while fewer than 2⁶⁴ of the cell's tickets were drawn. [`Cells::drawn`](cells::Cells::drawn) says of cells
/// to which each seat came back that the tickets are the numbers from 0 on.
pub fn quotas_hold_in_threads()
    ensures { QuotasHoldInThreads }
{
    workers_ask_once();
}
