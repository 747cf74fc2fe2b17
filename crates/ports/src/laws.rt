//! Laws of what workers do. Each function does no work: its contract is the law.

ghost use Rattle.ports.specs.Laws.{WorkersProgramsWerePublished, WorkersAskOnce, WorkersEntriesAreAll, WorkersEntriesFollow, WorkersPublishesAreAll, WorkersSharesCount};

use annals::loads_are_apart;

/// Each verdict of a worker is that of a run of a program that was published in the slot of its command. The worker's
/// pass has seen that program in the end.
pub fn workers_programs_were_published()
    ensures { WorkersProgramsWerePublished }
{}

/// The calls that a worker's pass asked the cells are those of the runs of its judged commands. Each run is there once,
/// in order, and no others are.
pub fn workers_ask_once()
    ensures { WorkersAskOnce }
{}

/// Each share of a worker's pass grew by the entries that the worker's commands left at its bank.
pub fn workers_shares_count()
    ensures { WorkersSharesCount }
{}

/// A worker's port knows in the end a beginning of the one history of the node's banks. Each command of the worker that
/// left an entry at a bank is in it. Entries are there in the order of the port's packets. Each command has the status
/// and the reply of the definition on the replay of what is before it there. Each comes after the publish of the
/// generation by which it was judged.
pub fn workers_entries_follow()
    ensures { WorkersEntriesFollow }
{}

/// Let a history go on from what a worker knows in the end, with only those entries of its port that the shares count
/// ([`Pass::knows_entries`](target::Pass::knows_entries)). Then at each bank it has the worker's entries after those
/// that the share counted at first. They are those of the worker's commands that left one there, in the order of their
/// packets, each once, and no others.
pub fn workers_entries_are_all()
    ensures { WorkersEntriesAreAll }
{}

/// A law and no work: let a history have of a worker's port what it asked for, and nothing else
/// ([`Pass::tell`](target::Pass::tell), [`Pass::knows_entries`](target::Pass::knows_entries)). Then it has the port's
/// new publishes after those that the port had asked for at first. They are those of the worker's loads that published,
/// in the order of their packets, each once, and no others.
pub fn workers_publishes_are_all()
    ensures { WorkersPublishesAreAll }
{
    loads_are_apart();
}
