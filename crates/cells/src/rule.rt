//! The rule of the words, and what the steps on them report.

use crate::logs::SeatLog;
use atomic_table::{Join, Play, Split, Table, TableRule};
use machine::MapSizes;
use std::alloc::Global;

/// The words, in a table that has no slots.
pub(crate) type Words = Table<(), SeatLog, MapSizes, Ruled, Global>;

/// The rule of the words, for these maps.
pub(crate) struct Ruled;

impl TableRule<(), SeatLog, MapSizes> for Ruled {
    ghost use Rattle.std.specs.Prelude.{[]};
    ghost use Rattle.cells.specs.Counting.{IsCellTable, seat_log};

    ghost holds = { IsCellTable };

    ghost first = { λ maps. seat_log maps 256 [] };
}

/// A step that answers `count`.
pub(crate) struct Counts;

impl Play<(), SeatLog> for Counts {
    ghost use Rattle.machine.specs.declared.helpers.Helper.TheVariants as helpers;
    ghost use Rattle.cells.specs.Counting.{AnswersFound};

    ghost then = { AnswersFound helpers.Count };
}

/// A step that answers `ticket`.
pub(crate) struct Tickets;

impl Play<(), SeatLog> for Tickets {
    ghost use Rattle.machine.specs.declared.helpers.Helper.TheVariants as helpers;
    ghost use Rattle.cells.specs.Counting.{AnswersFound};

    ghost then = { AnswersFound helpers.Ticket };
}

/// A step that answers `peak`.
pub(crate) struct Peaks;

impl Play<(), SeatLog> for Peaks {
    ghost use Rattle.cells.specs.Counting.{RaisesWord};

    ghost then = { RaisesWord };
}

/// A step that reports how many tickets were drawn.
pub(crate) struct Totals;

impl Play<(), SeatLog> for Totals {
    ghost use Rattle.cells.specs.Counting.{ReportsTickets};

    ghost then = { ReportsTickets };
}

/// A step that reports what a word was raised to.
pub(crate) struct Heights;

impl Play<(), SeatLog> for Heights {
    ghost use Rattle.cells.specs.Counting.{ReportsPeak};

    ghost then = { ReportsPeak };
}

/// A seat gives one of its parts to a new one.
pub(crate) struct Parts;

impl Split<SeatLog> for Parts {
    ghost use Rattle.std.specs.Prelude.{◌-◌, []};
    ghost use Rattle.cells.specs.Counting.{seat_log};

    ghost left = { λ log. seat_log log.maps (log.parts - 1) log.answers };

    ghost right = { λ log. seat_log log.maps 1 [] };
}

impl Join<SeatLog> for Parts {
    ghost use Rattle.std.specs.Prelude.{◌+◌, ◌++◌};
    ghost use Rattle.cells.specs.Counting.{seat_log, spent_log};

    ghost both = { λ log other. seat_log log.maps (log.parts + other.parts) (log.answers ++ other.answers) };

    ghost spent = { spent_log };
}
