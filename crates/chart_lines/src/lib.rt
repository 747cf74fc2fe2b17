//! Charts of policy tables.
//!
//! [`map_rows`] says what a table decides at each port, [`difference_rows`] where two tables differ, and
//! [`never_matching`] which rules match nowhere. The lines of a chart are few ([`map_of`], [`comparison_of`]):
//! addresses are gathered in boxes, and bytes and kinds with the same report in sets.
#![tactic(auto)]

mod asked;
mod boxes;
mod comparing;
mod drawing;
mod mapping;
mod never;
mod parts;
mod ports;
mod rows;
mod witnesses;

pub use asked::AskedRules;
pub use comparing::difference_rows;
pub use drawing::{comparison_of, map_of};
pub use mapping::map_rows;
pub use never::{Note, Reason, never_matching};
pub use ports::{PORTS, Tables};
pub use rows::{ChartRow, RowChange, RowContent};
