//! Where two policy tables decide alike.
//!
//! [`first_difference`] finds a command that two tables decide differently, or shows that there is none.
//! [`is_in_pieces`] checks that lines report what a table decides, each command once, or where two tables differ.
//! [`map_cells`] and [`comparison_cells`] give such lines, one for each cell of a search, and [`point_in`] gives a
//! point of a line. [`never_matches`] says whether a rule decides on no command, and [`is_asked`], [`is_asked_where`]
//! and [`is_stopped_by`] say why.
#![tactic(auto)]

mod comparisons;
mod decisions;
mod laws;
mod leasts;
mod lines;
mod matches;
mod meetings;
mod pieces;
mod reported;
mod rests;
mod shapes;
mod walks;

pub use comparisons::first_difference;
pub use decisions::{alike, holds_at};
pub use laws::{
    charts_are_read, decision_paths, differences_have_headers, nodes_decide_alike, tickets_follow,
};
pub use leasts::{is_of_one_cell, raised};
pub use lines::ChartLine;
pub use matches::never_matches;
pub use meetings::{is_asked, is_asked_where, is_stopped_by};
pub use pieces::{FIELDS, is_in_pieces};
pub use reported::{comparison_cells, map_cells};
pub use rests::point_in;
pub use shapes::region_of;
