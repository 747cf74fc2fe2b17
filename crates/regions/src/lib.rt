//! The commands that a node may bring to its policy table, as points, and regions of them.
//!
//! A [`Point`] is the part of a command that a rule looks at. A [`PointRegion`] is a product of sets, one a field. It is
//! [cut](Region::cut) by a side of another, and gives one of its [points](Region::witness), if a command has one.
//!
//! [`search`] cuts all commands by the regions of which a [`PointQuestion`] speaks, until one point answers it for all of a
//! region. [`cells`] gives all regions that are left then, and at which the answer is no.
#![tactic(auto)]

mod byte_sets;
mod cutting;
mod points;
mod questions;
mod regions;
mod sides;
mod spans;
mod stretches;

pub use byte_sets::ByteSet;
pub use cutting::{Cell, cells};
pub use points::Point;
pub use questions::{PointQuestion, search, search_in};
pub use regions::{Kinds, PointRegion};
pub use sides::Side;
pub use stretches::Stretch;
