//! Every schedule of a node: the steps of its ports in any order, each one atomic, as a pure machine.
#![tactic(auto)]

mod answers;
mod control;
mod effect;
mod event;
mod faults;
mod laws;
mod port;
mod reply;
mod run;
mod schedule;
mod shown;
mod standing;
mod take;
mod world;

pub use event::{Event, Outcome};
pub use faults::WorldFault;
pub use laws::{
    arrays_are_headers, every_history_judges_once, every_schedule_judges_once, opened_are_taken,
    published_agrees, turns_are_paths,
};
pub use reply::ReplyBytes;
pub use schedule::{run_schedule, step};
pub use standing::Standing;
pub use world::World;
