//! The steps of a command of a schedule.

ghost use Rattle.std.specs.Prelude.{◌≡◌};
ghost use Rattle.sched.specs.Answers.{answering};
ghost use Rattle.job_nodes.specs.Settled.{IsCommandEnd};

use machine::Helper;
use rmap::Place;
use sched::Event;

/// The event that answers a helper at the port.
pub fn answered_by(helper: Helper, port: u8) -> Event
    ensures { result ≡ answering helper port }
{
    match helper {
        Helper::Count => Event::Count(port),
        Helper::Ticket => Event::Ticket(port),
        Helper::Peak => Event::Peak(port),
    }
}

/// The event that ends the command at a port, if its bytes are there.
pub fn ending(port: u8, place: Place) -> Event
    ensures { IsCommandEnd port result }
{
    match place {
        Place::Bank(_) | Place::Staging | Place::LoadResult => Event::Effect(port),
        Place::Control => Event::Publish(port),
    }
}
