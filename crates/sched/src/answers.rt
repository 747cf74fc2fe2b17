//! The events Count, Ticket and Peak: a helper of a port's program answers.

ghost use Rattle.std.specs.Prelude.{◌≡◌, ◌<◌, length};
ghost use Rattle.sched.specs.Answers.{answering};
ghost use Rattle.sched.specs.Worlds.{GoesOnLawfully};
ghost use Rattle.sched.specs.declared.event.Outcome.TheVariants.{Refused as RefusedOutcome};

use crate::event::Outcome;
use crate::laws::words_are_small;
use crate::world::World;
use machine::Helper;
use plain_cells::answered;

impl World {
    /// If the program of that port asks the helper, the helper answers it. The word of the cell becomes what the helper
    /// makes of it. The port must be one of the world.
    pub(crate) fn answer(&mut self, port: u8, helper: Helper) -> Outcome
        requires { port < length self.old.ports }
        ensures goes_on { GoesOnLawfully (answering helper port) result self.old self.new }
        ensures refused { result ≡ RefusedOutcome → self.new ≡ self.old }
    {
        let at = usize::from(port);
        let Some((map, key)) = self.ports[at].asked(helper) else {
            return Outcome::Refused;
        };
        let argument = self.ports[at].argument();
        let word = self.words.word(map, key);
        let (reported, following) = answered(helper, word, argument);
        words_are_small(reported);
        self.words.set(map, key, following);
        self.ports[at].answer_question(reported);
        Outcome::Told(reported)
    }
}
