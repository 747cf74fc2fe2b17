//! The laws of what threads did. Each function does no work: its contract is the law.

ghost use Rattle.lawful.specs.Alone.{OnePortIsLawful};
ghost use Rattle.lawful.specs.Once.{ThreadsJudgeOnce};
ghost use Rattle.lawful.specs.Sample.{SampleIsLawful};
ghost use Rattle.lawful.specs.Together.{ThreadsAreLawful};

use bpf::image_laws;
use machine::runs_from_the_front;
use node_programs::published_programs;
use ports::workers_shares_count;
use sched::{every_history_judges_once, published_agrees};

/// A law and no work: apart from cells' answers, what a thread did at a fresh port, the only one served, is a lawful
/// history. Programs may be published before the first packet, and the port knows of all of them. At the port happened,
/// in order, what became of its packets. A command was taken, each helper that its run asked answered, and the command
/// was done with the reply that was due. The entries of each bank are those of the node's one list.
pub fn one_port_is_lawful()
    ensures { OnePortIsLawful }
{
    runs_from_the_front();
    image_laws();
    published_programs();
    workers_shares_count();
    published_agrees();
}

/// A law and no work: apart from cells' answers, what threads did at fresh ports, served side by side, is one lawful
/// history. The instrument may publish programs before the first packet, and each port knows of all of them. At each
/// port happened, in order, what became of its packets. The entries of each bank and the programs are those of the
/// node's one list, in its order.
pub fn threads_are_lawful()
    ensures { ThreadsAreLawful }
{
    runs_from_the_front();
    image_laws();
    published_programs();
    workers_shares_count();
    published_agrees();
}

/// A law and no work: the headline in threads. In one such history each command that was done was judged once, by the
/// program that was published for its slot when it was taken. The premises are those of [`threads_are_lawful`].
pub fn threads_judge_once()
    ensures { ThreadsJudgeOnce }
{
    threads_are_lawful();
    every_history_judges_once();
}

/// A law and no work: a worked example of [`threads_are_lawful`]. Two ports serve a bank. One loads a program, and the
/// other reads when the program is published and readers do not see it yet. They meet all premises at once, and the
/// history that the law speaks of is written out.
pub fn sample_is_lawful()
    ensures { SampleIsLawful }
{
    image_laws();
}
