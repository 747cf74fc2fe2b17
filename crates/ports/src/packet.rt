//! The whole way of one packet, with the node's banks and publisher, which locks guard.

ghost use Rattle.std.specs.Prelude.{◌≡◌, ◌<◌, length};
ghost use Rattle.rmap.specs.declared.places.Place.TheVariants.{Control};
ghost use mathlib.Core.List.{IsPrefix};
ghost use Rattle.annals.specs.Chains.{done_for};
ghost use Rattle.annals.specs.Publishes.{publishes_of};
ghost use Rattle.ports.specs.Due.{HasDealt, HasFinished, HasLoadEnd, standing};

use annals::acts_grow;
use bank::Judged;
use publish::Publisher;
use rmap::{Place, ReplyBuf};
use spw::Packet;
use std::alloc::Global;
use std::sync::{MutexGuard, Wait};
use target::{BankLock, Family, Front, Node, Pass, Step, finish, judge, load, stage};

/// Ends a judged command at the bank that the lock guards. If it leaves an entry, that is the last of the history that
/// the port then knows. The condition is the lock of the bank that is the command's place, of which the pass has a
/// share.
fn finish_locked<R: Wait, J: Family>(
    rt: &R,
    lock: &BankLock<J>,
    pass: &mut Pass<J>,
    front: &mut Front<J>,
    judged: Judged,
    reply: &mut ReplyBuf,
)
    requires place { judged.place ≡ Place.Bank lock.now }
    requires pass { lock.now < length pass.old.pass.shares }
    ensures ended { HasFinished front.old front.new pass.old.pass pass.new.pass
        pass.old.asked pass.new.asked judged reply.new }
    ensures banks { length pass.new.pass.shares ≡ length pass.old.pass.shares }
{
    let mut guard = lock.lock(rt);
    let kept = &mut *guard;
    let _range = kept.range();
    finish(pass, kept, front, judged, reply);
    MutexGuard::unlock(guard);
}

/// The port learns all that was published and all that it did, as the history has it. The history has no more of either.
fn know<J: Family, Q: Wait + Drop>(
    pass: &mut Pass<J>,
    publisher: &mut Publisher<J, Q>,
    front: &mut Front<J>,
)
    ensures seen { IsPrefix front.old front.new }
    ensures published { publishes_of front.new ≡ publisher.old }
    ensures did { done_for pass.old.pass.port front.new ≡ pass.old.asked }
    ensures pass { pass.new ≡ pass.old }
    ensures publisher { publisher.new ≡ publisher.old }
{
    acts_grow();
    pass.announce(front);
    publisher.announce(front);
    publisher.knows_all(front);
    pass.knows_entries(front);
}

/// Ends a judged control write, under the publisher's lock. The condition is that place.
/// The port then knows where in the history that was.
fn load_locked<R: Wait, J: Family, Q: Wait + Drop>(
    rt: &R,
    alloc: Global,
    node: &Node<J, Q>,
    pass: &mut Pass<J>,
    front: &mut Front<J>,
    judged: Judged,
    reply: &mut ReplyBuf,
)
    requires { judged.place ≡ Place.Control }
    ensures ended { HasLoadEnd front.old front.new pass.old.pass pass.new.pass
        pass.old.asked pass.new.asked judged reply.new }
    ensures banks { length pass.new.pass.shares ≡ length pass.old.pass.shares }
{
    let mut guard = node.publisher().lock(rt);
    let publisher = &mut *guard;
    know(pass, publisher, front);
    load(alloc, pass, publisher, judged, reply);
    know(pass, publisher, front);
    MutexGuard::unlock(guard);
}

/// Serves one packet of a port: judges it, and ends it at the bank of its place, at the port's staging, or as a load.
/// `reply` holds the reply that is due then, if any. The call says whether the packet was no command.
///
/// It holds the lock of the bank only round `finish`. It holds the publisher's only round `load` and what the port
/// learns there. It holds none round `judge`.
///
/// A command that leaves an entry at a bank is the last of the history that the port then knows. Of a load the port
/// knows where in that history it was. Any other command met some bank, or some list of publishes, and the contract
/// says no more. The program that judges is the last of its slot that readers saw at one moment after what the port
/// knew. The condition is a pass with a share of each bank of the node.
pub(crate) fn serve_packet<R: Wait, J: Family, Q: Wait + Drop>(
    rt: &R,
    alloc: Global,
    node: &Node<J, Q>,
    pass: &mut Pass<J>,
    front: &mut Front<J>,
    packet: Packet,
    reply: &mut ReplyBuf,
) -> bool
    requires { length pass.old.pass.shares ≡ node.now }
    ensures dealt { HasDealt packet (standing pass.old front.old) (standing pass.new front.new)
        reply.new result }
    ensures banks { length pass.new.pass.shares ≡ length pass.old.pass.shares }
{
    let _banks = pass.banks();
    let mut seen = front.again();
    let judged = match judge(pass, &mut seen, packet, reply) {
        Step::Discarded(_, _packet) => return true,
        Step::Answered(_, _packet) => return false,
        Step::Unread(_packet) => return false,
        Step::Judged(judged) => judged,
    };
    *front = seen;
    match judged.place() {
        Place::Bank(k) => finish_locked(rt, node.bank(k), pass, front, judged, reply),
        Place::Staging | Place::LoadResult => {
            stage(pass, judged, reply);
        }
        Place::Control => load_locked(rt, alloc, node, pass, front, judged, reply),
    }
    false
}
