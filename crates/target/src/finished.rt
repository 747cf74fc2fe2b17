//! The second half of a packet's way: its effect at a bank with its chain, as a lock guards it.

ghost use Rattle.std.specs.Prelude.{◌≡◌, IfNone, IfSome, length, true};
ghost use Rattle.bank.specs.Records.{is_next};
ghost use Rattle.node_parts.specs.Steps.{IsBankBelow};
ghost use Rattle.node_parts.specs.Applied.{share_of};
ghost use Rattle.annals.specs.Banks.{takes};
ghost use Rattle.target.specs.Finished.{AsksForEntry, IsFinishedAt};

use crate::pass::Pass;
use annals::{Family, Front, Kept, publishes_grow};
use bank::{Applied, Judged};
use node_parts::shares_agree;
use rmap::{Place, ReplyBuf};

/// If the bank left an entry, the port knows what was reached.
fn advance<J: Family>(front: &mut Front<J>, reached: Front<J>, number: Option<u64>)
    ensures some { IfSome number (λ n. front.new ≡ reached) }
    ensures none { IfNone number (front.new ≡ front.old) }
{
    if number.is_some() {
        *front = reached;
    }
}

/// Ends a judged command at a bank with its chain, with the port's share of the bank of its place, and leaves the reply:
/// [`Kept::finish`].
///
/// If it leaves an entry, the port's line asked for that before. The entry is the last of a history which goes on from
/// what the port knew, and the port knows that history then. Status and reply are the definition's on the replay of
/// what was before it. All publishes that the port knew come before it too, so that of the program by which it was
/// judged does.
///
/// If the bank is another, or [`Bank::fits`](bank::Bank::fits) says no, the answer is a general error, and nothing
/// changes. The condition is the place of a bank of which the port has a share ([`Pass::banks`]).
pub fn finish<J: Family>(
    pass: &mut Pass<J>,
    kept: &mut Kept<J>,
    front: &mut Front<J>,
    judged: Judged,
    reply: &mut ReplyBuf,
) -> Applied
    requires { IsBankBelow judged.place (length pass.old.pass.shares) }
    ensures finished { IsFinishedAt kept.old kept.new front.old front.new pass.old.pass
        pass.new.pass judged result reply.new }
    ensures asked { AsksForEntry kept.old.chain.number pass.old.pass judged result
        pass.old.asked pass.new.asked }
    ensures kept { length pass.new.pass.shares ≡ length pass.old.pass.shares }
    ensures number { kept.new.chain.number ≡ kept.old.chain.number }

    // If it is applied, share and count agree before, and so they do afterwards.
    ensures agrees { takes kept.old (share_of pass.old.pass judged.place) judged ≡ true
        → is_next kept.new.bank (share_of pass.new.pass judged.place) ≡ true }
{
    shares_agree();
    let Place::Bank(k) = judged.place() else {
        unreachable!()
    };
    publishes_grow();
    let mut known = front.again();
    pass.loader.reader.announce(&mut known);
    let applied = kept.finish(
        &mut known,
        &mut pass.loader.line,
        &mut pass.shares[usize::from(k)],
        judged,
        reply,
    );
    advance(front, known, applied.number);
    applied
}
