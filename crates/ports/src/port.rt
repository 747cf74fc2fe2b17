//! A port: a queue of packets from one producer to one worker.

ghost use Rattle.std.specs.Prelude.{◌≡◌, ◌∷◌, ◌++◌, ◌<◌, ◌≤◌, [], List, IfOk, MatchResult};
ghost use Rattle.ports.specs.declared.item.Item.{Item};
ghost use Rattle.ports.specs.declared.item.Item.TheVariants.{Data, Mark};
ghost use Rattle.ports.specs.Queue.{put_of, taken_of, IsPutPassOf, IsServePassOf, MayBeFull, IsServePassAfter, capacity_of};

use crate::item::{Item, Log};
use crossbeam_queue::protocol::{Join, Lesson, Outcome, Protocol, Split};
use crossbeam_queue::{Pass, RuledArrayQueue};
use crossbeam_utils::sync::{Parker, Unparker};
use spw::Packet;
use std::alloc::{AllocError, Global};
use std::sync::Wait;

/// The most items that a queue can have room for.
pub const MAX_CAPACITY: u16 = 1024;

/// How many items a pass puts at most: 2^62.
const MOST: u64 = 0x4000_0000_0000_0000;

/// The rule of a port's queue: what was put is what was taken, then what the queue holds.
pub(crate) struct InOrder;

impl Protocol<Item, Log> for InOrder {
    ghost use Rattle.std.specs.Prelude.{true, []};
    ghost use Rattle.ports.specs.Queue.{log, InOrder};

    ghost holds = { InOrder };

    ghost first = { log true true [] [] };
}

/// One pass may put, and the other may take.
struct Roles;

impl Split<Log> for Roles {
    ghost use Rattle.std.specs.Prelude.{true, false, []};
    ghost use Rattle.ports.specs.Queue.{log};

    ghost left = { λ v. log true false v.put [] };

    ghost right = { λ v. log false true [] v.taken };
}

impl Join<Log> for Roles {
    ghost use Rattle.std.specs.Prelude.{true, false, []};
    ghost use Rattle.ports.specs.Queue.{log};

    ghost both = { λ v w. log true true v.put w.taken };

    ghost spent = { log false false [] [] };
}

/// An item was put.
struct Puts;

impl Outcome<Item, Log> for Puts {
    ghost use Rattle.ports.specs.Queue.{log};

    ghost then = { λ v x w. w ≡ log v.puts v.takes (v.put ++ x ∷ []) v.taken };
}

impl Lesson<Item, Log> for Puts {
    ghost use Rattle.ports.specs.Queue.{IsEnd};

    ghost fact = { λ v items. IsEnd items v.put };
}

/// An item was taken.
struct Takes;

impl Outcome<Item, Log> for Takes {
    ghost use Rattle.ports.specs.Queue.{log};

    ghost then = { λ v x w. w ≡ log v.puts v.takes v.put (v.taken ++ x ∷ []) };
}

/// What a pass that may put and take knows of the whole.
struct Total;

impl Lesson<Item, Log> for Total {
    ghost fact = { λ v items. v.put ≡ v.taken ++ items };
}

/// Why the queue took no item: it was full, or 2^62 items were put.
#[derive(Clone, Copy, Debug, PartialEq, Eq)]
pub struct Full;

/// A port: its queue, and what wakes its worker. Producer and worker share it, and each has a pass of its own.
#[derive(Drop)]
pub struct Port {
    queue: RuledArrayQueue<Item, Log, InOrder>,
    worker: Unparker,
}

/// What the one producer of a port puts with. Only [`Port::new`] makes it, and it is of that port.
#[derive(Drop)]
pub struct PutPass {
    pass: Pass<Item, Log>,
    puts: u64,
}

/// What the one worker of a port takes with. Only [`Port::new`] makes it, and it is of that port.
#[derive(Drop)]
pub struct ServePass {
    pass: Pass<Item, Log>,
    parker: Parker,
}

impl Port {
    /// A port whose queue is empty and has room for that many items, and the passes of its producer and of its worker.
    /// The condition is a capacity of 1 to [`MAX_CAPACITY`]. The call takes the room, which does not grow.
    ///
    /// # Errors
    ///
    /// Memory was refused.
    pub fn new(alloc: Global, capacity: u16) -> Result<(Port, PutPass, ServePass), AllocError>
        requires some { 0 < capacity }
        requires few { capacity ≤ MAX_CAPACITY }
        ensures puts { IfOk result (λ made. IsPutPassOf made.0 made.1) }
        ensures serves { IfOk result (λ made. IsServePassOf made.0 made.2) }
        ensures empty { IfOk result (λ made. (put_of made.1 ≡ []) × (taken_of made.2 ≡ [])) }
        ensures room { IfOk result (λ made. capacity_of made.0 ≡ capacity) }
    {
        let parker = Parker::new(alloc)?;
        let worker = parker.unparker().clone()?;
        let (queue, mut putting) = RuledArrayQueue::<Item, Log, InOrder>::ruled(
            alloc,
            usize::from(capacity),
        )?;
        let taking = queue.another::<Roles>(&mut putting);
        Ok((
            Port { queue, worker },
            PutPass {
                pass: putting,
                puts: 0,
            },
            ServePass {
                pass: taking,
                parker,
            },
        ))
    }

    /// Puts an item at the queue's end, and wakes the worker. It may wait for a thread that is taking.
    fn push<R: Wait>(&self, rt: &R, pass: &mut PutPass, item: Item) -> Result<(), Item>
        requires { IsPutPassOf self.now pass.old }
        ensures pass { IsPutPassOf self.now pass.new }
        ensures put { MatchResult result
            (λ _. put_of pass.new ≡ put_of pass.old ++ item ∷ [])
            (λ back. (back ≡ item) × (put_of pass.new ≡ put_of pass.old)
            × MayBeFull self.now pass.old) }
    {
        if pass.puts >= MOST {
            return Err(item);
        }
        self.queue.push_as::<Puts, _>(rt, &mut pass.pass, item)?;
        pass.puts += 1;
        self.worker.unpark();
        Ok(())
    }

    /// Puts a packet at the queue's end. It may wait for a thread that is taking. The condition is this port's pass.
    ///
    /// # Errors
    ///
    /// [`Full`], with the packet as it came, if the queue is full or 2^62 items were put. Nothing was put. It is proved
    /// that as many items were put as the queue has room for. It is tested that the queue was full at some moment of
    /// the call.
    pub fn put<R: Wait>(
        &self,
        rt: &R,
        pass: &mut PutPass,
        packet: Packet,
    ) -> Result<(), (Full, Packet)>
        requires { IsPutPassOf self.now pass.old }
        ensures pass { IsPutPassOf self.now pass.new }
        ensures put { MatchResult result
            (λ _. put_of pass.new ≡ put_of pass.old ++ Data packet ∷ [])
            (λ back. (back.1 ≡ packet) × (put_of pass.new ≡ put_of pass.old)
            × MayBeFull self.now pass.old) }
    {
        match self.push(rt, pass, Item::Data(packet)) {
            Ok(()) => Ok(()),
            Err(Item::Data(back)) => Err((Full, back)),
            Err(Item::Mark) => unreachable!(),
        }
    }

    /// Puts the end mark at the queue's end: the worker that takes it ends. It may wait for a thread that is taking.
    /// The condition is this port's pass.
    ///
    /// # Errors
    ///
    /// [`Full`], as of [`Port::put`]. The queue has no new end mark.
    pub fn close<R: Wait>(&self, rt: &R, pass: &mut PutPass) -> Result<(), Full>
        requires { IsPutPassOf self.now pass.old }
        ensures pass { IsPutPassOf self.now pass.new }
        ensures put { MatchResult result
            (λ _. put_of pass.new ≡ put_of pass.old ++ Mark ∷ [])
            (λ _. (put_of pass.new ≡ put_of pass.old) × MayBeFull self.now pass.old) }
    {
        match self.push(rt, pass, Item::Mark) {
            Ok(()) => Ok(()),
            Err(_) => Err(Full),
        }
    }

    /// Takes the item at the queue's front. It waits for one, and parks if a look found none. The condition is this
    /// port's pass.
    pub fn take<R: Wait>(&self, rt: &R, pass: &mut ServePass) -> Item
        requires { IsServePassOf self.now pass.old }
        ensures pass { IsServePassOf self.now pass.new }
        ensures same { IsServePassAfter pass.old pass.new }
        ensures taken { taken_of pass.new ≡ taken_of pass.old ++ result ∷ [] }
    {
        for _ in rt.forever() {
            if let Some(item) = self.queue.try_pop_as::<Takes>(&mut pass.pass) {
                return item;
            }
            pass.parker.park(rt);
        }
        unreachable!()
    }

    /// Takes the worker's pass back into the producer's, and so ends the port: the producer may still put, and nobody
    /// takes. What the worker has taken is a beginning of what was put, in order, each once. The worker's other fields
    /// keep what its port has of its node, and what it knows of the history of the node's banks. The condition is two
    /// passes of this port.
    pub fn rejoin(&self, pass: &mut PutPass, serve_pass: ServePass)
        requires puts { IsPutPassOf self.now pass.old }
        requires serves { IsServePassOf self.now serve_pass }
        ensures pass { IsPutPassOf self.now pass.new }
        ensures put { put_of pass.new ≡ put_of pass.old }
        ensures beginning { (rest : List Item) × (put_of pass.old ≡ taken_of serve_pass ++ rest) }
    {
        self.queue.absorb::<Roles>(&mut pass.pass, serve_pass.pass);
        self.queue.learn_as::<Total>(&mut pass.pass);
    }
}
