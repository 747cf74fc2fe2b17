//! A node, as threads share it.

ghost use Rattle.std.specs.Prelude.{◌≡◌, ◌<◌, ◌≤◌, ◌-◌, [], All, length, IfOk, IfErr, None};
ghost use base.Stored.{Gv};
ghost use Rattle.std.specs.List.{All};
ghost use Rattle.annals.specs.Chains.{instrument};
ghost use Rattle.cells.specs.Seats.{cells};
ghost use Rattle.node_parts.specs.Nodes.{IsNodeFault, first_passes, limit_fault};
ghost use Rattle.publish.specs.Lines.{opening_line};
ghost use Rattle.publish.specs.Firsts.{IsFirstProgram, line_with_firsts};
ghost use Rattle.target.specs.Nodes.{AreInPlace, informed_passes};
ghost use Rattle.target.specs.Passes.{unasked};

use crate::lock::BankLock;
use crate::pass::Pass;
use crate::unshared::UnsharedNode;
use annals::{Family, Front, Line};
use bver::Accepted;
use cells::Cells;
use node_parts::{NodeConfig, NodeFault};
use publish::{NodeHistory, Publisher};
use std::alloc::Global;
use std::marker::Model;
use std::sync::{Mutex, Wait};

/// A node, as threads share it: its banks, each with its chain of one history, and what publishes its programs, each in
/// its lock. What belongs to one port is in the port's [`Pass`], and what it knows of the history is its [`Front`]. The
/// value of a node is how many banks it has. Its end waits for readers.
#[derive(Drop)]
pub struct Node<J: Family, R: Wait + Drop> {
    banks: Vec<BankLock<J>>,
    publisher: Mutex<Publisher<J, R>>,
    front: Front<J>,
}

impl<J: Family, R: Wait + Drop> Model for Node<J, R> {
    ghost use Rattle.std.specs.Prelude.{◌≡◌, ℕ, [], length};
    ghost use base.Stored.{Gv};
    ghost use Rattle.target.specs.Nodes.{AreInPlace};

    ghost Value = { ℕ };

    ghost view = { λ n. length n.banks.items };

    ghost invariant = { λ n. AreInPlace n.banks.items × (n.front ≡ []) };
}

impl<J: Family, R: Wait + Drop> Node<J, R> {
    /// A node with locks round banks of zero bytes and round what publishes its programs. Beside it is a pass for each
    /// port, in order, with a seat at the cells and a reader of the programs. In each slot the factory program judges,
    /// of generation 0. The publisher keeps `rt`. The condition is a program that was accepted for the maps of the
    /// configuration.
    ///
    /// # Errors
    ///
    /// - `Ports`, and then `Banks`, if one of their numbers is outside its limits.
    /// - `Memory` if memory was refused. If a publisher was made already, it ends then, which may wait.
    pub fn new(
        alloc: Global,
        rt: R,
        opened: NodeHistory,
        config: &NodeConfig,
        factory: Accepted,
    ) -> Result<(Node<J, R>, Vec<Pass<J>>), NodeFault>
        requires family { opened ≡ J.book }
        requires sizes { factory.sizes ≡ config.now.sizes }
        ensures banks { IfOk result (λ made. made.0 ≡ length config.now.banks.now) }
        ensures passes { IfOk result
            (λ made. (home : Gv) × (made.1.items ≡ unasked (first_passes config.now factory home))) }
        ensures limits { IfOk result (λ _. limit_fault config.now ≡ None) }
        ensures fault { IfErr result (IsNodeFault (limit_fault config.now)) }
    {
        let (node, _cells, passes, _line) = Node::with_cells(alloc, rt, opened, config, factory)?;
        Ok((node, passes))
    }

    /// A node as [`Node::new`] makes it, and beside it the cells of its maps, and the instrument's line. They are no
    /// part of the node, which is shared. Whoever keeps the cells may take each pass's seat back ([`Pass::into_seat`])
    /// and then knows which tickets were drawn. Without the line nobody sets memory or takes a journal
    /// ([`Kept`](annals::Kept)), and only a port's load publishes.
    ///
    /// # Errors
    ///
    /// Those of [`Node::new`].
    pub fn with_cells(
        alloc: Global,
        rt: R,
        opened: NodeHistory,
        config: &NodeConfig,
        factory: Accepted,
    ) -> Result<(Node<J, R>, Cells, Vec<Pass<J>>, Line<J>), NodeFault>
        requires family { opened ≡ J.book }
        requires sizes { factory.sizes ≡ config.now.sizes }
        ensures banks { IfOk result (λ made. made.0 ≡ length config.now.banks.now) }
        ensures cells { IfOk result
            (λ made. made.1 ≡ cells config.now.sizes made.1.home (256 - config.now.ports) []) }
        ensures passes { IfOk result
            (λ made. made.2.items ≡ unasked (first_passes config.now factory made.1.home)) }
        ensures line { IfOk result (λ made. made.3 ≡ opening_line factory) }
        ensures limits { IfOk result (λ _. limit_fault config.now ≡ None) }
        ensures fault { IfErr result (IsNodeFault (limit_fault config.now)) }
    {
        Node::with_programs(alloc, rt, opened, config, factory, &[])
    }

    /// A node as [`Node::with_cells`] makes it, with these programs published after that, in order. Each is published
    /// for its slot, with the next generation, the first with 1. The instrument's line asks for them, and each port
    /// knows of all. Stagings, load results, cells and journals are those of a node without them. The conditions are
    /// programs that were accepted for the maps of the configuration, slots of 0 to 3, and at most 4,294,967,295
    /// publishes.
    ///
    /// # Errors
    ///
    /// Those of [`Node::new`]. There is no node if a program is not published.
    pub fn with_programs(
        alloc: Global,
        rt: R,
        opened: NodeHistory,
        config: &NodeConfig,
        factory: Accepted,
        firsts: &[(u8, Accepted)],
    ) -> Result<(Node<J, R>, Cells, Vec<Pass<J>>, Line<J>), NodeFault>
        requires family { opened ≡ J.book }
        requires sizes { factory.sizes ≡ config.now.sizes }
        requires firsts { All (IsFirstProgram config.now.sizes) firsts.now }
        requires few { length firsts.now ≤ 4294967295 }
        ensures banks { IfOk result (λ made. made.0 ≡ length config.now.banks.now) }
        ensures cells { IfOk result
            (λ made. made.1 ≡ cells config.now.sizes made.1.home (256 - config.now.ports) []) }
        ensures passes { IfOk result (λ made.
            made.2.items ≡ unasked (informed_passes config.now factory firsts.now made.1.home)) }
        ensures line { IfOk result (λ made.
            made.3 ≡ line_with_firsts (opening_line factory) firsts.now) }
        ensures instrument { IfOk result (λ made. made.3.port ≡ instrument) }
        ensures limits { IfOk result (λ _. limit_fault config.now ≡ None) }
        ensures fault { IfErr result (IsNodeFault (limit_fault config.now)) }
    {
        let (unshared, cells, passes, line) = UnsharedNode::with_programs(
            alloc, rt, opened, config, factory, firsts,
        )?;
        let node = unshared.share(alloc)?;
        Ok((node, cells, passes, line))
    }

    /// The node of these: banks in their locks, each with its place for its number, its publisher, and what a port
    /// knows at first.
    pub(crate) fn of_parts(
        banks: Vec<BankLock<J>>,
        publisher: Publisher<J, R>,
        front: Front<J>,
    ) -> Node<J, R>
        requires numbers { AreInPlace banks.items }
        requires front { front ≡ [] }
        ensures { result ≡ length banks.items }
    {
        Node {
            banks,
            publisher: Mutex::new(publisher),
            front,
        }
    }

    /// How many banks the node has.
    pub fn banks(&self) -> usize
        ensures { result ≡ self.now }
    {
        self.banks.len()
    }

    /// The bank of that number, in its lock. The condition is a number below [`Node::banks`].
    pub fn bank(&self, k: u8) -> &BankLock<J>
        requires { k < self.now }
        ensures { result.now ≡ k }
    {
        &self.banks[usize::from(k)]
    }

    /// What a port knows at first of the history of the node's banks: nothing.
    pub fn front(&self) -> Front<J>
        ensures { result ≡ [] }
    {
        self.front.again()
    }

    /// What publishes the programs of the node, in its lock.
    pub fn publisher(&self) -> &Mutex<Publisher<J, R>> {
        &self.publisher
    }
}
