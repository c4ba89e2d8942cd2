//! The cases of a board.
ghost use Rattle.std.specs.Prelude.{◌≡◌, ◌<◌, ◌≤◌, ◌^◌, ◌↔◌, ◌++◌, ◌∷◌, [], IfErr, IfOk, IsTrue, MatchOption, length, slice_get, slice_set};
ghost use Rattle.std.specs.Option.{option_copied};
ghost use Rattle.case_ledger.specs.declared.nodes.Node.TheVariants.{Pending, Settled};
ghost use Rattle.case_ledger.specs.Nodes.{IsPendingNode, HasNoPending, HasNoneBelow, IsFirstPending, IsNext, pending_in};

use case_state::SharedCase;
use std::alloc::{AllocError, Global};
use std::marker::Model;

/// What is kept of a case: the case itself while it is pending, and then the place of the entry that settled it.
#[derive(Drop)]
pub enum Node {
    Pending(SharedCase),
    Settled { at: u64 },
}

/// The nodes of all cases, in the order of their numbers, seen as a list.
///
/// The place of the first pending case and the number of pending cases are kept, so that no search goes over all nodes. Since cases are settled
/// in any order and never become pending again, the place only rises.
#[derive(Drop)]
pub struct Nodes {
    all: Vec<Node>,
    next: usize,
    pending: u64,
}

impl Model for Nodes {
    ghost use Rattle.std.specs.Prelude.{List};
    ghost use Rattle.case_ledger.specs.declared.nodes.Node.{Node};
    ghost use Rattle.case_ledger.specs.Nodes.{AreCounted};

    ghost Value = { List Node };

    ghost view = { λ n. n.all.items };

    ghost invariant = { λ n. AreCounted n.all.items n.next n.pending };
}

impl Nodes {
    /// One pending case.
    pub fn new(alloc: Global, case: SharedCase) -> Result<Nodes, AllocError>
        ensures { IfOk result (λ n. n ≡ Pending case ∷ []) }
    {
        let mut all = Vec::with_capacity(alloc, 1)?;
        all.push_reserved(Node::Pending(case));
        Ok(Nodes {
            all,
            next: 0,
            pending: 1,
        })
    }

    /// What is kept of case n.
    pub fn get(&self, n: u64) -> Option<&Node>
        ensures { option_copied result ≡ slice_get self.now n }
    {
        self.all.get(n as usize)
    }

    /// How many of the cases are pending.
    pub fn pending(&self) -> u64
        ensures { result ≡ pending_in self.now }
    {
        self.pending
    }

    /// The number of the first pending case.
    pub fn first_pending(&self) -> Option<u64>
        ensures { MatchOption result (HasNoPending self.now) (IsFirstPending self.now) }
    {
        if self.next < self.all.len() {
            return Some(self.next as u64);
        }
        None
    }

    /// Case n was settled by the entry at this place.
    pub fn settle(&mut self, n: u64, at: u64)
        requires { IsPendingNode self.old n }
        ensures { self.new ≡ slice_set self.old n (Settled at) }
    {
        self.all[n as usize] = Node::Settled { at };
        self.pending -= 1;
        self.next = next_pending(&self.all, self.next);
    }

    /// Case n was settled by the entry at this place, and its two branches are the next cases. It answers the number of the first. Where no memory
    /// is left, nothing changes, and the branches are handed back.
    pub fn split(
        &mut self,
        n: u64,
        at: u64,
        zero: SharedCase,
        nonzero: SharedCase,
    ) -> Result<u64, (SharedCase, SharedCase)>
        requires { IsPendingNode self.old n }
        ensures number { IfOk result (λ left. (left ≡ length self.old) × (left < 2 ^ 63)) }
        ensures ok { IfOk result (λ _. self.new ≡ slice_set self.old n (Settled at) ++ Pending zero ∷ Pending nonzero ∷ []) }
        ensures err { IfErr result (λ e. (e ≡ (zero, nonzero)) × (self.new ≡ self.old)) }
    {
        if self.all.reserve(2).is_err() {
            return Err((zero, nonzero));
        }
        let left = self.all.len() as u64;
        self.all[n as usize] = Node::Settled { at };
        self.all.push_reserved(Node::Pending(zero));
        self.all.push_reserved(Node::Pending(nonzero));
        self.pending += 1;
        self.next = next_pending(&self.all, self.next);
        Ok(left)
    }
}

// The place of the first pending case, where none below this place is pending; and where there is none, the number of cases.
fn next_pending(nodes: &[Node], from: usize) -> usize
    requires within { from ≤ length nodes.now }
    requires none { HasNoneBelow nodes.now from }
    ensures { IsNext nodes.now result }
{
    for n in from..nodes.len() {
        if is_pending(nodes, n) {
            return n;
        }
    }
    nodes.len()
}

// Whether case n is pending.
fn is_pending(nodes: &[Node], n: usize) -> bool
    requires { n < length nodes.now }
    ensures { IsTrue result ↔ IsPendingNode nodes.now n }
{
    match &nodes[n] {
        Node::Pending(_) => true,
        Node::Settled { .. } => false,
    }
}
