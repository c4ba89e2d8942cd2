//! The board.
ghost use Rattle.std.specs.Prelude.{◌≡◌, ◌<◌, ◌≤◌, ◌^◌, [], ◌∷◌, IfOk, IfErr, OnOk, OnErr, MatchOption, length, reverse};
ghost use Rattle.std.specs.Option.{option_copied};
ghost use Rattle.refute_store.specs.Live.{IsLeastLiveWithin, HasNoneWithin};
ghost use Rattle.leaf_cert.specs.declared.certificate.RawEntry.TheVariants.{Split as split, Close as close};
ghost use Rattle.root_system.specs.Forms.{IsRootForm};
ghost use Rattle.case_rules.specs.Belonging.{IsRootList};
ghost use Rattle.case_rules.specs.declared.outcome.Outcome.TheVariants.{Split as split_end, Dead as dead_end, Leaf as leaf_end};
ghost use Rattle.case_history.specs.History.{publish, cases_made, patterns, decisions_of, IsPending, IsLeastPending, IsComplete};
ghost use Rattle.legal_history.specs.Legal.{post, IsEndOf, EndsLiving, IsLegal};
ghost use Rattle.case_ledger.specs.State.{with_entry};
ghost use Rattle.case_ledger.specs.Board.{IsLook, IsPendingCase, Settles, IsCertificate, pending_count};
ghost use Rattle.case_ledger.specs.Standing.{IsStanding};

use crate::answers::{Look, Reply, Unsettled};
use crate::entries::{Kept, raw_entries};
use crate::laws::case_laws;
use crate::nodes::{Node, Nodes};
use crate::rooting::root_list;
use case_rules::Outcome;
use case_state::{Case, SharedCase};
use leaf_cert::{Certificate, Leaf, Rows};
use pattern_store::PatternStore;
use refute_cert::Refutation;
use refute_store::Unposted;
use root_system::Root;
use sparse_poly::Poly;
use std::alloc::{AllocError, Global};
use std::marker::Model;

/// A search for the zeros of a root, seen as the root, the budget and the history, the newest entry first.
///
/// The history is legal, and the budget is at most 1,000,000. Cases are numbered from 0, the root case, in the order in which splits make them,
/// and patterns from 0 in the order in which refutations are posted.
#[derive(Drop)]
pub struct Board {
    root: Root,
    budget: u32,
    entries: Vec<Kept>,
    nodes: Nodes,
    stored: PatternStore,
}

impl Model for Board {
    ghost use Rattle.case_ledger.specs.State.{BoardState};
    ghost use Rattle.case_ledger.specs.Entries.{history_of};
    ghost use Rattle.case_ledger.specs.Agreeing.{IsKept};

    ghost Value = { BoardState };

    ghost view = { λ b. record { root = b.root; budget = b.budget; history = history_of b.stored b.entries.items } };

    ghost invariant = { λ b. IsKept b.root.equations b.budget b.entries.items b.nodes b.stored };
}

// Whether case n is pending, and then whether a live pattern is within its decisions.
#[derive(Drop)]
enum Standing {
    NoCase,
    Settled { at: u64 },
    Covered { k: u64 },
    Uncovered,
}

impl Board {
    /// A board with case 0 pending, no pattern and an empty history. It fails only where no memory is left.
    pub fn new(alloc: Global, root: Root, budget: u32) -> Result<Board, AllocError>
        requires { budget ≤ 1_000_000 }
        ensures { IfOk result (λ b. b ≡ record { root = root; budget = budget; history = [] }) }
    {
        root_list(&root);
        let case = Case::root(alloc, root.equations())?;
        let first = SharedCase::of(alloc, case)?;
        Ok(Board {
            root,
            budget,
            entries: Vec::new(alloc),
            nodes: Nodes::new(alloc, first)?,
            stored: PatternStore::new(alloc),
        })
    }

    /// The root.
    pub fn root(&self) -> &Root
        ensures root { result.now ≡ self.now.root }
        ensures legal { IsLegal self.now.root.equations self.now.budget self.now.history }
        ensures form { IsRootForm self.now.root }
        ensures list { IsRootList self.now.root.equations }
    {
        let _equations = self.root.equations();
        &self.root
    }

    /// The budget of moves of each case.
    pub fn budget(&self) -> u32
        ensures budget { result ≡ self.now.budget }
        ensures within { self.now.budget ≤ 1_000_000 }
    {
        self.budget
    }

    /// What became of case n: the case itself where it is pending, which is not copied, and else the place of the entry that settled it. `NoCase` comes exactly where no
    /// such case was made. It fails only where no memory is left.
    pub fn look(&self, n: u64) -> Result<Look, AllocError>
        ensures { IfOk result (IsLook self.now n) }
    {
        match self.nodes.get(n) {
            None => Ok(Look::NoCase),
            Some(Node::Settled { at }) => Ok(Look::Settled { at: *at }),
            Some(Node::Pending(case)) => Ok(Look::Pending(case.another()?)),
        }
    }

    /// Case n where it is pending, and `None` exactly where it is not.
    pub fn pending_case(&self, n: u64) -> Option<&Case>
        ensures { MatchOption (option_copied result) (IsPending self.now.history n → ⊥) (IsPendingCase self.now n) }
    {
        match self.nodes.get(n) {
            Some(Node::Pending(case)) => Some(case.case()),
            Some(Node::Settled { .. }) => None,
            None => None,
        }
    }

    /// How many cases are pending.
    pub fn pending(&self) -> u64
        ensures { result ≡ pending_count self.now.history }
    {
        self.nodes.pending()
    }

    /// The least number of a pending case, and `None` exactly where no case is pending.
    pub fn least_pending(&self) -> Option<u64>
        ensures { MatchOption result (IsComplete self.now.history) (IsLeastPending self.now.history) }
    {
        self.nodes.first_pending()
    }

    /// The history with its head. It fails only where no memory is left.
    pub fn certificate(&self, alloc: Global) -> Result<Certificate, AllocError>
        ensures { IfOk result (IsCertificate self.now) }
    {
        Ok(Certificate {
            unknowns: self.root.unknowns(),
            equations: self.root.equations().len() as u32,
            budget: self.budget,
            entries: Rows::of(raw_entries(alloc, &self.entries, &self.stored)?),
        })
    }

    /// Settles case n, where it is pending with its end. A live pattern within its decisions closes it, the least such, whatever the outcome.
    /// Otherwise a refutation is posted and closes it, a split makes two cases, and a leaf is published. Where no memory is left, the board is
    /// unchanged.
    pub fn settle(
        &mut self,
        alloc: Global,
        n: u64,
        outcome: Outcome<SharedCase, Refutation, Leaf>,
    ) -> Result<Reply, Unsettled>
        requires { IsPending self.old.history n → IsEndOf self.old.root.equations self.old.budget self.old.history n outcome }
        ensures ok { IfOk result (λ reply. Settles self.old n outcome reply self.new) }
        ensures err { IfErr result (λ e. (e.outcome ≡ outcome) × (self.new ≡ self.old)) }
    {
        match self.standing(alloc, n) {
            Err(_) => Err(Unsettled { outcome }),
            Ok(Standing::NoCase) => Ok(Reply::NoCase),
            Ok(Standing::Settled { at }) => Ok(Reply::AlreadySettled { at }),
            Ok(Standing::Covered { k }) => match self.close(n, k) {
                Ok(()) => Ok(Reply::Closed { pattern: k }),
                Err(_) => Err(Unsettled { outcome }),
            },
            Ok(Standing::Uncovered) => self.record(alloc, n, outcome),
        }
    }

    // Whether case n is pending, and then whether a live pattern is within its decisions.
    fn standing(&self, alloc: Global, n: u64) -> Result<Standing, AllocError>
        ensures { IfOk result (IsStanding self.now n) }
    {
        match self.nodes.get(n) {
            None => Ok(Standing::NoCase),
            Some(Node::Settled { at }) => Ok(Standing::Settled { at: *at }),
            Some(Node::Pending(case)) => {
                match self.stored.find(alloc, case.case().decisions().as_slice())? {
                    Some(k) => Ok(Standing::Covered { k }),
                    None => Ok(Standing::Uncovered),
                }
            }
        }
    }

    // Closes case n by pattern k.
    fn close(&mut self, n: u64, k: u64) -> Result<(), AllocError>
        requires pending { IsPending self.old.history n }
        requires least { IsLeastLiveWithin (patterns self.old.history) (decisions_of self.old.history n) k }
        ensures ok { OnOk result (self.new ≡ with_entry self.old (close n k)) }
        ensures err { OnErr result (self.new ≡ self.old) }
    {
        self.entries.reserve(1)?;
        self.nodes.settle(n, self.entries.len() as u64);
        self.entries.push_reserved(Kept::Close { n, k });
        Ok(())
    }

    // Records the outcome of case n, which no pattern closes.
    fn record(
        &mut self,
        alloc: Global,
        n: u64,
        outcome: Outcome<SharedCase, Refutation, Leaf>,
    ) -> Result<Reply, Unsettled>
        requires pending { IsPending self.old.history n }
        requires ends { EndsLiving self.old.root.equations self.old.budget self.old.history n outcome }
        ensures ok { IfOk result (λ reply. Settles self.old n outcome reply self.new) }
        ensures err { IfErr result (λ e. (e.outcome ≡ outcome) × (self.new ≡ self.old)) }
    {
        match outcome {
            Outcome::Dead(refutation) => match self.refute(alloc, n, refutation) {
                Ok(k) => Ok(Reply::Closed { pattern: k }),
                Err(refutation) => Err(Unsettled {
                    outcome: Outcome::Dead(refutation),
                }),
            },
            Outcome::Split { by, zero, nonzero } => match self.split(n, by, zero, nonzero) {
                Ok(left) => Ok(Reply::Split {
                    left,
                    right: left + 1,
                }),
                Err((by, zero, nonzero)) => Err(Unsettled {
                    outcome: Outcome::Split { by, zero, nonzero },
                }),
            },
            Outcome::Leaf(leaf) => match self.publish(n, leaf) {
                Ok(()) => Ok(Reply::Published),
                Err(leaf) => Err(Unsettled {
                    outcome: Outcome::Leaf(leaf),
                }),
            },
        }
    }

    // Posts the refutation of case n, and closes the case by it. It answers the pattern's number.
    fn refute(&mut self, alloc: Global, n: u64, refutation: Refutation) -> Result<u64, Refutation>
        requires pending { IsPending self.old.history n }
        requires ends { EndsLiving self.old.root.equations self.old.budget self.old.history n (dead_end refutation) }
        ensures number { IfOk result (λ k. k ≡ length (patterns self.old.history)) }
        ensures ok { IfOk result (λ k. self.new ≡ with_entry (with_entry self.old (post refutation)) (close n k)) }
        ensures err { IfErr result (λ r. (r ≡ refutation) × (self.new ≡ self.old)) }
    {
        if self.entries.reserve(2).is_err() {
            return Err(refutation);
        }
        let k = match self.stored.post(alloc, refutation) {
            Ok(k) => k,
            Err(Unposted { payload }) => return Err(payload),
        };
        self.entries.push_reserved(Kept::Post { k });
        self.nodes.settle(n, self.entries.len() as u64);
        self.entries.push_reserved(Kept::Close { n, k });
        Ok(k)
    }

    // Splits case n, and answers the number of the zero branch.
    fn split(
        &mut self,
        n: u64,
        by: Poly,
        zero: SharedCase,
        nonzero: SharedCase,
    ) -> Result<u64, (Poly, SharedCase, SharedCase)>
        requires pending { IsPending self.old.history n }
        requires ends { EndsLiving self.old.root.equations self.old.budget self.old.history n (split_end by zero nonzero) }
        ensures number { IfOk result (λ left. (left ≡ cases_made self.old.history) × (left < 2 ^ 63)) }
        ensures ok { OnOk result (self.new ≡ with_entry self.old (split n by)) }
        ensures err { IfErr result (λ e. (e ≡ (by, zero, nonzero)) × (self.new ≡ self.old)) }
    {
        case_laws();
        if self.entries.reserve(1).is_err() {
            return Err((by, zero, nonzero));
        }
        let at = self.entries.len() as u64;
        match self.nodes.split(n, at, zero, nonzero) {
            Ok(left) => {
                self.entries.push_reserved(Kept::Split { n, by });
                Ok(left)
            }
            Err((zero, nonzero)) => Err((by, zero, nonzero)),
        }
    }

    // Publishes the leaf of case n.
    fn publish(&mut self, n: u64, leaf: Leaf) -> Result<(), Leaf>
        requires pending { IsPending self.old.history n }
        requires ends { EndsLiving self.old.root.equations self.old.budget self.old.history n (leaf_end leaf) }
        ensures ok { OnOk result (self.new ≡ with_entry self.old (publish n leaf)) }
        ensures err { IfErr result (λ l. (l ≡ leaf) × (self.new ≡ self.old)) }
    {
        if self.entries.reserve(1).is_err() {
            return Err(leaf);
        }
        self.nodes.settle(n, self.entries.len() as u64);
        self.entries.push_reserved(Kept::Publish { n, leaf });
        Ok(())
    }
}
