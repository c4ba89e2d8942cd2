//! Refutations, found by the patterns that are live: those that no later pattern is within.
#![tactic(auto)]

mod numbering;
#[cfg(test)]
mod tests;

ghost use Rattle.std.specs.Prelude.{◌≡◌, ◌<◌, ◌↔◌, ◌++◌, ◌∷◌, [], IfOk, IfErr, IfSome, IsTrue, MatchOption, length, slice_get};
ghost use Rattle.refute_store.specs.Live.{IsLive, IsLeastLiveWithin, HasNoneWithin};
ghost use Rattle.pattern_store.specs.Refuted.{patterns_of};

use derive_lines::Decision;
use indexmap::IndexSet;
use numbering::{literals, numbered};
use refute_cert::Refutation;
use refute_store::{Store, Unposted};
use sparse_poly::Poly;
use std::alloc::{AllocError, Global};
use std::marker::Model;

/// Refutations in the order of their numbers, which count from 0. Their patterns are kept by numbers that stand for decisions.
#[derive(Drop)]
pub struct PatternStore {
    names: IndexSet<Poly>,
    store: Store<Refutation>,
}

impl Model for PatternStore {
    ghost use Rattle.std.specs.Prelude.{List, map};
    ghost use Rattle.refute_cert.specs.Parts.{RefutationParts};
    ghost use Rattle.pattern_store.specs.Numbers.{AreNumbered};

    ghost Value = { List RefutationParts };

    ghost view = { λ p. map (λ q. q.1) p.store };

    ghost invariant = { λ p. AreNumbered p.names.keys p.store };
}

impl PatternStore {
    /// A store with no refutation.
    pub fn new(alloc: Global) -> PatternStore
        ensures { result ≡ [] }
    {
        PatternStore {
            names: IndexSet::new(alloc),
            store: Store::new(alloc),
        }
    }

    /// Adds a refutation, and answers its number, which is how many were posted before. Each older pattern that contains its pattern is no longer
    /// live. Where no memory is left, the store is unchanged.
    pub fn post(
        &mut self,
        alloc: Global,
        refutation: Refutation,
    ) -> Result<u64, Unposted<Refutation>>
        ensures ok { IfOk result (λ k. (k ≡ length self.old) × (self.new ≡ self.old ++ refutation ∷ [])) }
        ensures err { IfErr result (λ e. (e.payload ≡ refutation) × (self.new ≡ self.old)) }
    {
        let Ok(set) = numbered(alloc, &mut self.names, refutation.pattern()) else {
            return Err(Unposted {
                payload: refutation,
            });
        };
        self.store.post(alloc, &set, refutation)
    }

    /// The number of the least live pattern within the decisions, and `None` exactly where there is none. It fails only where no memory is left.
    pub fn find(&self, alloc: Global, decisions: &[Decision]) -> Result<Option<u64>, AllocError>
        ensures { IfOk result (λ o. MatchOption o (HasNoneWithin (patterns_of self.now) decisions.now) (IsLeastLiveWithin (patterns_of self.now) decisions.now)) }
    {
        let set = literals(alloc, &self.names, decisions)?;
        Ok(self.store.find(&set))
    }

    /// How many refutations were posted.
    pub fn count(&self) -> u64
        ensures { result ≡ length self.now }
    {
        self.store.count()
    }

    /// Whether pattern k is live.
    pub fn is_live(&self, k: u64) -> bool
        requires { k < length self.now }
        ensures { IsTrue result ↔ IsLive (patterns_of self.now) k }
    {
        self.store.is_live(k)
    }

    /// Refutation k.
    pub fn refutation(&self, k: u64) -> &Refutation
        requires { k < length self.now }
        ensures { IfSome (slice_get self.now k) (λ r. result.now ≡ r) }
    {
        self.store.payload(k)
    }
}
