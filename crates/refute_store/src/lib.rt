//! Patterns with payloads, of which those are live that no later pattern is within.
#![tactic(auto)]

ghost use Rattle.std.specs.Prelude.{◌≡◌, ◌<◌, ◌↔◌, ◌++◌, ◌∷◌, [], IfOk, IfErr, IsTrue, Contains, MatchOption, IfSome, Some, length, slice_get, map};
ghost use Rattle.std.specs.List.Sorted.{IsStrictlyIncreasing};
ghost use Rattle.refute_store.specs.Live.{IsPattern, IsWithin, IsLive, IsLeastLiveWithin, HasNoneWithin};
ghost use Rattle.refute_store.specs.Sets.{sets};

use std::alloc::Global;
use std::marker::Model;

/// Patterns in the order of their numbers, which count from 0. Each is a set of numbers, strictly ascending, with a payload.
///
/// A pattern is live where no later pattern is within it.
#[derive(Drop)]
pub struct Store<T> {
    patterns: Vec<Pattern<T>>,
}

#[derive(Drop)]
struct Pattern<T> {
    set: Vec<u64>,
    payload: T,
}

impl<T> Model for Store<T> {
    ghost use Rattle.std.specs.Prelude.{ℕ, List, map};

    ghost Value = { List (List ℕ × T) };

    ghost view = { λ s. map (λ p. (p.set.items, p.payload)) s.patterns.items };
}

/// No memory was left. It hands back the payload that was not posted.
#[derive(Drop)]
pub struct Unposted<T> {
    pub payload: T,
}

impl<T> Store<T> {
    /// A store with no pattern.
    pub fn new(alloc: Global) -> Store<T>
        ensures { result ≡ [] }
    {
        Store {
            patterns: Vec::new(alloc),
        }
    }

    /// Adds a pattern, and answers its number, which is how many were posted before. Each older pattern that contains the set is no longer live.
    /// Where no memory is left, the store is unchanged.
    pub fn post(&mut self, alloc: Global, set: &[u64], payload: T) -> Result<u64, Unposted<T>>
        requires { IsStrictlyIncreasing set.now }
        ensures ok { IfOk result (λ k. (k ≡ length self.old) × (self.new ≡ self.old ++ (set.now, payload) ∷ [])) }
        ensures err { IfErr result (λ e. (e.payload ≡ payload) × (self.new ≡ self.old)) }
    {
        if self.patterns.reserve(1).is_err() {
            return Err(Unposted { payload });
        }
        let Ok(set) = copied(alloc, set) else {
            return Err(Unposted { payload });
        };
        let k = self.patterns.len() as u64;
        self.patterns.push_reserved(Pattern { set, payload });
        Ok(k)
    }

    /// The number of the least live pattern whose set is within the list, and `None` exactly where there is none.
    pub fn find(&self, sorted: &[u64]) -> Option<u64>
        requires { IsStrictlyIncreasing sorted.now }
        ensures { MatchOption result (HasNoneWithin (sets self.now) sorted.now) (IsLeastLiveWithin (sets self.now) sorted.now) }
    {
        find_in(&self.patterns, sorted)
    }

    /// How many patterns were posted.
    pub fn count(&self) -> u64
        ensures { result ≡ length self.now }
    {
        self.patterns.len() as u64
    }

    /// Whether pattern k is live.
    pub fn is_live(&self, k: u64) -> bool
        requires { k < length self.now }
        ensures { IsTrue result ↔ IsLive (sets self.now) k }
    {
        is_unmet(&self.patterns, k as usize)
    }

    /// The payload of pattern k.
    pub fn payload(&self, k: u64) -> &T
        requires { k < length self.now }
        ensures { IfSome (slice_get self.now k) (λ p. result.now ≡ p.1) }
    {
        &self.patterns[k as usize].payload
    }
}

// The members of the set.
fn copied(alloc: Global, set: &[u64]) -> Result<Vec<u64>, std::alloc::AllocError>
    ensures { IfOk result (λ v. v.items ≡ set.now) }
{
    set.iter().copied().collect(alloc)
}

// Each member of p is in q.
fn is_within(p: &[u64], q: &[u64]) -> bool
    ensures { IsTrue result ↔ IsWithin p.now q.now }
{
    for d in p {
        if !contains(q, *d) {
            return false;
        }
    }
    true
}

// The number d is in q.
fn contains(q: &[u64], d: u64) -> bool
    ensures { IsTrue result ↔ Contains q.now d }
{
    q.contains(&d)
}

// The set of pattern k.
fn set_of<T>(patterns: &[Pattern<T>], k: usize) -> &[u64]
    requires { k < length patterns.now }
    ensures { IsPattern (map (λ p. p.set.items) patterns.now) k result.now }
{
    &patterns[k].set
}

// No pattern after number k is within it.
fn is_unmet<T>(patterns: &[Pattern<T>], k: usize) -> bool
    requires { k < length patterns.now }
    ensures { IsTrue result ↔ IsLive (map (λ p. p.set.items) patterns.now) k }
{
    let p = set_of(patterns, k);
    for j in k + 1..patterns.len() {
        let q = set_of(patterns, j);
        if is_within(q, p) {
            return false;
        }
    }
    true
}

// The least live pattern whose set is within the list.
fn find_in<T>(patterns: &[Pattern<T>], sorted: &[u64]) -> Option<u64>
    ensures { MatchOption result (HasNoneWithin (map (λ p. p.set.items) patterns.now) sorted.now) (IsLeastLiveWithin (map (λ p. p.set.items) patterns.now) sorted.now) }
{
    for k in 0..patterns.len() {
        let p = set_of(patterns, k);
        if !is_within(p, sorted) {
            continue;
        }
        if is_unmet(patterns, k) {
            return Some(k as u64);
        }
    }
    None
}

#[cfg(test)]
mod tests {
    use super::*;

    #[test]
    fn later_patterns_within_older_ones(rt: HostRuntime) {
        let alloc = rt.alloc();
        let mut store = Store::new(alloc);
        assert!(rt; matches!(store.post(alloc, &[3, 8], 'a'), Ok(0)));
        assert!(rt; matches!(store.post(alloc, &[3], 'b'), Ok(1)));
        assert_eq!(rt; store.find(&[3, 8]), Some(1));
        assert_eq!(rt; store.find(&[8]), None);
        assert!(rt; matches!(store.post(alloc, &[], 'c'), Ok(2)));
        assert_eq!(rt; store.find(&[]), Some(2));
        assert!(rt; !store.is_live(0));
        assert!(rt; !store.is_live(1));
        assert_eq!(rt; *store.payload(2), 'c');
    }
}
