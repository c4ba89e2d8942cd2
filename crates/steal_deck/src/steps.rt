// What is done with a deck.
ghost use Rattle.std.specs.Prelude.{◌≡◌, ◌⊎◌, ◌<◌, ◌≤◌, ◌∷◌, [], true, false, length, IfOk, MatchResult, MatchOption};
ghost use Rattle.steal_deck.specs.Deck.{newcomer, with_pushed, TakesFirst, OwnerTakes, FoundEmpty};
ghost use Rattle.steal_deck.specs.Handles.{owner_knows, thief_knows, taken_seen, IsSameDeck, IsThiefOf, AreOfOneDeck, MatchStolen};

use crate::callers::{Owner, Stolen, Thief, Unpushed};
use crate::rule::{OwnerTook, Pushed, ThiefTook};
use crossbeam_deque::{Steal, Worker};
use std::alloc::{AllocError, Global};

/// An empty deck. It fails only where no memory is left.
pub fn deck(alloc: Global) -> Result<(Owner, Thief), AllocError>
    ensures owner { IfOk result (λ d. owner_knows d.0 ≡ newcomer true) }
    ensures thief { IfOk result (λ d. thief_knows d.1 ≡ newcomer false) }
    ensures one { IfOk result (λ d. IsThiefOf d.0 d.1) }
{
    let worker = Worker::fifo_as(alloc, 64)?;
    let first_capacity = worker.capacity();
    let stealer = worker.stealer()?;
    let pass = stealer.pass();
    Ok((
        Owner {
            worker,
            first_capacity,
        },
        Thief { stealer, pass },
    ))
}

impl Owner {
    /// Adds a number at the back. It is never refused while fewer numbers were pushed than the deque's first capacity. Where it is refused, the deck
    /// is as before.
    pub fn push(&mut self, n: u64) -> Result<(), Unpushed>
        ensures same { IsSameDeck self.old self.new }
        ensures pushed { MatchResult result (λ _. owner_knows self.new ≡ with_pushed (owner_knows self.old) (n ∷ [])) (λ e. (e.n ≡ n) × (owner_knows self.new ≡ owner_knows self.old) × (self.old.first_capacity ≤ length (owner_knows self.old).pushed)) }
    {
        match self.worker.push_as::<Pushed>(n) {
            Ok(()) => Ok(()),
            Err(n) => Err(Unpushed { n }),
        }
    }

    /// Takes the first number. `None` comes only where nothing was left at one moment of the call. It takes no memory.
    pub fn pop(&mut self) -> Option<u64>
        ensures same { IsSameDeck self.old self.new }
        ensures popped { MatchOption result ((owner_knows self.new ≡ owner_knows self.old) × FoundEmpty (owner_knows self.old)) (λ n. OwnerTakes (owner_knows self.old) (n ∷ []) (owner_knows self.new)) }
    {
        self.worker.pop_as::<OwnerTook>()
    }
}

impl Thief {
    /// Takes the first number. `Again` comes only where the number of taken numbers that the thief knows of rose in this call, or nothing was left at
    /// one moment of it. It takes no memory.
    pub fn steal(&mut self) -> Stolen
        ensures same { AreOfOneDeck self.old self.new }
        ensures stolen { MatchStolen result ((thief_knows self.new ≡ thief_knows self.old) × FoundEmpty (thief_knows self.old)) ((thief_knows self.new ≡ thief_knows self.old) × ((taken_seen self.old < taken_seen self.new) ⊎ FoundEmpty (thief_knows self.old))) (λ n. TakesFirst (thief_knows self.old) (n ∷ []) (thief_knows self.new)) }
    {
        match self.stealer.steal_as::<ThiefTook>(&mut self.pass) {
            Steal::Success(n) => Stolen::Got(n),
            Steal::Empty => Stolen::Empty,
            Steal::Retry => Stolen::Again,
        }
    }

    /// A further thief of the same deck, which has seen and taken nothing. It fails only where no memory is left.
    pub fn another(&mut self) -> Result<Thief, AllocError>
        ensures same { (thief_knows self.new ≡ thief_knows self.old) × AreOfOneDeck self.old self.new }
        ensures new { IfOk result (λ t. (thief_knows t ≡ newcomer false) × AreOfOneDeck self.old t) }
    {
        let stealer = self.stealer.clone()?;
        let pass = stealer.pass();
        Ok(Thief { stealer, pass })
    }
}
