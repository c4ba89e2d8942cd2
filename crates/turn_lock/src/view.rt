//! What a seat knows, the rule of the lock's table, and what its steps tell. The table has one word, the turn, and one slot, the value's. Nothing
//! of it is of use to callers.
use crate::kept::Kept;
use atomic_table::{Join, Play, Split, TableRule};
use std::collections::LinkedList;
use std::marker::Model;
use std::snapshot::Snapshot;

/// The entries that a seat added, by their places in the history. No value of it is made.
pub struct OwnEntries<E> {
    pub list: LinkedList<(u64, E)>,
}

impl<E> Model for OwnEntries<E> {
    ghost use Rattle.std.specs.FinMap.{FinMap, from_entries};
    ghost use Rattle.std.specs.FinMap as map;
    ghost use Rattle.std.specs.Ordering.{nat_cmp};
    ghost use base.Stored.{coded_ℕ};

    ghost Value = { FinMap nat_cmp E };

    ghost coded = { map.code coded_ℕ E.code };

    ghost view = { λ o. from_entries o.list };
}

/// What a seat knows: whether it has the turn, the lock's origin, the history that it has seen, and its own entries. No value of it is made.
pub struct View<E, O> {
    pub holds: bool,
    pub origin: O,
    pub seen: LinkedList<E>,
    pub own: OwnEntries<E>,
}

/// The views of one seat: one, two between the two steps of a join, and none once another seat has taken it in.
pub type Views<E, O> = LinkedList<View<E, O>>;

/// The rule that each step keeps, over the views of all seats.
pub struct TurnRule;

impl<V: Kept> TableRule<Option<V>, Views<V::Entry, V::Origin>, Snapshot<V>> for TurnRule {
    ghost use Rattle.std.specs.Prelude.{[], ◌∷◌};
    ghost use Rattle.turn_lock.specs.Turn.{newcomer, IsKept};

    ghost holds = { λ key s. IsKept V.origin V.history (V.origin key.value) s.words s.homes s.views };

    ghost first = { λ key. newcomer (V.origin key.value) (V.history key.value) ∷ [] };
}

/// To take the turn where it is free.
pub struct TryTurn;

impl<V: Kept> Play<Option<V>, Views<V::Entry, V::Origin>> for TryTurn {
    ghost use Rattle.turn_lock.specs.Turn.{Tries};

    ghost then = { λ s me found new. Tries V.origin V.history me found new };
}

/// To give the turn back.
pub struct ReleaseTurn;

impl<V: Kept> Play<Option<V>, Views<V::Entry, V::Origin>> for ReleaseTurn {
    ghost use Rattle.turn_lock.specs.Turn.{Releases};

    ghost then = { λ s me found new. Releases V.history me new };
}

/// To make a seat that has seen as much.
pub struct NewSeat;

impl<E, O> Split<Views<E, O>> for NewSeat {
    ghost use Rattle.turn_lock.specs.Turn.{newcomers};

    ghost left = { λ v. v };

    ghost right = { newcomers };
}

/// To bring the views of two seats into one seat.
pub struct PairViews;

impl<E, O> Join<Views<E, O>> for PairViews {
    ghost use Rattle.std.specs.Prelude.{[], ◌++◌};

    ghost both = { λ v w. v ++ w };

    ghost spent = { [] };
}

/// To make one view of two.
pub struct MergeViews;

impl<V: Kept> Play<Option<V>, Views<V::Entry, V::Origin>> for MergeViews {
    ghost use Rattle.turn_lock.specs.Turn.{Merges};

    ghost then = { λ s me found new. Merges me new };
}
