// What a caller knows of a deck, and what its steps tell.
use crossbeam_deque::protocol::{Outcome, Protocol};
use std::collections::LinkedList;
use std::marker::Model;

/// The numbers that a caller took, by their places. No value of it is made.
pub struct OwnNumbers {
    pub list: LinkedList<(u64, u64)>,
}

impl Model for OwnNumbers {
    ghost use Rattle.std.specs.FinMap.{FinMap, from_entries};
    ghost use Rattle.std.specs.FinMap as map;
    ghost use Rattle.std.specs.Ordering.{nat_cmp};
    ghost use Rattle.std.specs.Prelude.{ℕ};
    ghost use base.Stored.{coded_ℕ};

    ghost Value = { FinMap nat_cmp ℕ };

    ghost coded = { map.code coded_ℕ coded_ℕ };

    ghost view = { λ t. from_entries t.list };
}

/// What a caller knows: whether it is the owner, the numbers pushed (the owner alone knows them), how many it has seen taken, and the numbers that
/// it took itself. No value of it is made.
pub struct Known {
    pub owner: bool,
    pub pushed: LinkedList<u64>,
    pub seen: u64,
    pub own: OwnNumbers,
}

/// The rule that each step keeps, over what all callers know.
pub struct DeckRule;

impl Protocol<u64, Known> for DeckRule {
    ghost use Rattle.std.specs.Prelude.{true, false};
    ghost use Rattle.steal_deck.specs.Deck.{IsDeck, newcomer};

    ghost holds = { IsDeck };

    ghost first = { newcomer true };

    ghost guest = { newcomer false };
}

/// A number was pushed.
pub struct Pushed;

impl Outcome<u64, Known> for Pushed {
    ghost use Rattle.std.specs.Prelude.{◌≡◌};
    ghost use Rattle.steal_deck.specs.Deck.{with_pushed};

    ghost then = { λ v xs w. w ≡ with_pushed v xs };
}

/// A thief took the first number.
pub struct ThiefTook;

impl Outcome<u64, Known> for ThiefTook {
    ghost use Rattle.steal_deck.specs.Deck.{TakesFirst, FoundEmpty};

    ghost then = { TakesFirst };

    ghost empty = { FoundEmpty };
}

/// The owner took the first number.
pub struct OwnerTook;

impl Outcome<u64, Known> for OwnerTook {
    ghost use Rattle.steal_deck.specs.Deck.{OwnerTakes, FoundEmpty};

    ghost then = { OwnerTakes };

    ghost empty = { FoundEmpty };
}
