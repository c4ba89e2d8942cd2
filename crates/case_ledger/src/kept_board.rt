//! A board as the value under a lock.

use crate::board::Board;
use leaf_cert::RawEntry;
use root_system::Root;

/// What no entry changes: the root and the budget of a search. No value of it is made.
pub struct BoardOrigin {
    pub root: Root,
    pub budget: u32,
}

impl turn_lock::Kept for Board {
    ghost use Rattle.case_ledger.specs.Origins.{origin_of, oldest_first};

    type Entry = RawEntry;

    type Origin = BoardOrigin;

    ghost origin = { origin_of };

    ghost history = { oldest_first };
}
