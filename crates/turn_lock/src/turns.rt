// The lock and its seats.
ghost use Rattle.std.specs.Prelude.{◌≡◌, true, []};
ghost use Rattle.turn_lock.specs.Turn.{is_idle};

use crate::kept::Kept;
use crate::view::{TurnRule, Views};
use atomic_table::{Seat, Table};
use std::alloc::Global;
use std::snapshot::Snapshot;

pub(crate) type InnerSeat<V> = Seat<Option<V>, Views<<V as Kept>::Entry, <V as Kept>::Origin>>;

/// A lock round a value. Its origin is the value's.
#[derive(Drop)]
pub struct Turns<V: Kept> {
    pub(crate) table: Table<Option<V>, Views<V::Entry, V::Origin>, Snapshot<V>, TurnRule, Global>,
    ghost one: { (table.shared.table_id.words ≡ 1) × (table.shared.table_id.slots ≡ 1) },
}

/// What one thread knows of a lock: how much of the history it has seen, and which entries are its own. It takes no bytes, and outside every call
/// it has neither the turn nor the value.
#[derive(Drop)]
pub struct TurnSeat<V: Kept> {
    pub(crate) seat: Seat<Option<V>, Views<V::Entry, V::Origin>>,
    ghost idle: { (is_idle seat.me.0 ≡ true) × (seat.me.1 ≡ []) },
}

/// No memory was left for a lock. It hands back the value.
#[derive(Drop)]
pub struct NoTurns<V: Kept> {
    pub value: V,
}
