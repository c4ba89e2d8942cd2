// What a thread does with the lock.
ghost use Rattle.std.specs.Prelude.{◌≡◌, [], ◌∷◌, Some, IfOk, IfErr, MatchBool};
ghost use mathlib.Core.List.{IsPrefix};
ghost use Rattle.std.specs.FinMap.{empty};
ghost use Rattle.turn_lock.specs.declared.view.View.{View};
ghost use Rattle.turn_lock.specs.Turn.{Takes, both_own, IsLongerOf, HaveNoPlaceInBoth};
ghost use Rattle.turn_lock.specs.Lock.{lock_origin, seat_seen, seat_own, IsSeatOf, IsOneSeat, HasTurned, HasTaken, HasActed, HasMerged};

use crate::kept::{Job, Kept};
use crate::turns::{InnerSeat, NoTurns, TurnSeat, Turns};
use crate::view::{MergeViews, NewSeat, PairViews, ReleaseTurn, TryTurn, Views};
use atomic_table::{Refused, Table};
use std::alloc::Global;
use std::snapshot::Snapshot;
use std::sync::Wait;

// The value in the one slot.
fn only_value<V: Kept>(mut slots: Vec<Option<V>>) -> V
    requires { (v : V) × (slots.items ≡ Some v ∷ []) }
    ensures { slots.items ≡ Some result ∷ [] }
{
    let Some(slot) = slots.pop() else {
        unreachable!()
    };
    let Some(value) = slot else { unreachable!() };
    value
}

impl<V: Kept> Turns<V> {
    /// A lock round the value, and a seat that has seen its history and has no entry of its own. Where no memory is left the value is handed back.
    pub fn new(alloc: Global, value: V) -> Result<(Turns<V>, TurnSeat<V>), NoTurns<V>>
        ensures lock { IfOk result (λ t. (lock_origin V.origin t.0 ≡ V.origin value) × IsSeatOf V.origin t.0 t.1) }
        ensures seat { IfOk result (λ t. (seat_seen t.1 ≡ V.history value) × (seat_own t.1 ≡ empty)) }
        ensures none { IfErr result (λ e. e.value ≡ value) }
    {
        let Ok(mut slots) = Vec::with_capacity(alloc, 1) else {
            return Err(NoTurns { value });
        };
        let key = Snapshot::of(&value);
        slots.push_reserved(Some(value));
        match Table::new(alloc, &[0], slots, &key) {
            Ok((table, seat)) => Ok((Turns { table }, TurnSeat { seat })),
            Err(Refused { slots }) => Err(NoTurns {
                value: only_value(slots),
            }),
        }
    }

    /// Waits for the turn, lets the job act and puts the value home. The history that the job finds begins with what the seat had seen. Afterwards
    /// the seat has seen the history that the job left, and the new entries are its own, at their places. The reply is the job's.
    pub fn with_turn<R: Wait, J: Job<V>>(
        &self,
        rt: &R,
        seat: &mut TurnSeat<V>,
        job: &mut J,
    ) -> J::Reply
        requires seat { IsSeatOf V.origin self.now seat.old }
        requires origin { J.from job.old ≡ lock_origin V.origin self.now }
        requires base { IsPrefix (J.base job.old) (seat_seen seat.old) }
        ensures seat { IsSeatOf V.origin self.now seat.new }
        ensures turn { HasTurned (J.test job.old) (seat_seen seat.old) (seat_own seat.old) result (seat_seen seat.new) (seat_own seat.new) }
    {
        self.act_at_turn(rt, &mut seat.seat, job)
    }

    /// Another seat, which has seen as much and has no entry of its own. It takes no memory.
    pub fn split_seat(&self, seat: &mut TurnSeat<V>) -> TurnSeat<V>
        requires seat { IsSeatOf V.origin self.now seat.old }
        ensures seat { IsSeatOf V.origin self.now seat.new × IsSeatOf V.origin self.now result }
        ensures same { (seat_seen seat.new ≡ seat_seen seat.old) × (seat_own seat.new ≡ seat_own seat.old) }
        ensures new { (seat_seen result ≡ seat_seen seat.old) × (seat_own result ≡ empty) }
    {
        TurnSeat {
            seat: self.table.shared.split_seat::<NewSeat>(&mut seat.seat),
        }
    }

    /// Takes another seat in. The seat has then seen the longer of both histories, which begins with the other, and has the own entries of both. No
    /// place stood in both.
    pub fn join_seat(&self, seat: &mut TurnSeat<V>, other: TurnSeat<V>)
        requires seat { IsSeatOf V.origin self.now seat.old }
        requires other { IsSeatOf V.origin self.now other }
        ensures seat { IsSeatOf V.origin self.now seat.new }
        ensures seen { IsLongerOf (seat_seen seat.old) (seat_seen other) (seat_seen seat.new) }
        ensures own { seat_own seat.new ≡ both_own (seat_own seat.old) (seat_own other) }
        ensures apart { HaveNoPlaceInBoth (seat_own seat.old) (seat_own other) }
    {
        let TurnSeat { seat: theirs } = other;
        self.merge(&mut seat.seat, theirs);
    }

    /// Waits for the turn a last time, and gives the value back. Its history begins with what the seat had seen.
    pub fn close<R: Wait>(self, rt: &R, mut seat: TurnSeat<V>) -> V
        requires seat { IsSeatOf V.origin self seat }
        ensures origin { V.origin result ≡ lock_origin V.origin self }
        ensures history { IsPrefix (seat_seen seat) (V.history result) }
    {
        self.take_value(rt, &mut seat.seat)
    }

    // Takes the turn where it is free, and tells whether it did.
    fn try_turn(&self, seat: &mut InnerSeat<V>) -> bool
        requires { IsOneSeat V.origin self.now seat.old }
        ensures table { seat.new.table_id ≡ seat.old.table_id }
        ensures turn { MatchBool result (Takes V.origin V.history seat.old.me seat.new.me) (seat.new.me ≡ seat.old.me) }
    {
        self.table.shared.compare_exchange::<TryTurn>(seat, 0, 0, 1) == 0
    }

    // Waits for the turn.
    fn take_turn<R: Wait>(&self, rt: &R, seat: &mut InnerSeat<V>)
        requires { IsOneSeat V.origin self.now seat.old }
        ensures table { seat.new.table_id ≡ seat.old.table_id }
        ensures turn { Takes V.origin V.history seat.old.me seat.new.me }
    {
        for _ in rt.forever() {
            if self.try_turn(seat) {
                return;
            }
            self.table.shared.park(rt, 0, 1);
        }
        unreachable!()
    }

    // Waits for the turn, and takes the value out of the table.
    fn take_value<R: Wait>(&self, rt: &R, seat: &mut InnerSeat<V>) -> V
        requires { IsOneSeat V.origin self.now seat.old }
        ensures table { seat.new.table_id ≡ seat.old.table_id }
        ensures taken { HasTaken V.origin V.history seat.old.me result seat.new.me }
    {
        self.take_turn(rt, seat);
        let Some(value) = self.table.shared.exchange(seat, 0, None) else {
            unreachable!()
        };
        value
    }

    // Takes the value, lets the job act, and gives value and turn back.
    fn act_at_turn<R: Wait, J: Job<V>>(
        &self,
        rt: &R,
        seat: &mut InnerSeat<V>,
        job: &mut J,
    ) -> J::Reply
        requires seat { IsOneSeat V.origin self.now seat.old }
        requires origin { J.from job.old ≡ lock_origin V.origin self.now }
        requires base { (v : View V.Entry V.Origin) × (seat.old.me ≡ (v ∷ [], [])) × IsPrefix (J.base job.old) v.seen }
        ensures table { seat.new.table_id ≡ seat.old.table_id }
        ensures turn { HasActed (J.test job.old) seat.old.me result seat.new.me }
    {
        let mut value = self.take_value(rt, seat);
        let reply = job.act(&mut value);
        let _ = self.table.shared.exchange(seat, 0, Some(value));
        self.table.shared.swap::<ReleaseTurn>(seat, 0, 0);
        self.table.shared.wake_one(0);
        reply
    }

    // Brings both views into one seat, and makes one of them.
    fn merge(&self, seat: &mut InnerSeat<V>, other: InnerSeat<V>)
        requires seat { IsOneSeat V.origin self.now seat.old }
        requires other { IsOneSeat V.origin self.now other }
        ensures table { seat.new.table_id ≡ seat.old.table_id }
        ensures merged { HasMerged seat.old.me other.me seat.new.me }
    {
        self.table.shared.join_seat::<PairViews>(seat, other);
        self.table.shared.load::<MergeViews>(seat, 0);
    }
}
