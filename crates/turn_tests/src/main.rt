//! Two threads append a thousand numbers each to one list under a lock, each at a seat of its own. It writes how many entries the list then has, and
//! whether each seat's stand in it in order.
#![tactic(auto)]

mod numbers;

ghost use Rattle.std.specs.Prelude.{◌≡◌, ◌<◌, ◌^◌, ◌++◌, ◌∷◌, [], MatchBool};
ghost use Rattle.turn_lock.specs.Lock.{IsSeatOf, HasTurned, seat_seen, seat_own};

use numbers::{Append, Numbers};
use std::alloc::Global;
use std::io;
use std::sync::Wait;
use std::thread::{Threads, join};
use turn_lock::{TurnSeat, Turns};

fn main(rt: HostRuntime) -> io::Result<()> {
    let Some(list) = appended(&rt, rt.alloc()) else {
        return println!(rt; "no memory");
    };
    let order = if in_order(&list) {
        "in order"
    } else {
        "out of order"
    };
    let count = list.items.len();
    println!(rt; "{count} entries, each seat's {order}")
}

// The list that two threads have appended to.
fn appended<R: Threads + Wait + Sync>(rt: &R, alloc: Global) -> Option<Numbers> {
    let empty = Numbers {
        items: Vec::new(alloc),
    };
    let Ok((turns, mut seat)) = Turns::new(alloc, empty) else {
        return None;
    };
    let other = turns.split_seat(&mut seat);
    let shared = &turns;
    let (mut low, high) = join(
        rt,
        move || -> TurnSeat<Numbers>
            requires { IsSeatOf (λ _. tt) shared.now seat }
            ensures { IsSeatOf (λ _. tt) shared.entry.now result }
        { append_all(rt, shared, seat, 0) },
        move || -> TurnSeat<Numbers>
            requires { IsSeatOf (λ _. tt) shared.now other }
            ensures { IsSeatOf (λ _. tt) shared.entry.now result }
        { append_all(rt, shared, other, 1 << 20) },
    );
    turns.join_seat(&mut low, high);
    Some(turns.close(rt, low))
}

// Appends a thousand numbers from the first one on.
fn append_all<R: Wait>(
    rt: &R,
    turns: &Turns<Numbers>,
    mut seat: TurnSeat<Numbers>,
    first: u64,
) -> TurnSeat<Numbers>
    requires seat { IsSeatOf (λ _. tt) turns.now seat }
    requires first { first < 2 ^ 32 }
    ensures { IsSeatOf (λ _. tt) turns.now result }
{
    for i in 0..1000 {
        append(rt, turns, &mut seat, first + i);
    }
    seat
}

// Appends a number at a turn, and tells whether it did.
fn append<R: Wait>(
    rt: &R,
    turns: &Turns<Numbers>,
    seat: &mut TurnSeat<Numbers>,
    number: u64,
) -> bool
    requires { IsSeatOf (λ _. tt) turns.now seat.old }
    ensures seat { IsSeatOf (λ _. tt) turns.now seat.new }
    ensures turn { HasTurned (λ found left appended. MatchBool appended (left ≡ found ++ number ∷ []) (left ≡ found)) (seat_seen seat.old) (seat_own seat.old) result (seat_seen seat.new) (seat_own seat.new) }
{
    turns.with_turn(rt, seat, &mut Append { number })
}

// Whether the numbers of each seat ascend by one, from its first one on.
fn in_order(list: &Numbers) -> bool {
    let mut low: u64 = 0;
    let mut high: u64 = 1 << 20;
    for number in list.items.iter() {
        if *number == low {
            low = low.wrapping_add(1);
        } else if *number == high {
            high = high.wrapping_add(1);
        } else {
            return false;
        }
    }
    true
}
