//! One worker.
ghost use Rattle.std.specs.Prelude.{◌≡◌, ◌<◌};
ghost use mathlib.Core.List.{IsPrefix};
ghost use Rattle.turn_lock.specs.Lock.{seat_seen};
ghost use Rattle.case_history.specs.History.{IsComplete};
ghost use Rattle.board_turns.specs.Jobs.{AreOfBoard};
ghost use Rattle.board_turns.specs.Seen.{seen_board, IsBoardSeat};
ghost use Rattle.steal_workers.specs.declared.worker.WorkEnd.TheVariants.{Finished};
ghost use Rattle.steal_workers.specs.declared.worker.Sweep.TheVariants.{NonePending};

use crate::gate::Gate;
use crate::runner::CaseRunner;
use crate::worker_decks::next_number;
use board_turns::{RootCopy, least_pending};
use case_ledger::{Board, Reply};
use std::alloc::Global;
use std::sync::Wait;
use std::sync::atomic::AtomicU64;
use std::time::Duration;
use steal_deck::{Owner, Thief};
use turn_lock::{TurnSeat, Turns};

/// How the work of one worker, or of all, ended.
#[derive(Clone, Copy, Debug, PartialEq, Eq)]
pub enum WorkEnd {
    /// No case was pending.
    Finished,
    /// No memory was left.
    OutOfMemory,
}

// After so many sweeps in a row in which a worker found no case in a deck, it works on the least pending one.
const MAX_IDLE_SWEEPS: u32 = 1024;

// What a worker found when it looked for a case to go on with.
#[derive(Drop)]
enum Sweep {
    Case(u64),
    Idle,
    NonePending,
}

/// One worker. It takes cases from its own deck, and else steals one; where it finds none 1,024 times in a row, it takes the least pending one. It looks
/// at the case at one turn, runs it, passes the gate, and settles it at another turn. The branches of a split go onto its own deck; one for which
/// there is no room stays pending. It ends with `Finished` only where at a turn of its own no case was pending, and with `OutOfMemory` only where no
/// memory was left.
pub fn work<R: Wait, G: Gate>(
    rt: &R,
    alloc: Global,
    turns: &Turns<Board>,
    seat: &mut TurnSeat<Board>,
    owner: &mut Owner,
    thieves: &mut [Thief],
    root: &RootCopy,
    worker: u32,
    gate: &G,
) -> WorkEnd
    requires seat { IsBoardSeat turns.now seat.old }
    requires root { AreOfBoard (seen_board turns.now seat.old) root.now }
    ensures seat { IsBoardSeat turns.now seat.new }
    ensures seen { IsPrefix (seat_seen seat.old) (seat_seen seat.new) }
    ensures finished { result ≡ Finished → IsComplete (seen_board turns.now seat.new).history }
{
    let runner = CaseRunner { root, worker, gate };
    let mut idle_sweeps = 0;
    for _ in rt.forever() {
        match next_case(rt, turns, seat, owner, thieves, &mut idle_sweeps) {
            Sweep::NonePending => return WorkEnd::Finished,
            Sweep::Idle => rest(rt, idle_sweeps),
            Sweep::Case(n) => match runner.work_on(rt, alloc, turns, seat, n) {
                Ok(reply) => push_branches(owner, reply),
                Err(_) => return WorkEnd::OutOfMemory,
            },
        }
    }
    unreachable!()
}

// The case to go on with.
fn next_case<R: Wait>(
    rt: &R,
    turns: &Turns<Board>,
    seat: &mut TurnSeat<Board>,
    owner: &mut Owner,
    thieves: &mut [Thief],
    idle_sweeps: &mut u32,
) -> Sweep
    requires seat { IsBoardSeat turns.now seat.old }
    requires idle { idle_sweeps.old < 1024 }
    ensures seat { IsBoardSeat turns.now seat.new }
    ensures seen { IsPrefix (seat_seen seat.old) (seat_seen seat.new) }
    ensures idle { idle_sweeps.new < 1024 }
    ensures done { result ≡ NonePending → IsComplete (seen_board turns.now seat.new).history }
{
    if let Some(n) = next_number(owner, thieves) {
        *idle_sweeps = 0;
        return Sweep::Case(n);
    }
    let Some(n) = least_pending(rt, turns, seat) else {
        return Sweep::NonePending;
    };
    *idle_sweeps += 1;
    if *idle_sweeps < MAX_IDLE_SWEEPS {
        return Sweep::Idle;
    }
    *idle_sweeps = 0;
    Sweep::Case(n)
}

// Lets a worker sleep that was idle so many times in a row, the longer the more often, so that it takes neither turns nor a processor from those at
// work.
fn rest<R: Wait>(rt: &R, idle_sweeps: u32) {
    let bed = AtomicU64::new(0);
    bed.park_timeout(rt, 0, Duration::from_micros(20 * u64::from(idle_sweeps)));
}

// Puts the branches of a split onto the worker's own deck, the zero branch first.
fn push_branches(owner: &mut Owner, reply: Option<Reply>) {
    if let Some(Reply::Split { left, right }) = reply {
        let _ = owner.push(left);
        let _ = owner.push(right);
    }
}
