//! Several workers at one board.
ghost use Rattle.std.specs.Prelude.{◌≡◌, ◌≤◌, ◌↔◌, IfOk, IfErr, All, length};
ghost use Rattle.std.specs.Vec.{vec_len, vec_capacity};
ghost use mathlib.Core.List.{IsPrefix};
ghost use Rattle.turn_lock.specs.Lock.{seat_seen};
ghost use Rattle.case_history.specs.History.{IsComplete};
ghost use Rattle.case_ledger.specs.Origins.{Continues};
ghost use Rattle.board_turns.specs.Jobs.{AreOfBoard};
ghost use Rattle.board_turns.specs.Seen.{seen_board, IsBoardSeat};
ghost use Rattle.steal_workers.specs.declared.worker.WorkEnd.TheVariants.{Finished};

use crate::gate::Gate;
use crate::worker::{WorkEnd, work};
use crate::worker_decks::{WorkerDecks, decks_for};
use board_turns::RootCopy;
use case_ledger::Board;
use std::alloc::Global;
use std::sync::Wait;
use std::thread::{Threads, map_vec};
use turn_lock::{NoTurns, TurnSeat, Turns};

/// The board after the work, and how the work ended.
#[derive(Drop)]
pub struct Ran {
    pub board: Board,
    pub end: WorkEnd,
}

// A worker's decks, and its seat at the lock.
#[derive(Drop)]
struct SeatedWorker {
    decks: WorkerDecks,
    seat: TurnSeat<Board>,
}

/// Runs so many workers on the board, waits until all have ended, and gives the board back. It goes on from the board that was handed in. The end is
/// `Finished` exactly where no case of it is pending, and else no memory was left for some worker or for starting them. Where no memory is left for
/// the decks, the copy of the root or the lock, the board is handed back as it was.
pub fn run_workers<R: Threads + Wait + Sync, G: Gate + Sync>(
    rt: &R,
    alloc: Global,
    board: Board,
    workers: u32,
    gate: &G,
) -> Result<Ran, NoTurns<Board>>
    requires { (2 ≤ workers) × (workers ≤ 64) }
    ensures board { IfOk result (λ ran. Continues board ran.board) }
    ensures end { IfOk result (λ ran. (ran.end ≡ Finished) ↔ IsComplete ran.board.history) }
    ensures none { IfErr result (λ e. e.value ≡ board) }
{
    let Ok(decks) = decks_for(alloc, workers) else {
        return Err(NoTurns { value: board });
    };
    let Ok(room) = Vec::with_capacity(alloc, decks.len()) else {
        return Err(NoTurns { value: board });
    };
    let Ok(root) = RootCopy::of(alloc, &board) else {
        return Err(NoTurns { value: board });
    };
    let (turns, mut seat) = Turns::new(alloc, board)?;
    let seated = seat_all(&turns, &mut seat, decks, room);
    run_all(rt, alloc, &turns, &mut seat, seated, &root, gate);
    let board = turns.close(rt, seat);
    let end = end_of(&board);
    Ok(Ran { board, end })
}

// Whether any case is left pending.
fn end_of(board: &Board) -> WorkEnd
    ensures { (result ≡ Finished) ↔ IsComplete board.now.history }
{
    match board.least_pending() {
        None => WorkEnd::Finished,
        Some(_) => WorkEnd::OutOfMemory,
    }
}

// A seat for each worker.
fn seat_all(
    turns: &Turns<Board>,
    seat: &mut TurnSeat<Board>,
    decks: Vec<WorkerDecks>,
    room: Vec<SeatedWorker>,
) -> Vec<SeatedWorker>
    requires seat { IsBoardSeat turns.now seat.old }
    requires empty { vec_len room ≡ 0 }
    requires room { vec_len decks ≤ vec_capacity room }
    ensures seat { IsBoardSeat turns.now seat.new }
    ensures seen { seat_seen seat.new ≡ seat_seen seat.old }
    ensures seated { All (λ one. IsBoardSeat turns.now one.seat) result.items }
{
    let mut seated = room;
    for own in decks {
        let seat = turns.split_seat(seat);
        seated.push_reserved(SeatedWorker { decks: own, seat });
    }
    seated
}

// Runs each worker in a thread of its own, and takes their seats in.
fn run_all<R: Threads + Wait + Sync, G: Gate + Sync>(
    rt: &R,
    alloc: Global,
    turns: &Turns<Board>,
    seat: &mut TurnSeat<Board>,
    seated: Vec<SeatedWorker>,
    root: &RootCopy,
    gate: &G,
)
    requires seat { IsBoardSeat turns.now seat.old }
    requires root { AreOfBoard (seen_board turns.now seat.old) root.now }
    requires seated { All (λ one. IsBoardSeat turns.now one.seat) seated.items }
    ensures seat { IsBoardSeat turns.now seat.new }
    ensures seen { IsPrefix (seat_seen seat.old) (seat_seen seat.new) }
{
    let ran = map_vec(
        rt,
        seated,
        &|one: SeatedWorker| -> TurnSeat<Board>
            requires { IsBoardSeat turns.now one.seat × AreOfBoard (seen_board turns.now one.seat) root.now }
            ensures { IsBoardSeat turns.entry.now result }
        { run_one(rt, alloc, turns, one, root, gate) },
    );
    let Ok(seats) = ran else { return };
    join_all(turns, seat, seats);
}

// Runs one worker, and gives its seat back.
fn run_one<R: Wait, G: Gate>(
    rt: &R,
    alloc: Global,
    turns: &Turns<Board>,
    one: SeatedWorker,
    root: &RootCopy,
    gate: &G,
) -> TurnSeat<Board>
    requires seat { IsBoardSeat turns.now one.seat }
    requires root { AreOfBoard (seen_board turns.now one.seat) root.now }
    ensures { IsBoardSeat turns.now result }
{
    let SeatedWorker { decks, mut seat } = one;
    let WorkerDecks {
        worker,
        mut owner,
        mut thieves,
    } = decks;
    work(
        rt,
        alloc,
        turns,
        &mut seat,
        &mut owner,
        thieves.as_mut_slice(),
        root,
        worker,
        gate,
    );
    seat
}

// Takes all seats in.
fn join_all(turns: &Turns<Board>, seat: &mut TurnSeat<Board>, seats: Vec<TurnSeat<Board>>)
    requires seat { IsBoardSeat turns.now seat.old }
    requires seats { All (λ other. IsBoardSeat turns.now other) seats.items }
    ensures seat { IsBoardSeat turns.now seat.new }
    ensures seen { IsPrefix (seat_seen seat.old) (seat_seen seat.new) }
{
    for other in seats {
        turns.join_seat(seat, other);
    }
}
