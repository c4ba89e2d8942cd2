//! A deck of one caller, and workers at the board of the cyclic ring of order 2: one that works alone, on a case in another's deck, and four that
//! run at once, of which two must meet at a gate.
#![tactic(auto)]

mod meeting;

use board_turns::RootCopy;
use case_ledger::Board;
use meeting::Meeting;
use ring_file::read_problem;
use root_system::Root;
use std::alloc::Global;
use std::io;
use std::sync::Wait;
use std::thread::Threads;
use steal_deck::{Stolen, deck};
use steal_workers::{OpenGate, WorkEnd, run_workers, work};
use turn_lock::Turns;

// The cyclic ring of order 2.
const PROBLEM: &str = "{\"labels\":2,\"products\":[[1,1,0]]}";

const BUDGET: u32 = 2_000;

// What two pops and a steal of a deck answered, and whether a second steal found it empty.
#[derive(Drop)]
struct Answers {
    popped: [Option<u64>; 2],
    stolen: Option<u64>,
    is_empty: bool,
}

// How one worker ended, and what it left in the other deck.
#[derive(Drop)]
struct Alone {
    end: WorkEnd,
    left: Option<u64>,
}

// How four workers ended, and how many cases they left pending.
#[derive(Drop)]
struct Together {
    end: WorkEnd,
    pending: u64,
}

fn main(rt: HostRuntime) -> io::Result<()> {
    let Some(answers) = call_deck(rt.alloc()) else {
        return println!(rt; "no memory");
    };
    let Answers {
        popped,
        stolen,
        is_empty,
    } = answers;
    println!(rt; "one deck: popped {popped:?}, stolen {stolen:?}, then empty {is_empty}")?;
    let Some(Alone { end, left }) = work_alone(&rt, rt.alloc()) else {
        return println!(rt; "no memory");
    };
    println!(rt; "one worker: {end:?}, the other deck then gives {left:?}")?;
    let meeting = Meeting::new();
    let Some(Together { end, pending }) = run_four(&rt, rt.alloc(), &meeting) else {
        return println!(rt; "no memory");
    };
    let met = meeting.met();
    println!(rt; "four workers: {end:?}, {pending} pending, two met: {met}")
}

// A pop of an empty deck, a pop where 7 and 8 were pushed, and then two steals.
fn call_deck(alloc: Global) -> Option<Answers> {
    let (mut owner, mut thief) = deck(alloc).ok()?;
    let first = owner.pop();
    owner.push(7).ok()?;
    owner.push(8).ok()?;
    let second = owner.pop();
    let stolen = match thief.steal() {
        Stolen::Got(n) => Some(n),
        _ => None,
    };
    Some(Answers {
        popped: [first, second],
        stolen,
        is_empty: matches!(thief.steal(), Stolen::Empty),
    })
}

// The board of the problem, with case 0 pending.
fn board_of(alloc: Global) -> Option<Board> {
    let problem = read_problem(alloc, PROBLEM.as_bytes()).ok()?;
    let root = Root::new(alloc, &problem).ok()?;
    Board::new(alloc, root, BUDGET).ok()
}

// One worker, with an empty deck of its own, steals from a deck that has case 0.
fn work_alone<R: Wait>(rt: &R, alloc: Global) -> Option<Alone> {
    let board = board_of(alloc)?;
    let (mut own, _own_thief) = deck(alloc).ok()?;
    let (mut other, thief) = deck(alloc).ok()?;
    other.push(0).ok()?;
    let mut thieves = Vec::new(alloc);
    thieves.push(thief).ok()?;
    let root = RootCopy::of(alloc, &board).ok()?;
    let Ok(lock) = Turns::new(alloc, board) else {
        return None;
    };
    let (turns, mut seat) = lock;
    let end = work(
        rt,
        alloc,
        &turns,
        &mut seat,
        &mut own,
        thieves.as_mut_slice(),
        &root,
        0,
        &OpenGate,
    );
    Some(Alone {
        end,
        left: other.pop(),
    })
}

// Four workers at one board, with this gate.
fn run_four<R: Threads + Wait + Sync>(
    rt: &R,
    alloc: Global,
    meeting: &Meeting,
) -> Option<Together> {
    let board = board_of(alloc)?;
    let ran = run_workers(rt, alloc, board, 4, meeting).ok()?;
    Some(Together {
        end: ran.end,
        pending: ran.board.pending(),
    })
}
