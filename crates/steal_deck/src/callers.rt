// The owner and the thieves of a deck.
ghost use Rattle.std.specs.Prelude.{◌≡◌, ◌≤◌, true, length};
ghost use Rattle.crossbeam_deque.specs.Handles.{IsPassOf, worker_view, worker_flavor, worker_capacity, worker_index, stealer_deque, stealer_flavor};

use crate::rule::{DeckRule, Known};
use crossbeam_deque::{Pass, Stealer, Worker};
use std::alloc::Global;

/// The one owner of a deck, who pushes at the back and pops at the front.
#[derive(Drop)]
pub struct Owner {
    pub(crate) worker: Worker<u64, Global, Known, DeckRule>,
    // The deque's capacity when it was made.
    pub(crate) first_capacity: usize,
    ghost fifo: { worker_flavor worker ≡ 0 },
    ghost room: { first_capacity ≤ worker_capacity worker },
    ghost counted: { worker_index worker ≤ length (worker_view worker).pushed },
    ghost owns: { (worker_view worker).owner ≡ true },
}

/// One of the thieves of a deck, who steal at the front.
#[derive(Drop)]
pub struct Thief {
    pub(crate) stealer: Stealer<u64, Global, Known, DeckRule>,
    pub(crate) pass: Pass<u64, Known, Global>,
    ghost fifo: { stealer_flavor stealer ≡ 0 },
    ghost of: { IsPassOf (stealer_deque stealer) pass },
}

/// No memory was left, or the deck can't grow any more. It hands back the number.
#[derive(Drop)]
pub struct Unpushed {
    pub n: u64,
}

/// What a steal came to.
#[derive(Drop)]
pub enum Stolen {
    /// The first number, which the thief now has.
    Got(u64),
    /// Nothing was left at one moment of the call.
    Empty,
    /// Another caller took a number first, or nothing was left at one moment of the call.
    Again,
}
