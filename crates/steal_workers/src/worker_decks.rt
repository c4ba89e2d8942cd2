//! Where workers find their cases.
ghost use Rattle.std.specs.Prelude.{◌≡◌, ◌<◌, IfOk, length};
ghost use Rattle.std.specs.Vec.{vec_len};

use std::alloc::{AllocError, Global};
use steal_deck::{Owner, Stolen, Thief, deck};

/// A worker's own deck, and a thief of each other deck, in the order of the workers' numbers, beginning after its own.
#[derive(Drop)]
pub struct WorkerDecks {
    pub worker: u32,
    pub owner: Owner,
    pub thieves: Vec<Thief>,
}

/// The decks and the thieves of each worker, in the order of their numbers. Worker 0's deck holds case 0. It fails only where no memory is left.
pub fn decks_for(alloc: Global, workers: u32) -> Result<Vec<WorkerDecks>, AllocError>
    ensures { IfOk result (λ decks. vec_len decks ≡ workers) }
{
    let (mut decks, mut firsts) = own_decks(alloc, workers)?;
    if let Some(first) = decks.first_mut() {
        let _ = first.owner.push(0);
    }
    give_thieves(alloc, decks.as_mut_slice(), firsts.as_mut_slice())?;
    Ok(decks)
}

// A deck for each worker, and the first thief of each.
fn own_decks(alloc: Global, workers: u32) -> Result<(Vec<WorkerDecks>, Vec<Thief>), AllocError>
    ensures decks { IfOk result (λ d. vec_len d.0 ≡ workers) }
    ensures thieves { IfOk result (λ d. vec_len d.1 ≡ workers) }
{
    let mut decks = Vec::new(alloc);
    let mut firsts = Vec::new(alloc);
    for worker in 0..workers {
        let (owner, first) = deck(alloc)?;
        let thieves = Vec::new(alloc);
        decks.push(WorkerDecks {
            worker,
            owner,
            thieves,
        })?;
        firsts.push(first)?;
    }
    Ok((decks, firsts))
}

// Gives each worker a thief of each other deck.
fn give_thieves(
    alloc: Global,
    decks: &mut [WorkerDecks],
    firsts: &mut [Thief],
) -> Result<(), AllocError>
    requires { length decks.old ≡ length firsts.old }
    ensures { length decks.new ≡ length decks.old }
{
    for i in 0..decks.len() {
        decks[i].thieves = others(alloc, firsts, i)?;
    }
    Ok(())
}

// A thief of each deck after place i, and then of each before it.
fn others(alloc: Global, firsts: &mut [Thief], i: usize) -> Result<Vec<Thief>, AllocError>
    requires { i < length firsts.old }
    ensures { length firsts.new ≡ length firsts.old }
{
    let mut thieves = Vec::new(alloc);
    add_each(&mut thieves, &mut firsts[i + 1..])?;
    add_each(&mut thieves, &mut firsts[..i])?;
    Ok(thieves)
}

// Adds a further thief of each deck.
fn add_each(thieves: &mut Vec<Thief>, firsts: &mut [Thief]) -> Result<(), AllocError>
    ensures { length firsts.new ≡ length firsts.old }
{
    for i in 0..firsts.len() {
        let thief = firsts[i].another()?;
        thieves.push(thief)?;
    }
    Ok(())
}

/// A case from the worker's own deck, and else from the first other deck that a steal finds one in.
pub fn next_number(owner: &mut Owner, thieves: &mut [Thief]) -> Option<u64> {
    let own = owner.pop();
    if own.is_some() {
        return own;
    }
    for i in 0..thieves.len() {
        if let Stolen::Got(n) = thieves[i].steal() {
            return Some(n);
        }
    }
    None
}
