//! The certificate of a search.

ghost use Rattle.std.specs.Prelude.{◌≤◌, IfOk, List};
ghost use Rattle.leaf_cert.specs.declared.certificate.RawEntry.{RawEntry};
ghost use Rattle.cert_text.specs.Text.{HasHeadInRange, HasUnknownsAlone};
ghost use Rattle.solve_run.specs.Outcomes.{IsSearched};

use case_ledger::Board;
use leaf_cert::Certificate;
use legal_history::{complete_law, tree_law};
use legal_ranges::variables_law;
use root_system::Root;
use std::alloc::{AllocError, Global};
use std::sync::Wait;
use std::thread::Threads;
use steal_workers::{Gate, search};

/// Searches on so many workers until no case of the root is pending. It fails only where no memory is left.
pub fn certificate_of<R: Threads + Wait + Sync, G: Gate + Sync>(
    rt: &R,
    alloc: Global,
    root: Root,
    budget: u32,
    workers: u32,
    gate: &G,
) -> Result<Certificate, AllocError>
    requires budget { budget ≤ 1_000_000 }
    requires workers { (1 ≤ workers) × (workers ≤ 64) }
    ensures searched { IfOk result (λ certificate. (history : List RawEntry) × IsSearched root budget workers history certificate) }
    ensures head { IfOk result HasHeadInRange }
    ensures variables { IfOk result HasUnknownsAlone }
{
    complete_law();
    tree_law();
    variables_law();
    let started = Board::new(alloc, root, budget)?;
    let board = search(rt, alloc, started, workers, gate)?;
    let _root = board.root();
    board.certificate(alloc)
}
