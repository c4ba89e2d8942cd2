//! The board of the ring of the group of two elements, whose cases are settled in a given order.

ghost use Rattle.std.specs.Prelude.{IfOk};
ghost use Rattle.case_history.specs.History.{IsPending};
ghost use Rattle.legal_history.specs.Legal.{IsEndOf};

use case_ledger::{Board, Look};
use case_rules::Outcome;
use case_split::run_case;
use case_state::{Case, SharedCase};
use cert_check::accept;
use cert_text::write_certificate;
use leaf_cert::Leaf;
use legal_history::case_law;
use refute_cert::Refutation;
use ring_file::read_problem;
use root_system::Root;
use sparse_poly::Poly;
use std::alloc::{AllocError, Global};
use steal_workers::finish;
use table_tests::{Fault, numbers, push};

const PROBLEM: &str = "{\"labels\":2,\"products\":[[1,1,0]]}";

/// What looks at cases answer, each before it is settled, and what settling it answers; and then how many cases are pending, the least of them, and what
/// the check of the certificate answers. The question is the numbers of the cases.
pub fn answer(alloc: Global, question: &str) -> Result<Vec<u8>, Fault> {
    let mut board = board_of(alloc)?;
    let mut text = Vec::new(alloc);
    for n in &numbers(alloc, question)? {
        push(look_of(alloc, &board, *n)?.as_str(), &mut text)?;
        push(reply_of(alloc, &mut board, *n)?.as_str(), &mut text)?;
    }
    let pending = board.pending();
    let least = board.least_pending();
    let certificate = board.certificate(alloc)?;
    let accepted = accept(alloc, board.root(), &certificate);
    push(
        format!(in alloc; "{pending} {least:?} {accepted:?}")?.as_str(),
        &mut text,
    )?;
    Ok(text)
}

/// The text of the certificate, but for the end of its last line, where the cases of these numbers were settled in this order, and then all that were
/// pending from the least on.
pub fn finished(alloc: Global, question: &str) -> Result<Vec<u8>, Fault> {
    let mut board = board_of(alloc)?;
    for n in &numbers(alloc, question)? {
        let _reply = reply_of(alloc, &mut board, *n)?;
    }
    finish(alloc, &mut board)?;
    let certificate = board.certificate(alloc)?;
    let mut text = write_certificate(alloc, &certificate)?;
    let _end = text.pop();
    Ok(text)
}

// The board of the problem, with case 0 pending.
fn board_of(alloc: Global) -> Result<Board, Fault> {
    let Ok(problem) = read_problem(alloc, PROBLEM.as_bytes()) else {
        return Err(Fault::Form);
    };
    let Ok(root) = Root::new(alloc, &problem) else {
        return Err(Fault::Form);
    };
    Ok(Board::new(alloc, root, 2_000)?)
}

// What a look at case n answers; of a pending case the number of its decisions.
fn look_of(alloc: Global, board: &Board, n: u64) -> Result<String, AllocError> {
    match board.look(n)? {
        Look::Pending(case) => {
            let decisions = case.case().decisions().len();
            format!(in alloc; "{n} pending {decisions}: ")
        }
        Look::Settled { at } => format!(in alloc; "{n} settled {at}: "),
        Look::NoCase => format!(in alloc; "{n} no case: "),
    }
}

// What settling case n answers.
fn reply_of(alloc: Global, board: &mut Board, n: u64) -> Result<String, AllocError> {
    let outcome = end_of(alloc, board, n)?;
    match board.settle(alloc, n, outcome) {
        Ok(reply) => format!(in alloc; "{reply:?}, "),
        Err(_) => Err(AllocError),
    }
}

// The end of case n where it is pending. Else what is handed in does not matter.
fn end_of(
    alloc: Global,
    board: &Board,
    n: u64,
) -> Result<Outcome<SharedCase, Refutation, Leaf>, AllocError>
    ensures { IfOk result (λ o. IsPending board.now.history n → IsEndOf board.now.root.equations board.now.budget board.now.history n o) }
{
    case_law();
    let equations = board.root().equations();
    match board.pending_case(n) {
        Some(case) => run_case(alloc, equations, case, board.budget()),
        None => Ok(Outcome::Split {
            by: Poly::zero(alloc),
            zero: SharedCase::of(alloc, Case::root(alloc, equations)?)?,
            nonzero: SharedCase::of(alloc, Case::root(alloc, equations)?)?,
        }),
    }
}
