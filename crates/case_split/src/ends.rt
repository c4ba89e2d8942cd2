//! How the strategy ends on a case that is dead, stopped or split.
ghost use Rattle.std.specs.Prelude.{◌≡◌, ◌≢◌, ◌<◌, ◌+◌, ◌^◌, ℕ, true, List, IfOk};
ghost use Rattle.std.specs.declared.option.Option.TheVariants.{Some};
ghost use Rattle.sparse_poly.specs.declared.Term.{Term};
ghost use Rattle.sparse_poly.specs.declared.PolyFault.TheVariants.{OutOfMemory};
ghost use Rattle.sparse_poly.specs.Contributions.{IsFault};
ghost use Rattle.pseudo_rem.specs.Steps.{IsStepFault};
ghost use Rattle.leaf_cert.specs.Leaves.{EndChecks};
ghost use Rattle.case_rules.specs.declared.moves.Move.TheVariants as of_move;
ghost use Rattle.case_rules.specs.declared.outcome.Outcome.TheVariants.{Split as split_end};
ghost use Rattle.case_rules.specs.Cases.{known, poly, polys};
ghost use Rattle.case_rules.specs.Branches.{IsBranchFault};
ghost use Rattle.case_rules.specs.Rules.{IsLeast, IsDeadAt, IsAlive, IsMove};
ghost use Rattle.case_rules.specs.Belonging.{Belongs};
ghost use Rattle.case_rules.specs.Ends.{leaf_of, IsStoppedBy, IsEnd};

use crate::rules::Operands;
use case_rules::{Outcome, move_law};
use case_state::{Case, SharedCase};
use leaf_cert::{Leaf, LeafEnd, OpenCause, StepKind, Stop};
use refute_cert::Refutation;
use sparse_poly::{Poly, PolyFault};
use std::alloc::{AllocError, Global};

/// The end of a case that is dead, by the least equation that is a contradiction.
pub fn dead(
    alloc: Global,
    root: &[Poly],
    case: &Case,
    i: u64,
) -> Result<Outcome<SharedCase, Refutation, Leaf>, AllocError>
    requires belongs { Belongs root.now case.now }
    requires least { IsLeast (IsDeadAt case.now) i }
    ensures { IfOk result (λ o. (budget : ℕ) → IsEnd root.now budget case.now o) }
{
    let lines = case.lines().copies(alloc)?;
    let refutation = Refutation::cone_under(
        alloc,
        root,
        case.decisions().as_slice(),
        case.known(),
        &lines,
        case.equations().item(i),
    )?;
    Ok(Outcome::Dead(refutation))
}

/// The end of a case in which a split is due, and moves are left: both branches, or a leaf where the tail step is stopped.
pub fn split(
    alloc: Global,
    root: &[Poly],
    case: &Case,
    by: Poly,
    tail: Option<u64>,
) -> Result<Outcome<SharedCase, Refutation, Leaf>, AllocError>
    requires belongs { Belongs root.now case.now }
    requires alive { IsAlive case.now }
    requires due { IsMove case.now (of_move.Split by tail) }
    requires room { case.now.moves + 1 < 2 ^ 32 }
    ensures { IfOk result (λ o. (budget : ℕ) → case.now.moves < budget → IsEnd root.now budget case.now o) }
{
    move_law();
    let zero = match case.branch(&by, true, tail) {
        Ok(zero) => zero,
        Err(fault) => match tail {
            Some(i) => return stopped_tail(alloc, root, case, by, i, fault),
            None => return Err(want_of_memory(fault)),
        },
    };
    let nonzero = match case.branch(&by, false, tail) {
        Ok(nonzero) => nonzero,
        Err(fault) => return Err(want_of_memory(fault)),
    };
    split_into(alloc, by, zero, nonzero)
}

// A split into these branches.
fn split_into(
    alloc: Global,
    by: Poly,
    zero: Case,
    nonzero: Case,
) -> Result<Outcome<SharedCase, Refutation, Leaf>, AllocError>
    ensures { IfOk result (λ o. o ≡ split_end by zero nonzero) }
{
    let zero = SharedCase::of(alloc, zero)?;
    let nonzero = SharedCase::of(alloc, nonzero)?;
    Ok(Outcome::Split { by, zero, nonzero })
}

// A fault that can only be want of memory.
fn want_of_memory(fault: PolyFault) -> AllocError
    requires { fault ≡ OutOfMemory }
{
    match fault {
        PolyFault::OutOfMemory => AllocError,
        PolyFault::Degree { .. } => unreachable!(),
        PolyFault::Heavy { .. } => unreachable!(),
    }
}

// The end of a case in which a split with a tail step is due, and moves are left, where the tail step is refused.
fn stopped_tail(
    alloc: Global,
    root: &[Poly],
    case: &Case,
    by: Poly,
    i: u64,
    fault: PolyFault,
) -> Result<Outcome<SharedCase, Refutation, Leaf>, AllocError>
    requires belongs { Belongs root.now case.now }
    requires alive { IsAlive case.now }
    requires due { IsMove case.now (of_move.Split by (Some i)) }
    requires fault { IsBranchFault case.now by true (Some i) fault }
    ensures { IfOk result (λ o. (budget : ℕ) → case.now.moves < budget → IsEnd root.now budget case.now o) }
{
    move_law();
    let q = case.equations().at(i);
    let Some(v) = q.main() else { unreachable!() };
    let stop = Stop {
        step: StepKind::Tail,
        v,
        q: q.copy()?,
        p: by,
    };
    let end = LeafEnd::Open(cause(fault, stop)?);
    Ok(Outcome::Leaf(leaf(alloc, root, case, end)?))
}

/// The end of a case in which a reduction is due, and moves are left, where the reduction is refused.
pub fn stopped_reduction(
    alloc: Global,
    root: &[Poly],
    case: &Case,
    operands: Operands,
    fault: PolyFault,
) -> Result<Outcome<SharedCase, Refutation, Leaf>, AllocError>
    requires belongs { Belongs root.now case.now }
    requires alive { IsAlive case.now }
    requires due { IsMove case.now (of_move.Reduce operands.q operands.p operands.var) }
    requires fault { IsStepFault (poly case.now operands.q) (poly case.now operands.p) operands.var fault }
    ensures { IfOk result (λ o. (budget : ℕ) → case.now.moves < budget → IsEnd root.now budget case.now o) }
{
    move_law();
    let stop = Stop {
        step: StepKind::Reduce,
        v: operands.var,
        q: case.equations().at(operands.q).copy()?,
        p: case.equations().at(operands.p).copy()?,
    };
    let end = LeafEnd::Open(cause(fault, stop)?);
    Ok(Outcome::Leaf(leaf(alloc, root, case, end)?))
}

// Why a step is stopped.
fn cause(fault: PolyFault, stop: Stop) -> Result<OpenCause, AllocError>
    ensures why { IfOk result (λ why. (cs : List Term) → IsFault cs fault → IsStoppedBy cs stop why) }
    ensures stopped { IfOk result (λ _. fault ≢ OutOfMemory) }
{
    match fault {
        PolyFault::Degree { .. } => Ok(OpenCause::Degree(stop)),
        PolyFault::Heavy { .. } => Ok(OpenCause::Coefficient(stop)),
        PolyFault::OutOfMemory => Err(AllocError),
    }
}

/// A case as a leaf with this end. It fails only where no memory is left.
pub fn leaf(alloc: Global, root: &[Poly], case: &Case, end: LeafEnd) -> Result<Leaf, AllocError>
    requires belongs { Belongs root.now case.now }
    requires checks { EndChecks (polys case.now) (known case.now) end }
    ensures { IfOk result (λ l. l ≡ leaf_of case.now end) }
{
    let decisions = case.decisions().copies(alloc)?;
    let lines = case.lines().copies(alloc)?;
    let equations = case.equations().polys(alloc)?;
    Ok(Leaf::of_good_parts(root, decisions, lines, equations, end))
}
