//! Ends of cases, by the branches that lead to them.
ghost use Rattle.std.specs.Prelude.{◌≤◌, IfOk, IfSome};
ghost use Rattle.case_rules.specs.Belonging.{Belongs, IsRootList};

use crate::parts::{push_decisions, push_lines};
use crate::refutations::push_refutation;
use crate::roots::is_root_list;
use crate::texts::polys;
use case_rules::{Outcome, belongs_law, end_law};
use case_split::run_case;
use case_state::{Case, SharedCase};
use leaf_cert::{Leaf, LeafEnd, OpenCause, StepKind, Stop};
use refute_cert::Refutation;
use sparse_poly::Poly;
use std::alloc::{AllocError, Global};
use table_tests::{Fault, number, push, push_poly};

/// The end of a case. The question is a budget, the branches that lead to the case from the root case, `z` for the zero branch and any other letter for
/// the nonzero one, or `-` for none, and the root, with ` | ` between.
pub fn answer(alloc: Global, question: &str) -> Result<Vec<u8>, Fault> {
    let columns: Vec<&str> = question.split(" | ").collect(alloc)?;
    let [budget, path, root] = columns.as_slice() else {
        return Err(Fault::Form);
    };
    let budget = number(budget)?;
    let root = polys(alloc, root)?;
    if !is_root_list(&root)? {
        return Err(Fault::Form);
    }
    let path = if *path == "-" { "" } else { *path };
    match end_at(alloc, &root, path, budget)? {
        Some(end) => text_of(alloc, &end),
        None => Err(Fault::Form),
    }
}

// The end of the case to which a path leads from the root case. `None` comes where a case of the path is not split.
fn end_at(
    alloc: Global,
    root: &[Poly],
    path: &str,
    budget: u32,
) -> Result<Option<Outcome<SharedCase, Refutation, Leaf>>, AllocError>
    requires { IsRootList root.now }
{
    belongs_law();
    let first = Case::root(alloc, root)?;
    let mut reached = SharedCase::of(alloc, first)?;
    for letter in path.as_bytes() {
        let Some(branch) = branch_of(alloc, root, reached.case(), *letter == b'z', budget)? else {
            return Ok(None);
        };
        reached = branch;
    }
    Ok(Some(run_case(alloc, root, reached.case(), budget)?))
}

// A branch of a case, where it is split.
fn branch_of(
    alloc: Global,
    root: &[Poly],
    case: &Case,
    zero: bool,
    budget: u32,
) -> Result<Option<SharedCase>, AllocError>
    requires root { IsRootList root.now }
    requires belongs { Belongs root.now case.now }
    requires within { case.now.moves ≤ budget }
    ensures belongs { IfOk result (λ o. IfSome o (Belongs root.now)) }
    ensures within { IfOk result (λ o. IfSome o (λ c. c.moves ≤ budget)) }
{
    end_law();
    match run_case(alloc, root, case, budget)? {
        Outcome::Split {
            zero: branch,
            nonzero: other,
            ..
        } => {
            if zero {
                return Ok(Some(branch));
            }
            Ok(Some(other))
        }
        Outcome::Dead(_) => Ok(None),
        Outcome::Leaf(_) => Ok(None),
    }
}

// `split` with its polynomial, `dead` with the parts of the refutation, or `leaf` with those of the leaf.
fn text_of(alloc: Global, end: &Outcome<SharedCase, Refutation, Leaf>) -> Result<Vec<u8>, Fault> {
    let mut text = Vec::new(alloc);
    match end {
        Outcome::Split { by, .. } => {
            push("split ", &mut text)?;
            push_poly(by, &mut text)?;
        }
        Outcome::Dead(refutation) => {
            push("dead\n", &mut text)?;
            push_refutation(alloc, refutation, &mut text)?;
        }
        Outcome::Leaf(leaf) => push_leaf(alloc, leaf, &mut text)?,
    }
    Ok(text)
}

fn push_leaf(alloc: Global, leaf: &Leaf, into: &mut Vec<u8>) -> Result<(), Fault> {
    push_decisions(leaf.decisions(), into)?;
    push_lines(alloc, leaf.lines(), into)?;
    for poly in leaf.equations() {
        push("eq ", into)?;
        push_poly(poly, into)?;
        push("\n", into)?;
    }
    push_end(alloc, leaf.end(), into)
}

fn push_end(alloc: Global, end: &LeafEnd, into: &mut Vec<u8>) -> Result<(), Fault> {
    match end {
        LeafEnd::Triangular => push("triangular", into),
        LeafEnd::Open(OpenCause::Budget) => push("budget", into),
        LeafEnd::Open(OpenCause::Degree(stop)) => push_stop(alloc, "degree", stop, into),
        LeafEnd::Open(OpenCause::Coefficient(stop)) => push_stop(alloc, "coefficient", stop, into),
    }
}

fn push_stop(alloc: Global, cause: &str, stop: &Stop, into: &mut Vec<u8>) -> Result<(), Fault> {
    let step = match stop.step {
        StepKind::Reduce => "reduce",
        StepKind::Tail => "tail",
    };
    let v = stop.v;
    push(format!(in alloc; "{cause} {step} {v} ")?.as_str(), into)?;
    push_poly(&stop.q, into)?;
    push(" ", into)?;
    push_poly(&stop.p, into)
}
