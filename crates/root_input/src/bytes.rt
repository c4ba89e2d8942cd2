//! The root of the problem that bytes state.

ghost use Rattle.std.specs.Prelude.{MatchResult};
ghost use Rattle.ring_file.specs.Problems.{Stated};
ghost use Rattle.root_input.specs.Inputs.{HasRoot, IsRootStop};

use crate::fault::RootStop;
use ring_file::read_problem;
use root_system::Root;
use std::alloc::Global;

/// The root of the problem that the bytes state.
///
/// `Problem`, `TooManyUnknowns` and `TooManyEquations` come exactly where the bytes state no problem, or one with too many unknowns or equations.
pub fn root_of_bytes(alloc: Global, bytes: &[u8]) -> Result<Root, RootStop>
    ensures { MatchResult result (λ root. (problem : Stated) × HasRoot bytes.now problem root) (IsRootStop bytes.now) }
{
    let problem = read_problem(alloc, bytes)?;
    Ok(Root::new(alloc, &problem)?)
}
