//! The root of a run.

ghost use Rattle.std.specs.Prelude.{◌≡◌, true, is_some, Some, IfOk, MatchResult};
ghost use Rattle.ring_file.specs.Problems.{Stated};
ghost use Rattle.root_input.specs.Streams.{TakesSome, between};
ghost use Rattle.run_words.specs.Words.{IsMadeInRange};
ghost use Rattle.solve_run.specs.Problems.{IsMadeProblem, MakesRoot, IsMadeFault, GivesRoot, GivesNoRoot};

use braid_io::Source;
use ring_file::Problem;
use ring_make::{cube, cyclic};
use root_input::{InputFault, root_of};
use root_system::{Root, RootFault};
use run_words::Made;
use std::alloc::{AllocError, Global};

/// The root of the ring that is made, and then nothing is read, or else of the problem that the source states.
pub(crate) fn root_for<S: Source>(
    alloc: Global,
    made: Option<Made>,
    source: &mut S,
) -> Result<Root, InputFault>
    requires { IsMadeInRange made }
    ensures root { MatchResult result (λ root. (problem : Stated) × GivesRoot (between S.left S.faults source.old source.new) made problem root) (GivesNoRoot (between S.left S.faults source.old source.new) made) }
    ensures untouched { is_some made ≡ true → source.new ≡ source.old }
    ensures suffix { TakesSome (between S.left S.faults source.old source.new) }
{
    match made {
        Some(made) => root_of_made(alloc, made),
        None => root_of(alloc, source),
    }
}

// The root of the problem that a ring makes.
fn root_of_made(alloc: Global, made: Made) -> Result<Root, InputFault>
    requires { IsMadeInRange (Some made) }
    ensures { MatchResult result (λ root. (problem : Stated) × MakesRoot made problem root) (IsMadeFault made) }
{
    let Ok(problem) = problem_of(alloc, made) else {
        return Err(InputFault::OutOfMemory);
    };
    match Root::new(alloc, &problem) {
        Ok(root) => Ok(root),
        Err(RootFault::TooManyUnknowns { count }) => Err(InputFault::TooManyUnknowns { count }),
        Err(RootFault::TooManyEquations { count }) => Err(InputFault::TooManyEquations { count }),
        Err(RootFault::OutOfMemory) => Err(InputFault::OutOfMemory),
    }
}

// The problem that a ring makes.
fn problem_of(alloc: Global, made: Made) -> Result<Problem, AllocError>
    requires { IsMadeInRange (Some made) }
    ensures { IfOk result (IsMadeProblem made) }
{
    match made {
        Made::Cyclic { labels } => cyclic(alloc, labels),
        Made::Cube { dimension } => cube(alloc, dimension),
    }
}
