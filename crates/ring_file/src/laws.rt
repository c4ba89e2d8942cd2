//! What the contract of `read_problem` says of its answers together.

ghost use Rattle.std.specs.Prelude.{◌≡◌, ◌≢◌};
ghost use Rattle.ring_file.specs.Reading.{IsProblemOf, IsProblemFault};

use crate::problem::ProblemFault;

/// Apart from want of memory some bytes have at most one answer, a problem or a fault. So where there
/// is memory, `read_problem` gives a fault exactly where the bytes have it.
pub fn problem_answer_law()
    ensures ok { (bytes problem fault : _) → IsProblemOf bytes problem → IsProblemFault bytes fault → fault ≡ ProblemFault.OutOfMemory }
    ensures one { (bytes first second : _) → IsProblemFault bytes first → IsProblemFault bytes second → first ≢ ProblemFault.OutOfMemory → second ≢ ProblemFault.OutOfMemory → first ≡ second }
    ensures problem { (bytes first second : _) → IsProblemOf bytes first → IsProblemOf bytes second → first ≡ second }
{}
