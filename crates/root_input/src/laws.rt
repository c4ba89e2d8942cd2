//! What is read, and the root of it, are told by the bytes.

ghost use Rattle.std.specs.Prelude.{◌≡◌, ◌≢◌, ◌<◌, length};
ghost use Rattle.braid_io.specs.declared.whole.ReadStop.TheVariants.{TooLong, OutOfMemory as no_read_memory};
ghost use Rattle.root_input.specs.Streams.{Tells, TellsAll, ReadsAll, IsReadStop};
ghost use Rattle.root_input.specs.Inputs.{HasRoot, IsRootStop};
ghost use Rattle.root_input.specs.declared.fault.RootStop.TheVariants.{OutOfMemory};

use ring_file::problem_answer_law;
use root_system::laws::root_answer_law;

/// Where a source told its bytes, these are the bytes that were read, if all were; and it was refused as too long only where they are more than the
/// limit. Where also no read failed, it was not read to its end only for this, or for want of memory.
pub fn reading_law()
    ensures read { (limit source bytes all : _) → Tells source bytes → ReadsAll limit source all → all ≡ bytes }
    ensures long { (limit source bytes stop : _) → TellsAll source bytes → IsReadStop limit source stop → stop ≢ no_read_memory → stop ≡ TooLong }
    ensures over { (limit source bytes : _) → Tells source bytes → IsReadStop limit source TooLong → limit < length bytes }
{}

/// Bytes have one root or one cause why they have none, and not both, but for want of memory.
pub fn root_stop_law()
    ensures one_problem { (bytes problem other root twin : _) → HasRoot bytes problem root → HasRoot bytes other twin → problem ≡ other }
    ensures one_root { (bytes problem other root twin : _) → HasRoot bytes problem root → HasRoot bytes other twin → root ≡ twin }
    ensures no_stop { (bytes problem root stop : _) → HasRoot bytes problem root → IsRootStop bytes stop → stop ≡ OutOfMemory }
    ensures one_stop { (bytes stop other : _) → IsRootStop bytes stop → IsRootStop bytes other → stop ≢ OutOfMemory → other ≢ OutOfMemory → stop ≡ other }
{
    problem_answer_law();
    root_answer_law();
}
