//! Laws of reductions, and of their values in every field of characteristic zero.
ghost use Rattle.std.specs.Prelude.{◌≡◌, ◌≢◌, ◌<◌, ◌≤◌};
ghost use Rattle.std.specs.declared.option.Option.TheVariants.{Some};
ghost use Rattle.field_laws.specs.Field.{AllElements};
ghost use Rattle.sparse_poly.specs.Polynomials.{eval, products, IsSum};
ghost use Rattle.sparse_poly.specs.Contributions.{contributions, IsPoly};
ghost use Rattle.sparse_poly.specs.Reads.{degree_in, main_variable, HaveMainVariables};
ghost use Rattle.pseudo_rem.specs.Steps.{CanReduce, IsReduction, IsStep, IsStepFault, IsTailStep, IsTailFault};
ghost use Rattle.pseudo_rem.specs.Remainders.{AreSteps, IsRemainderFault};
ghost use Rattle.sparse_poly.specs.declared.PolyFault.TheVariants.{OutOfMemory};

use field_laws::CharZeroField;
use sparse_poly::one_clearing_law;

/// A step states `l*q - a*p = m*r`.
pub fn reduction_law()
    ensures { (units : _) (q p : _) (step : _) → IsStep units q p step → IsSum (contributions step.l q step.a p) (products step.m step.r) }
{}

/// A reduction lowers the degree in its variable, and raises it in none that is greater than the main variable of `p`, nor in any other that
/// does not occur in `p`.
pub fn degree_law()
    ensures lower { (units : _) (q p : _) (v : _) (step : _) → IsPoly q → IsPoly p → CanReduce q p v → IsReduction units q p v step → degree_in v step.r < degree_in v q }
    ensures greater { (units : _) (q p : _) (u v w : _) (step : _) → IsPoly q → IsPoly p → CanReduce q p v → IsReduction units q p v step → main_variable p ≡ Some u → u < w → degree_in w step.r ≤ degree_in w q }
    ensures other { (units : _) (q p : _) (v w : _) (step : _) → IsPoly q → IsPoly p → CanReduce q p v → IsReduction units q p v step → degree_in w p ≡ 0 → degree_in w step.r ≤ degree_in w q }
{}

/// A step states `l*q = a*p + m*r` as values.
pub fn step_value_law<F: CharZeroField>()
    ensures { (s : _) (units : _) (q p : _) (step : _) → AllElements F.field s → IsStep units q p step → F.field.times (eval F.field s step.l) (eval F.field s q) ≡ F.field.plus (F.field.times (eval F.field s step.a) (eval F.field s p)) (F.field.times (eval F.field s step.m) (eval F.field s step.r)) }
{}

/// A reduction and a tail step have one answer: they are made or stopped and not both, in one way.
pub fn step_answer_law()
    ensures one_reduction { (units : _) (q p : _) (v : _) (step other : _) → IsReduction units q p v step → IsReduction units q p v other → step ≡ other }
    ensures reduction { (units : _) (q p : _) (v : _) (step : _) (fault : _) → IsReduction units q p v step → IsStepFault q p v fault → fault ≡ OutOfMemory }
    ensures reduction_fault { (q p : _) (v : _) (fault other : _) → IsStepFault q p v fault → IsStepFault q p v other → fault ≢ OutOfMemory → other ≢ OutOfMemory → fault ≡ other }
    ensures one_tail { (units : _) (v : _) (q factor rest : _) (step other : _) → IsTailStep units v q factor rest step → IsTailStep units v q factor rest other → step ≡ other }
    ensures tail { (units : _) (v : _) (q factor rest : _) (step : _) (fault : _) → IsTailStep units v q factor rest step → IsTailFault v q factor rest fault → fault ≡ OutOfMemory }
    ensures tail_fault { (v : _) (q factor rest : _) (fault other : _) → IsTailFault v q factor rest fault → IsTailFault v q factor rest other → fault ≢ OutOfMemory → other ≢ OutOfMemory → fault ≡ other }
{
    one_clearing_law();
}

/// A full remainder has one answer: one list of steps, or one first step that is stopped, and not both.
pub fn remainder_answer_law()
    ensures one_remainder { (units list : _) (n : _) (steps others : _) → HaveMainVariables list → AreSteps units list n steps → AreSteps units list n others → steps ≡ others }
    ensures remainder { (units list : _) (n : _) (steps : _) (fault : _) → HaveMainVariables list → AreSteps units list n steps → IsRemainderFault units list n fault → fault ≡ OutOfMemory }
    ensures one_fault { (units list : _) (n : _) (fault other : _) → HaveMainVariables list → IsRemainderFault units list n fault → IsRemainderFault units list n other → fault ≢ OutOfMemory → other ≢ OutOfMemory → fault ≡ other }
{
    one_clearing_law();
}
