//! What the root is in every field, and that a problem and a limit have one answer, but for a lack of memory.

ghost use Rattle.std.specs.Prelude.{◌≡◌, ◌≢◌, ◌↔◌, All};
ghost use Rattle.field_laws.specs.Field.{AllElements};
ghost use Rattle.sparse_poly.specs.Polynomials.{eval};
ghost use Rattle.root_system.specs.Root.{AreRootEquations, IsRootOf, IsRootFault};
ghost use Rattle.root_system.specs.Solution.{Solution};
ghost use Rattle.root_system.specs.declared.root.RootFault.TheVariants.{OutOfMemory};

use field_laws::CharZeroField;
use gauge_fix::laws::{gauge_law, inverse_law};
use hexagon_gen::laws::hexagon_law;
use pentagon_gen::laws::pentagon_law;
use sparse_poly::laws::primitive_law;

/// In every field the root vanishes exactly at the solutions.
pub fn root_law<F: CharZeroField>()
    ensures { (p x qs : _) → AllElements F.field x → AreRootEquations p qs → (All (λ q. eval F.field x q ≡ F.field.zero) qs ↔ Solution F.field p x) }
{
    pentagon_law::<F>();
    hexagon_law::<F>();
    inverse_law::<F>();
    gauge_law::<F>();
    primitive_law::<F>();
}

/// A problem has one list of root equations.
pub fn one_root_law()
    ensures { (p qs rs : _) → AreRootEquations p qs → AreRootEquations p rs → qs ≡ rs }
{}

/// A problem with a limit has one root or one fault, and not both, but for a lack of memory.
pub fn root_answer_law()
    ensures one_root { (p limit root other : _) → IsRootOf p limit root → IsRootOf p limit other → root ≡ other }
    ensures no_fault { (p limit root fault : _) → IsRootOf p limit root → IsRootFault p limit fault → fault ≡ OutOfMemory }
    ensures one_fault { (p limit fault other : _) → IsRootFault p limit fault → IsRootFault p limit other → fault ≢ OutOfMemory → other ≢ OutOfMemory → fault ≡ other }
{}
