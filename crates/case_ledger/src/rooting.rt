//! Roots as lists of equations.
ghost use Rattle.std.specs.Prelude.{All};
ghost use Rattle.sparse_poly.specs.Contributions.{IsPoly};
ghost use Rattle.case_rules.specs.Belonging.{IsRootList};

use root_system::Root;
use sparse_poly::Poly;

/// The equations of a root are polynomials, primitive and not zero, and ascend strictly.
pub fn root_list(root: &Root)
    ensures { IsRootList root.now.equations }
{
    all_are_polys(root.equations());
}

// Each is a polynomial, by its type.
fn all_are_polys(polys: &[Poly])
    ensures { All IsPoly polys.now }
{
    for poly in polys {
        let _terms = poly.terms();
    }
}
