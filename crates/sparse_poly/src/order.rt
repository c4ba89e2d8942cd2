//! Polynomials as keys of ordered sets and maps.

use crate::Poly;
use std::cmp::Ordering;

impl PartialEq for Poly {
    ghost use Rattle.std.specs.Ordering.{eq_by_cmp};
    ghost use Rattle.std.specs.Cmp.{eq_by_cmp_equiv, partial_equiv_from_equiv};
    ghost use Rattle.sparse_poly.specs.Order.{poly_cmp};
    ghost use Rattle.sparse_poly.specs.OrderLaws.{poly_cmp-IsTotalOrder};

    ghost eq = { eq_by_cmp poly_cmp };

    ghost laws = { partial_equiv_from_equiv (eq_by_cmp_equiv poly_cmp-IsTotalOrder) };

    fn eq(&self, other: &Poly) -> bool {
        matches!(self.order(other), Ordering::Equal)
    }
}

impl Eq for Poly {
    ghost use Rattle.std.specs.Cmp.{eq_by_cmp_equiv};
    ghost use Rattle.sparse_poly.specs.OrderLaws.{poly_cmp-IsTotalOrder};

    ghost laws = { eq_by_cmp_equiv poly_cmp-IsTotalOrder };
}

impl PartialOrd for Poly {
    ghost use Rattle.std.specs.Prelude.{Some};
    ghost use Rattle.std.specs.Cmp.{partial_order_from_total};
    ghost use Rattle.sparse_poly.specs.Order.{poly_cmp};
    ghost use Rattle.sparse_poly.specs.OrderLaws.{poly_cmp-IsTotalOrder};

    ghost partial_cmp = { λ p q. Some (poly_cmp p q) };

    ghost laws = { partial_order_from_total poly_cmp-IsTotalOrder };

    fn partial_cmp(&self, other: &Poly) -> Option<Ordering> {
        Some(self.order(other))
    }
}

impl Ord for Poly {
    ghost use Rattle.std.specs.Prelude.{refl};
    ghost use Rattle.sparse_poly.specs.Order.{poly_cmp};
    ghost use Rattle.sparse_poly.specs.OrderLaws.{poly_cmp-IsTotalOrder};

    ghost cmp = { poly_cmp };

    ghost total = { poly_cmp-IsTotalOrder };

    ghost matches_partial_cmp = { λ p q. refl };

    ghost matches_eq = { λ p q. refl };

    fn cmp(&self, other: &Poly) -> Ordering {
        self.order(other)
    }
}
