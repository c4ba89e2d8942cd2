//! The products that a division owes, from the greatest monomial down.
ghost use Rattle.std.specs.Prelude.{◌≡◌, ◌<◌, ◌≤◌, ◌+◌, [], ℤ, neg_ℤ, ◌+ℤ◌, unsigned_abs, ◌++◌, IfOk, OnOk, MatchOption};
ghost use Rattle.std.specs.BinaryHeap.{heap_items};
ghost use Rattle.std.specs.declared.cmp.Ordering.TheVariants.{Less};
ghost use Rattle.monomial.specs.Monomials.{monomial_cmp};
ghost use Rattle.sparse_poly.specs.Polynomials.{coefficient, weight};
ghost use Rattle.sparse_poly.specs.Contributions.{max_coeff, IsPoly};
ghost use Rattle.sparse_poly.specs.Owing.{owed_terms, AreOwed, AllUpTo, IsTop, IsOwedMore, IsTopAt, IsTakenOff};

use crate::Term;
use crate::dividing::difference_of;
use monomial::Monomial;
use std::alloc::{AllocError, Global};
use std::cmp::Ordering;
use std::collections::{BinaryHeap, VecDeque};

/// Products of a term of the quotient with terms of the divisor, from the greatest down. Rows are ordered by the monomials of their first terms.
#[derive(Drop)]
pub struct OwedRow {
    pub first: Term,
    pub rest: VecDeque<Term>,
}

impl PartialEq for OwedRow {
    ghost use Rattle.std.specs.Ordering.{eq_by_cmp};
    ghost use Rattle.std.specs.Cmp.{eq_by_cmp_equiv, partial_equiv_from_equiv};
    ghost use Rattle.sparse_poly.specs.Owing.{row_cmp, row_cmp-IsTotalOrder};

    ghost eq = { eq_by_cmp row_cmp };

    ghost laws = { partial_equiv_from_equiv (eq_by_cmp_equiv row_cmp-IsTotalOrder) };

    fn eq(&self, other: &OwedRow) -> bool {
        matches!(self.cmp(other), Ordering::Equal)
    }
}

impl Eq for OwedRow {
    ghost use Rattle.std.specs.Cmp.{eq_by_cmp_equiv};
    ghost use Rattle.sparse_poly.specs.Owing.{row_cmp-IsTotalOrder};

    ghost laws = { eq_by_cmp_equiv row_cmp-IsTotalOrder };
}

impl PartialOrd for OwedRow {
    ghost use Rattle.std.specs.Prelude.{Some};
    ghost use Rattle.std.specs.Cmp.{partial_order_from_total};
    ghost use Rattle.sparse_poly.specs.Owing.{row_cmp, row_cmp-IsTotalOrder};

    ghost partial_cmp = { λ r s. Some (row_cmp r s) };

    ghost laws = { partial_order_from_total row_cmp-IsTotalOrder };

    fn partial_cmp(&self, other: &OwedRow) -> Option<Ordering> {
        Some(self.cmp(other))
    }
}

impl Ord for OwedRow {
    ghost use Rattle.std.specs.Prelude.{refl};
    ghost use Rattle.sparse_poly.specs.Owing.{row_cmp, row_cmp-IsTotalOrder};

    ghost cmp = { row_cmp };

    ghost total = { row_cmp-IsTotalOrder };

    ghost matches_partial_cmp = { λ r s. refl };

    ghost matches_eq = { λ r s. refl };

    fn cmp(&self, other: &OwedRow) -> Ordering {
        self.first.monomial.order(&other.first.monomial)
    }
}

/// Adds products to those that are owed.
pub fn owe(owed: &mut BinaryHeap<OwedRow>, products: VecDeque<Term>) -> Result<(), AllocError>
    requires owed { AreOwed (heap_items owed.old) }
    requires poly { IsPoly products.items }
    ensures { OnOk result (IsOwedMore (heap_items owed.old) products.items (heap_items owed.new)) }
{
    let mut products = products;
    if let Some(first) = products.pop_front() {
        owed.push(OwedRow {
            first,
            rest: products,
        })?;
    }
    Ok(())
}

/// Takes the products with a monomial, above which none is owed, off its coefficient. There is `None` only where the absolute values of the
/// difference and of all that is owed to the monomial add up to more than 2^127 - 1.
pub fn take_owed(
    owed: &mut BinaryHeap<OwedRow>,
    monomial: &Monomial,
    coeff: i128,
) -> Result<Option<i128>, AllocError>
    requires owed { AreOwed (heap_items owed.old) }
    requires bound { AllUpTo monomial.now (owed_terms (heap_items owed.old)) }
    requires small { unsigned_abs coeff ≤ max_coeff }
    ensures { IfOk result (λ o. MatchOption o (max_coeff < unsigned_abs (coeff +ℤ neg_ℤ (coefficient (owed_terms (heap_items owed.old)) monomial.now)) + weight (owed_terms (heap_items owed.old)) monomial.now) (IsTakenOff monomial.now coeff (heap_items owed.old) (heap_items owed.new))) }
{
    let mut left = coeff;
    'rows: while let Some(row) = top_at(owed, monomial) {
        let Some(less) = difference_of(left, row.first.coeff) else {
            return Ok(None);
        };
        left = less;
        owe(owed, row.rest)?;
    }
    Ok(Some(left))
}

// Takes the first row, where it begins with a monomial.
fn top_at(owed: &mut BinaryHeap<OwedRow>, monomial: &Monomial) -> Option<OwedRow>
    requires { AreOwed (heap_items owed.old) }
    ensures { IsTopAt monomial.now (heap_items owed.old) result (heap_items owed.new) }
{
    match top_row(owed)?.first.monomial.order(monomial) {
        Ordering::Equal => {
            let row = owed.pop()?;
            Some(row)
        }
        _ => None,
    }
}

/// The first row, which begins with the greatest monomial of all that are owed.
pub fn top_row(owed: &BinaryHeap<OwedRow>) -> Option<&OwedRow>
    requires { AreOwed (heap_items owed.now) }
    ensures { MatchOption result (heap_items owed.now ≡ []) (λ r. IsTop r.now.first.monomial (owed_terms (heap_items owed.now))) }
{
    let row = owed.peek()?;
    Some(row)
}

/// The first row, where it begins above a monomial.
pub fn row_above<'a>(owed: &'a BinaryHeap<OwedRow>, monomial: &Monomial) -> Option<&'a OwedRow>
    requires { AreOwed (heap_items owed.now) }
    ensures { MatchOption result (AllUpTo monomial.now (owed_terms (heap_items owed.now))) (λ r. (monomial_cmp monomial.now r.now.first.monomial ≡ Less) × IsTop r.now.first.monomial (owed_terms (heap_items owed.now))) }
{
    let row = top_row(owed)?;
    match monomial.order(&row.first.monomial) {
        Ordering::Less => Some(row),
        _ => None,
    }
}
