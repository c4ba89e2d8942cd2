//! Tables of the numbers N(a,b,c) and the rules of a fusion ring.

ghost use Rattle.std.specs.Prelude.{◌≡◌, IfOk};
ghost use Rattle.label_tuples.specs.Extended.{all_singles, all_triples, all_fours};
ghost use Rattle.label_tuples.specs.Order.{Before1, Before3, Before4, IsLeastFault};
ghost use Rattle.fusion_ring.specs.Fusion.{channel};
ghost use Rattle.fusion_ring.specs.Rings.{has_dual, is_commutative, is_associative};
ghost use Rattle.fusion_ring.specs.Listed.{stated};

use crate::Triple;
use crate::products::is_product;
use label_tuples::{all_fours, all_singles, all_triples, count_labels, first_fault};
use std::alloc::{AllocError, Global};
use std::marker::Model;

/// Labels 0, 1, .. and numbers N(a,b,c) that are 0 or 1, in the lexicographic order of (a,b,c).
#[derive(Drop)]
pub struct Table {
    labels: u8,
    numbers: Vec<bool>,
}

impl Model for Table {
    ghost use Rattle.std.specs.Prelude.{◌≡◌, ◌*◌, length};
    ghost use Rattle.fusion_ring.specs.Fusion.{Fusion};

    ghost Value = { Fusion };

    ghost view = { λ t. record { labels = t.labels; table = t.numbers.items } };

    ghost invariant = { λ t. length t.numbers.items ≡ t.labels * t.labels * t.labels };
}

impl Table {
    /// The table with N(a,b,c) = 1 for the listed triples and for the products of the unit.
    pub fn stated(alloc: Global, labels: u8, products: &[Triple]) -> Result<Table, AllocError>
        ensures { IfOk result (λ t. t ≡ stated labels products.now) }
    {
        let all = all_triples(alloc, labels)?;
        let mut numbers = Vec::new(alloc);
        for t in &all {
            numbers.push(is_product(products, *t))?;
        }
        Ok(Table { labels, numbers })
    }

    pub fn labels(&self) -> u8
        ensures { result ≡ self.now.labels }
    {
        self.labels
    }

    /// Whether a, b and c are labels and N(a,b,c) = 1.
    pub fn channel(&self, a: u8, b: u8, c: u8) -> bool
        ensures { result ≡ channel self.now a b c }
    {
        if a >= self.labels || b >= self.labels || c >= self.labels {
            return false;
        }
        let labels = self.labels as usize;
        self.numbers[(a as usize * labels + b as usize) * labels + c as usize]
    }

    /// An equal table.
    pub fn copy(&self) -> Result<Table, AllocError>
        ensures { IfOk result (λ t. t ≡ self.now) }
    {
        Ok(Table {
            labels: self.labels,
            numbers: self.numbers.clone()?,
        })
    }

    fn has_dual(&self, a: u8) -> bool
        ensures { result ≡ has_dual self.now a }
    {
        let duals = count_labels(self.labels(), |b| self.channel(a, b, 0));
        let one_way = count_labels(
            self.labels(),
            |b| self.channel(a, b, 0) && !self.channel(b, a, 0),
        );
        duals == 1 && one_way == 0
    }

    fn is_commutative(&self, a: u8, b: u8, c: u8) -> bool
        ensures { result ≡ is_commutative self.now a b c }
    {
        self.channel(a, b, c) == self.channel(b, a, c)
    }

    fn is_associative(&self, a: u8, b: u8, c: u8, d: u8) -> bool
        ensures { result ≡ is_associative self.now a b c d }
    {
        let left = count_labels(
            self.labels(),
            |e| self.channel(a, b, e) && self.channel(e, c, d),
        );
        let right = count_labels(
            self.labels(),
            |f| self.channel(b, c, f) && self.channel(a, f, d),
        );
        left == right
    }

    /// The least label that has no dual.
    pub fn least_without_dual(&self, alloc: Global) -> Result<Option<u8>, AllocError>
        ensures { IfOk result (λ o. IsLeastFault Before1 (all_singles self.now.labels) (has_dual self.now) o) }
    {
        let all = all_singles(alloc, self.labels())?;
        Ok(first_fault(&all, |a| self.has_dual(a)))
    }

    /// The least labels at which the product is not commutative.
    pub fn least_not_commutative(&self, alloc: Global) -> Result<Option<(u8, u8, u8)>, AllocError>
        ensures { IfOk result (λ o. IsLeastFault Before3 (all_triples self.now.labels) (λ t. is_commutative self.now t.0 t.1 t.2) o) }
    {
        let all = all_triples(alloc, self.labels())?;
        Ok(first_fault(&all, |(a, b, c)| self.is_commutative(a, b, c)))
    }

    /// The least labels at which the product is not associative.
    pub fn least_not_associative(
        &self,
        alloc: Global,
    ) -> Result<Option<(u8, u8, u8, u8)>, AllocError>
        ensures { IfOk result (λ o. IsLeastFault Before4 (all_fours self.now.labels) (λ t. is_associative self.now t.0 t.1 t.2 t.3) o) }
    {
        let all = all_fours(alloc, self.labels())?;
        Ok(first_fault(&all, |(a, b, c, d)| self.is_associative(a, b, c, d)))
    }
}
