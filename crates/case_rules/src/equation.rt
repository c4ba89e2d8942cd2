//! An equation of a case.

use derive_lines::Item;
use sparse_poly::Poly;

/// An equation with the item that it is derived as.
#[derive(Drop)]
pub struct Equation {
    pub poly: Poly,
    pub item: Item,
}
