//! How monomials are stored.
use crate::layout::Layout;
use crate::reading::PowersLeft;

/// A monomial as it is stored. The same monomial may be stored in either way, so only the speed may depend on which it is.
#[derive(Drop)]
pub enum Form<'a> {
    /// One word, in which the exponents stand in the places of a layout's variables.
    Word { layout: &'a Layout, word: u128 },
    /// The powers, to be read from the greatest variable down.
    Powers(PowersLeft<'a>),
}
