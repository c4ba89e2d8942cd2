//! The text of a polynomial, as `x2^2*x0-x0^2`, `-x0`, `2*x0-1` or `0`.
//!
//! Zero is `0`. Any other polynomial is its terms from the greatest to the least, each but the first
//! with its sign, the first with `-` or nothing. A term is its coefficient, its monomial, or both
//! joined by `*`: the coefficient 1 or -1 of a monomial other than 1 is not written. A monomial is its
//! factors from the greatest variable down, joined by `*`. A factor is `x` and the variable's number,
//! and where the exponent is 2 or more, `^` and the exponent. Numbers have no leading zeros.
#![tactic(auto)]

mod factors;
mod form;
mod laws;
mod numbers;
mod order;
mod raw;
mod reader;
mod writer;

pub use laws::{answer_law, spelling_law, text_law};
pub use reader::{PolyTextFault, read_poly};
pub use writer::write_poly;
