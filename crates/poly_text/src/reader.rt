//! The reader.

ghost use Rattle.std.specs.Prelude.{◌≡◌, IfOk, MatchResult, map};
ghost use Rattle.sparse_poly.specs.Contributions.{IsPoly};
ghost use Rattle.poly_text.specs.Raw.{raw};
ghost use Rattle.poly_text.specs.Reading.{IsSpelling, IsTextFault};

use crate::form::Stop;
use crate::raw::{RawTerm, read_terms};
use monomial::Monomial;
use sparse_poly::{Poly, PolyFault, Term};
use std::alloc::{AllocError, AllocFailed, Global};
use thiserror::Error;

/// Why a text spells no polynomial: the first of these, in their order.
#[derive(Clone, Copy, Debug, Drop, PartialEq, Error)]
pub enum PolyTextFault {
    /// The text has not the form, in which numbers may be of any size and terms and factors in any
    /// order. No text of the form begins with the first `at + 1` bytes, but one begins with the first
    /// `at`; where the text only ended early, `at` is its length.
    #[error("Syntax")]
    Syntax { at: u64 },
    /// The first number out of range starts at `at`: a variable is below the number of unknowns, an
    /// exponent that is written is 2 to 65,535, and a coefficient is at most `2^127-1`.
    #[error("Number")]
    Number { at: u64 },
    /// The first term, its sign included, whose monomial is not below the one before starts at `at`, or
    /// the first factor whose variable is not below the one before, whichever stands first.
    #[error("Order")]
    Order { at: u64 },
    /// An allocation failed.
    #[error("OutOfMemory")]
    OutOfMemory,
}

impl From<AllocError> for PolyTextFault {
    ghost use Rattle.std.specs.Prelude.{◌≡◌};
    ghost use Rattle.poly_text.specs.declared.reader.PolyTextFault.TheVariants.{OutOfMemory};

    ghost from_gives = { λ _ e. e ≡ OutOfMemory };

    fn from(_: AllocError) -> PolyTextFault {
        PolyTextFault::OutOfMemory
    }
}

/// The polynomial of terms in order.
fn poly_of(alloc: Global, terms: &[RawTerm]) -> Result<Poly, AllocError>
    requires { IsPoly (map raw terms.now) }
    ensures { IfOk result (λ p. p ≡ map raw terms.now) }
{
    let mut list = Vec::new(alloc);
    for term in terms {
        list.push(Term {
            monomial: Monomial::from_powers(alloc, &term.powers)?,
            coeff: term.coeff,
        })?;
    }
    match Poly::from_terms(alloc, list) {
        Ok(poly) => Ok(poly),
        Err(fault) => match fault {
            PolyFault::OutOfMemory => Err(AllocError),
            _ => unreachable!(),
        },
    }
}

/// Reads the one spelling of a polynomial whose variables are below `unknowns`. Where there is memory,
/// the answer is the one that the text has (`answer_law`).
pub fn read_poly(alloc: Global, text: &[u8], unknowns: u32) -> Result<Poly, PolyTextFault>
    ensures { MatchResult result (IsSpelling unknowns text.now) (IsTextFault unknowns text.now) }
{
    let reading = match read_terms(alloc, unknowns, text) {
        Ok(reading) => reading,
        Err(Stop::Syntax { left }) => {
            return Err(PolyTextFault::Syntax {
                at: (text.len() - left) as u64,
            });
        }
        Err(Stop::OutOfMemory) => return Err(PolyTextFault::OutOfMemory),
    };
    if let Some(left) = reading.number_fault {
        return Err(PolyTextFault::Number {
            at: (text.len() - left) as u64,
        });
    }
    if let Some(left) = reading.disorder {
        return Err(PolyTextFault::Order {
            at: (text.len() - left) as u64,
        });
    }
    let poly = poly_of(alloc, &reading.terms)?;
    Ok(poly)
}
