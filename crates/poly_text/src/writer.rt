//! The writer.

ghost use Rattle.std.specs.Prelude.{◌≡◌, ◌<◌, ◌++◌, OnOk, OnErr, decimal, codes, [], ◌==◌, if◌then◌else◌, drop, length};
ghost use Rattle.monomial.specs.Readings.{left_powers};
ghost use Rattle.poly_text.specs.Text.{factor_text, more_factors, body_text, sign_text, term_text, more_terms, poly_text};

use itoa::{Buffer, Integer};
use monomial::{Monomial, PowersLeft};
use sparse_poly::{Poly, Term};
use std::alloc::AllocError;

fn push_text(text: &[u8], into: &mut Vec<u8>) -> Result<(), AllocError>
    ensures { OnOk result (into.new.items ≡ into.old.items ++ text.now) }
{
    into.extend_from_slice(text)?;
    Ok(())
}

fn push_number<I: Integer>(n: I, into: &mut Vec<u8>) -> Result<(), AllocError>
    ensures { OnOk result (into.new.items ≡ into.old.items ++ I.text n) }
{
    let mut buffer = Buffer::new();
    push_text(buffer.format(n).as_bytes(), into)
}

fn push_factor(variable: u32, exponent: u16, into: &mut Vec<u8>) -> Result<(), AllocError>
    ensures { OnOk result (into.new.items ≡ into.old.items ++ factor_text (variable, exponent)) }
{
    push_text(b"x", into)?;
    push_number(variable, into)?;
    if exponent != 1 {
        push_text(b"^", into)?;
        push_number(exponent, into)?;
    }
    Ok(())
}

// The factors that are left, each behind its sign.
fn push_more_factors(powers: PowersLeft<'_>, into: &mut Vec<u8>) -> Result<(), AllocError>
    ensures { OnOk result (into.new.items ≡ into.old.items ++ more_factors (left_powers powers.entry)) }
{
    let mut powers = powers;
    'factors: while let Some((variable, exponent)) = powers.next() {
        push_text(b"*", into)?;
        push_factor(variable, exponent, into)?;
    }
    Ok(())
}

fn push_size(n: u128, into: &mut Vec<u8>) -> Result<(), AllocError>
    ensures { OnOk result (into.new.items ≡ into.old.items ++ (if n == 1 then [] else decimal n ++ codes "*")) }
{
    if n != 1 {
        push_number(n, into)?;
        push_text(b"*", into)?;
    }
    Ok(())
}

fn push_body(n: u128, monomial: &Monomial, into: &mut Vec<u8>) -> Result<(), AllocError>
    ensures { OnOk result (into.new.items ≡ into.old.items ++ body_text n monomial.now) }
{
    let mut powers = monomial.powers();
    let Some((variable, exponent)) = powers.next() else {
        return push_number(n, into);
    };
    push_size(n, into)?;
    push_factor(variable, exponent, into)?;
    push_more_factors(powers, into)
}

fn push_sign(plus: &[u8], coeff: i128, into: &mut Vec<u8>) -> Result<(), AllocError>
    ensures { OnOk result (into.new.items ≡ into.old.items ++ sign_text plus.now coeff) }
{
    if coeff < 0 {
        push_text(b"-", into)
    } else {
        push_text(plus, into)
    }
}

fn push_term(plus: &[u8], term: &Term, into: &mut Vec<u8>) -> Result<(), AllocError>
    ensures { OnOk result (into.new.items ≡ into.old.items ++ term_text plus.now term.now) }
{
    push_sign(plus, term.coeff, into)?;
    push_body(term.coeff.unsigned_abs(), &term.monomial, into)
}

fn push_more_terms(terms: &[Term], into: &mut Vec<u8>) -> Result<(), AllocError>
    ensures { OnOk result (into.new.items ≡ into.old.items ++ more_terms terms.now) }
{
    for term in terms {
        push_term(b"+", term, into)?;
    }
    Ok(())
}

fn push_poly(poly: &Poly, into: &mut Vec<u8>) -> Result<(), AllocError>
    ensures { OnOk result (into.new.items ≡ into.old.items ++ poly_text poly.now) }
{
    match poly.terms() {
        [] => push_text(b"0", into),
        [first, rest @ ..] => {
            push_term(b"", first, into)?;
            push_more_terms(rest, into)
        }
    }
}

/// Appends the text of a polynomial. After a refusal `into` holds what it held before.
pub fn write_poly(p: &Poly, into: &mut Vec<u8>) -> Result<(), AllocError>
    ensures text { OnOk result (into.new.items ≡ into.old.items ++ poly_text p.now) }
    ensures unchanged { OnErr result (into.new.items ≡ into.old.items) }
{
    let mut text = Vec::new(*into.allocator());
    push_poly(p, &mut text)?;
    into.extend_from_slice(&text)
}
