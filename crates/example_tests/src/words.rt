//! Monomials that are stored as words.
use crate::texts::{monomial, push_monomial};
use monomial::{Form, Layout, Monomial};
use std::alloc::Global;
use table_tests::{Fault, both, push};

// In the layout of the variables 9 to 2: the word of a monomial, and the monomial of a word. In that of 65535 and 9 to 3: how a monomial is
// stored once it is laid out, and what it is then.
fn layout(variables: [u32; 8]) -> Result<Layout, Fault> {
    match Layout::new(&variables) {
        Some(layout) => Ok(layout),
        None => Err(Fault::Form),
    }
}

fn push_word(alloc: Global, text: &str, into: &mut Vec<u8>) -> Result<(), Fault> {
    let layout = layout([9, 8, 7, 6, 5, 4, 3, 2])?;
    let word = monomial(alloc, text)?.word_in(&layout);
    push(format!(in alloc; "{word:?}")?.as_str(), into)
}

fn push_form(alloc: Global, monomial: &Monomial, into: &mut Vec<u8>) -> Result<(), Fault> {
    match monomial.form() {
        Form::Word { .. } => push("word ", into)?,
        Form::Powers(_) => push("powers ", into)?,
    }
    push_monomial(alloc, monomial, into)
}

// The monomial of a word, once its powers are stored one by one.
fn push_read(alloc: Global, text: &str, into: &mut Vec<u8>) -> Result<(), Fault> {
    let layout = layout([9, 8, 7, 6, 5, 4, 3, 2])?;
    let Ok(word) = text.parse::<u128>() else {
        return Err(Fault::Form);
    };
    let laid = Monomial::of_word(alloc, &layout, word);
    let _form = laid.form();
    push_form(alloc, &Monomial::of_powers(alloc, laid.powers())?, into)
}

// A monomial that is stored as a word, where it fits.
fn push_laid(alloc: Global, text: &str, into: &mut Vec<u8>) -> Result<(), Fault> {
    let layout = layout([65535, 9, 8, 7, 6, 5, 4, 3])?;
    let monomial = monomial(alloc, text)?;
    match monomial.word_in(&layout) {
        Some(word) => push_form(alloc, &Monomial::of_word(alloc, &layout, word), into),
        None => push_form(alloc, &monomial, into),
    }
}

/// The answer to a question of the table.
pub fn answer(alloc: Global, question: &str) -> Result<Vec<u8>, Fault> {
    let (operation, operand) = both(question)?;
    let mut text = Vec::new(alloc);
    if operation == "word" {
        push_word(alloc, operand, &mut text)?;
    } else if operation == "read" {
        push_read(alloc, operand, &mut text)?;
    } else {
        push_laid(alloc, operand, &mut text)?;
    }
    Ok(text)
}
