//! Steps, remainders, triangular lists and units. A question is what is asked, the polynomials that it is asked of, the variable, and the units, with
//! ` | ` between.
use crate::texts::{poly, polys, push_fault};
use char_set::{have_main_variables, is_triangular};
use pseudo_rem::{Reduction, Step, reduce_once, remainder, tail_step};
use std::alloc::Global;
use table_tests::{Fault, number, push, push_poly};

// A question.
#[derive(Clone, Copy)]
struct Question<'a> {
    first: &'a str,
    second: &'a str,
    var: &'a str,
    units: &'a str,
}

/// The answer to a question.
pub fn answer(alloc: Global, question: &str) -> Result<Vec<u8>, Fault> {
    let columns: Vec<&str> = question.split(" | ").collect(alloc)?;
    let [kind, first, second, var, units] = columns.as_slice() else {
        return Err(Fault::Form);
    };
    let asked = Question {
        first,
        second,
        var,
        units,
    };
    match *kind {
        "reduce" => reduced(alloc, &asked),
        "tail" => tail(alloc, &asked),
        "remainder" => remains(alloc, &asked),
        "triangular" => triangular(alloc, &asked),
        _ => Err(Fault::Form),
    }
}

fn reduced(alloc: Global, asked: &Question) -> Result<Vec<u8>, Fault> {
    let q = poly(alloc, asked.first)?;
    let p = poly(alloc, asked.second)?;
    let units = polys(alloc, asked.units)?;
    let var = number(asked.var)?;
    let lower = p.degree_in(var);
    if lower < 1 {
        return Err(Fault::Form);
    }
    if q.degree_in(var) < lower {
        return Err(Fault::Form);
    }
    let mut text = Vec::new(alloc);
    match reduce_once(alloc, &q, &p, var, &units) {
        Ok(step) => push_step(&step, &mut text)?,
        Err(fault) => push_fault(alloc, fault, &mut text)?,
    }
    Ok(text)
}

fn tail(alloc: Global, asked: &Question) -> Result<Vec<u8>, Fault> {
    let q = poly(alloc, asked.first)?;
    let units = polys(alloc, asked.units)?;
    let Some(var) = q.main() else {
        return Err(Fault::Form);
    };
    let initial = q.coefficient_in(var, q.degree_in(var))?;
    let cleared = initial.clear(&units)?;
    let mut text = Vec::new(alloc);
    match tail_step(alloc, &q, var, &cleared.factor, &cleared.rest, &units) {
        Ok(step) => push_step(&step, &mut text)?,
        Err(fault) => push_fault(alloc, fault, &mut text)?,
    }
    Ok(text)
}

fn remains(alloc: Global, asked: &Question) -> Result<Vec<u8>, Fault> {
    let n = poly(alloc, asked.first)?;
    let list = polys(alloc, asked.second)?;
    let units = polys(alloc, asked.units)?;
    if !have_main_variables(&list) {
        return Err(Fault::Form);
    }
    let mut text = Vec::new(alloc);
    match remainder(alloc, &n, &list, &units) {
        Ok(steps) => push_steps(alloc, &steps, &mut text)?,
        Err(fault) => push_fault(alloc, fault, &mut text)?,
    }
    Ok(text)
}

fn triangular(alloc: Global, asked: &Question) -> Result<Vec<u8>, Fault> {
    let list = polys(alloc, asked.first)?;
    let units = polys(alloc, asked.units)?;
    let mut text = Vec::new(alloc);
    if is_triangular(&list, &units)? {
        push("true", &mut text)?;
    } else {
        push("false", &mut text)?;
    }
    Ok(text)
}

// The parts of a step.
fn push_step(step: &Reduction, into: &mut Vec<u8>) -> Result<(), Fault> {
    push_poly(&step.l, into)?;
    for part in [&step.a, &step.m, &step.r] {
        push(", ", into)?;
        push_poly(part, into)?;
    }
    Ok(())
}

// The places of the members and what is left.
fn push_steps(alloc: Global, steps: &[Step], into: &mut Vec<u8>) -> Result<(), Fault> {
    if steps.is_empty() {
        return push("none", into);
    }
    for step in steps {
        if !into.is_empty() {
            push(", ", into)?;
        }
        let place = step.by;
        push(format!(in alloc; "{place}:")?.as_str(), into)?;
        push_poly(&step.reduction.r, into)?;
    }
    Ok(())
}
