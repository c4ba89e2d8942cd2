//! Files of problems, and the roots of problems.
use poly_text::{read_poly, write_poly};
use ring_file::{Problem, read_problem};
use root_system::{Root, RootFault};
use sparse_poly::Poly;
use std::alloc::Global;
use std::cmp::Ordering;
use table_tests::{Fault, both, number, push, push_poly};

/// The gauge of the problem of a file, whose text stands between quotes, or the fault.
pub fn problem(alloc: Global, question: &str) -> Result<Vec<u8>, Fault> {
    let quoted = question
        .strip_prefix("'")
        .and_then(|rest| rest.strip_suffix("'"));
    let Some(file) = quoted else {
        return Err(Fault::Form);
    };
    let answer = match read_problem(alloc, file.as_bytes()) {
        Ok(problem) => format!(in alloc; "{} {:?}", problem.ring().labels(), problem.gauge())?,
        Err(fault) => format!(in alloc; "{fault:?}")?,
    };
    let mut text = Vec::new(alloc);
    push(answer.as_str(), &mut text)?;
    Ok(text)
}

fn read(alloc: Global, file: &str) -> Result<Problem, Fault> {
    match read_problem(alloc, file.as_bytes()) {
        Ok(problem) => Ok(problem),
        Err(_) => Err(Fault::Form),
    }
}

/// How many unknowns and equations a problem has, or the fault. The text of each equation is read as that equation.
pub fn root(alloc: Global, question: &str) -> Result<Vec<u8>, Fault> {
    let problem = read(alloc, question)?;
    let mut text = Vec::new(alloc);
    match Root::new(alloc, &problem) {
        Ok(root) => push_counts(alloc, &root, &mut text)?,
        Err(fault) => push_root_fault(alloc, fault, &mut text)?,
    }
    Ok(text)
}

fn push_counts(alloc: Global, root: &Root, into: &mut Vec<u8>) -> Result<(), Fault> {
    for equation in root.equations() {
        if !is_read_back(alloc, root.unknowns(), equation)? {
            return Err(Fault::Form);
        }
    }
    let unknowns = root.unknowns();
    let equations = root.equations().len();
    push(format!(in alloc; "{unknowns} {equations}")?.as_str(), into)
}

// Whether a polynomial's text is read as the same polynomial.
fn is_read_back(alloc: Global, unknowns: u32, equation: &Poly) -> Result<bool, Fault> {
    let mut text = Vec::new(alloc);
    write_poly(equation, &mut text)?;
    match read_poly(alloc, &text, unknowns) {
        Ok(read) => Ok(matches!(equation.order(&read), Ordering::Equal)),
        Err(_) => Ok(false),
    }
}

fn push_root_fault(alloc: Global, fault: RootFault, into: &mut Vec<u8>) -> Result<(), Fault> {
    push(format!(in alloc; "{fault:?}")?.as_str(), into)
}

/// The equations of a problem with a limit of their number, or the fault.
pub fn with_limit(alloc: Global, question: &str) -> Result<Vec<u8>, Fault> {
    let (limit, file) = both(question)?;
    let problem = read(alloc, file)?;
    let limit = u64::from(number(limit)?).min(65_536);
    let mut text = Vec::new(alloc);
    match Root::with_limit(alloc, &problem, limit) {
        Ok(root) => push_equations(root.equations(), &mut text)?,
        Err(fault) => push_root_fault(alloc, fault, &mut text)?,
    }
    Ok(text)
}

fn push_equations(equations: &[Poly], into: &mut Vec<u8>) -> Result<(), Fault> {
    for equation in equations {
        push_poly(equation, into)?;
        push(" ", into)?;
    }
    Ok(())
}
