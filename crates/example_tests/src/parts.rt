//! Parts of derivations, refutations and leaves as texts, a part in each line.
use crate::texts::poly;
use derive_lines::{Decision, Item, Line, Way};
use leaf_cert::{LeafEnd, OpenCause, StepKind, Stop};
use sparse_poly::Poly;
use std::alloc::Global;
use table_tests::{Fault, number, push, push_poly};

/// Root equations, decisions, lines, equations and ends, as far as a text names them.
#[derive(Drop)]
pub struct Parts {
    pub root: Vec<Poly>,
    pub decisions: Vec<Decision>,
    pub lines: Vec<Line>,
    pub equations: Vec<Poly>,
    pub end: Item,
    pub leaf_end: LeafEnd,
}

impl Parts {
    /// The parts that a text names, with this between two of them. Where it names no end, a refutation ends with the first root equation, and a
    /// leaf is open by its budget.
    pub fn read(alloc: Global, text: &str, between: &str) -> Result<Parts, Fault> {
        let mut parts = Parts {
            root: Vec::new(alloc),
            decisions: Vec::new(alloc),
            lines: Vec::new(alloc),
            equations: Vec::new(alloc),
            end: Item::Root(0),
            leaf_end: LeafEnd::Open(OpenCause::Budget),
        };
        for part in text.split(between) {
            let words: Vec<&str> = part.split_whitespace().collect(alloc)?;
            parts.add(alloc, &words)?;
        }
        Ok(parts)
    }

    fn add(&mut self, alloc: Global, words: &[&str]) -> Result<(), Fault> {
        match *words {
            ["root", p] => self.root.push(poly(alloc, p)?)?,
            ["zero", p] => self.decisions.push(decision(alloc, p, true)?)?,
            ["nonzero", p] => self.decisions.push(decision(alloc, p, false)?)?,
            ["fwd", from, by, l, a, m, made] => {
                let line = line(alloc, Way::Fwd, from, by, [l, a, m, made])?;
                self.lines.push(line)?;
            }
            ["back", from, by, l, a, m, made] => {
                let line = line(alloc, Way::Back, from, by, [l, a, m, made])?;
                self.lines.push(line)?;
            }
            ["eq", p] => self.equations.push(poly(alloc, p)?)?,
            ["end", name] => self.end = item(name)?,
            ["triangular"] => self.leaf_end = LeafEnd::Triangular,
            ["degree", step, v, q, p] => {
                let stop = stop(alloc, step, v, q, p)?;
                self.leaf_end = LeafEnd::Open(OpenCause::Degree(stop));
            }
            ["coefficient", step, v, q, p] => {
                let stop = stop(alloc, step, v, q, p)?;
                self.leaf_end = LeafEnd::Open(OpenCause::Coefficient(stop));
            }
            _ => return Err(Fault::Form),
        }
        Ok(())
    }
}

fn decision(alloc: Global, text: &str, zero: bool) -> Result<Decision, Fault> {
    Ok(Decision {
        poly: poly(alloc, text)?,
        zero,
    })
}

fn line(alloc: Global, way: Way, from: &str, by: &str, polys: [&str; 4]) -> Result<Line, Fault> {
    let [l, a, m, made] = polys;
    Ok(Line {
        way,
        from: reference(from)?,
        by: reference(by)?,
        l: poly(alloc, l)?,
        a: poly(alloc, a)?,
        m: poly(alloc, m)?,
        made: poly(alloc, made)?,
    })
}

fn reference(text: &str) -> Result<Option<Item>, Fault> {
    if text == "-" {
        return Ok(None);
    }
    Ok(Some(item(text)?))
}

fn item(text: &str) -> Result<Item, Fault> {
    if let Some(place) = text.strip_prefix('r') {
        return Ok(Item::Root(u64::from(number(place)?)));
    }
    if let Some(place) = text.strip_prefix('d') {
        return Ok(Item::Decision(u64::from(number(place)?)));
    }
    match text.strip_prefix('l') {
        Some(place) => Ok(Item::Line(u64::from(number(place)?))),
        None => Err(Fault::Form),
    }
}

fn stop(alloc: Global, step: &str, v: &str, q: &str, p: &str) -> Result<Stop, Fault> {
    let step = match step {
        "reduce" => StepKind::Reduce,
        "tail" => StepKind::Tail,
        _ => return Err(Fault::Form),
    };
    Ok(Stop {
        step,
        v: number(v)?,
        q: poly(alloc, q)?,
        p: poly(alloc, p)?,
    })
}

/// Appends decisions, a line each.
pub fn push_decisions(decisions: &[Decision], into: &mut Vec<u8>) -> Result<(), Fault> {
    for decision in decisions {
        push(if decision.zero { "zero " } else { "nonzero " }, into)?;
        push_poly(&decision.poly, into)?;
        push("\n", into)?;
    }
    Ok(())
}

/// Appends lines.
pub fn push_lines(alloc: Global, lines: &[Line], into: &mut Vec<u8>) -> Result<(), Fault> {
    for line in lines {
        push_line(alloc, line, into)?;
    }
    Ok(())
}

fn push_line(alloc: Global, line: &Line, into: &mut Vec<u8>) -> Result<(), Fault> {
    let way = match line.way {
        Way::Fwd => "fwd ",
        Way::Back => "back ",
    };
    push(way, into)?;
    push_reference(alloc, line.from, into)?;
    push(" ", into)?;
    push_reference(alloc, line.by, into)?;
    for poly in [&line.l, &line.a, &line.m, &line.made] {
        push(" ", into)?;
        push_poly(poly, into)?;
    }
    push("\n", into)
}

/// Appends an item, or `-` for none.
pub fn push_reference(alloc: Global, item: Option<Item>, into: &mut Vec<u8>) -> Result<(), Fault> {
    let name = match item {
        None => String::from_str(alloc, "-")?,
        Some(Item::Root(i)) => format!(in alloc; "r{i}")?,
        Some(Item::Decision(j)) => format!(in alloc; "d{j}")?,
        Some(Item::Line(k)) => format!(in alloc; "l{k}")?,
    };
    push(name.as_str(), into)
}
