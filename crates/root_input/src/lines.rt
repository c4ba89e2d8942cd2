//! The lines that tell what is wrong with a problem, the same in the solver and in the checker.

ghost use Rattle.std.specs.Prelude.{◌≡◌, string_bytes, IfOk};
ghost use Rattle.root_input.specs.Lines.{problem_text, place_text, ring_text};

use fusion_ring::RingFault;
use ring_file::{Place, ProblemFault};
use std::alloc::{AllocError, Global};

/// The line of a problem's fault, without an end of line.
pub fn problem_line(alloc: Global, fault: &ProblemFault) -> Result<String, AllocError>
    ensures { IfOk result (λ s. string_bytes s ≡ problem_text fault.now) }
{
    match fault {
        ProblemFault::NotJson => String::from_str(alloc, "problem not json"),
        ProblemFault::Shape(place) => place_line(alloc, place),
        ProblemFault::Ring(ring) => ring_line(alloc, ring),
        ProblemFault::GaugeNumber { entry } => format!(in alloc; "problem gauge number {entry}"),
        ProblemFault::GaugeSymbol { entry } => format!(in alloc; "problem gauge symbol {entry}"),
        ProblemFault::OutOfMemory => String::from_str(alloc, "out of memory"),
    }
}

fn place_line(alloc: Global, place: &Place) -> Result<String, AllocError>
    ensures { IfOk result (λ s. string_bytes s ≡ place_text place.now) }
{
    match place {
        Place::Top => String::from_str(alloc, "problem shape top"),
        Place::Labels => String::from_str(alloc, "problem shape labels"),
        Place::Products => String::from_str(alloc, "problem shape products"),
        Place::Product(index) => format!(in alloc; "problem shape product {index}"),
        Place::Gauge => String::from_str(alloc, "problem shape gauge"),
        Place::GaugeEntry(index) => format!(in alloc; "problem shape gauge entry {index}"),
        Place::Name => String::from_str(alloc, "problem shape name"),
        Place::Member => String::from_str(alloc, "problem shape member"),
    }
}

fn ring_line(alloc: Global, fault: &RingFault) -> Result<String, AllocError>
    ensures { IfOk result (λ s. string_bytes s ≡ ring_text fault.now) }
{
    match fault {
        RingFault::LabelCount { labels } => format!(in alloc; "problem ring label count {labels}"),
        RingFault::LabelRange { index } => format!(in alloc; "problem ring label range {index}"),
        RingFault::Multiplicity { a, b, c } => format!(in alloc;
            "problem ring multiplicity {a} {b} {c}"
        ),
        RingFault::UnitFault { a, b, c } => format!(in alloc; "problem ring unit {a} {b} {c}"),
        RingFault::DualFault { a } => format!(in alloc; "problem ring dual {a}"),
        RingFault::NotCommutative { a, b, c } => format!(in alloc;
            "problem ring not commutative {a} {b} {c}"
        ),
        RingFault::NotAssociative { a, b, c, d } => {
            format!(in alloc; "problem ring not associative {a} {b} {c} {d}")
        }
        RingFault::OutOfMemory => String::from_str(alloc, "out of memory"),
    }
}
