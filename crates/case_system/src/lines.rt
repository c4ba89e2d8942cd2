//! The lines of a case.
ghost use Rattle.std.specs.Prelude.{◌≡◌, ◌≤◌, ◌+◌, ◌-◌, [], ◌∷◌, ◌++◌, IfOk, OnOk, OnErr, MatchResult, length, take};
ghost use Rattle.case_system.specs.CaseLines.{all_lines};
ghost use Rattle.case_system.specs.Appending.{Grows};

use derive_lines::Line;
use std::alloc::{AllocError, Global};
use std::marker::Model;
use std::mem;
use std::sync::Arc;

// The most lines that may be shared, so that numbers of lines are in range.
const MAX_SHARED: usize = usize::MAX / 2;

/// Equal lines. It fails only where no memory is left.
pub fn copied_lines(alloc: Global, lines: &[Line]) -> Result<Vec<Line>, AllocError>
    ensures { IfOk result (λ v. v.items ≡ lines.now) }
{
    let mut copies = Vec::with_capacity(alloc, lines.len())?;
    push_copies(lines, &mut copies)?;
    Ok(copies)
}

// Lines that cases share.
#[derive(Drop)]
struct Segment {
    lines: Arc<Vec<Line>, Global>,
}

impl Model for Segment {
    ghost use Rattle.std.specs.Prelude.{List};
    ghost use Rattle.std.specs.Arc.{arc_value};
    ghost use Rattle.derive_lines.specs.declared.parts.Line.{Line};

    ghost Value = { List Line };

    ghost view = { λ s. (arc_value s.lines).items };
}

impl Segment {
    // Lines as a segment. Where no memory is left they are handed back.
    fn of(alloc: Global, lines: Vec<Line>) -> Result<Segment, Vec<Line>>
        ensures { MatchResult result (λ s. s ≡ lines.items) (λ v. v ≡ lines) }
    {
        match Arc::new(alloc, lines) {
            Ok(lines) => Ok(Segment { lines }),
            Err(failed) => Err(failed.value),
        }
    }

    // The same lines once more.
    fn another(&self) -> Result<Segment, AllocError>
        ensures { IfOk result (λ s. s ≡ self.now) }
    {
        Ok(Segment {
            lines: Arc::try_clone(&self.lines)?,
        })
    }

    fn as_slice(&self) -> &[Line]
        ensures { result.now ≡ self.now }
    {
        let lines: &Vec<Line> = &self.lines;
        lines.as_slice()
    }
}

/// The lines of a case, seen as those that it shares with other cases and those that are its own, each the oldest first.
#[derive(Drop)]
pub struct CaseLines {
    segments: Vec<Segment>,
    before: usize,
    own: Vec<Line>,
}

impl Model for CaseLines {
    ghost use Rattle.case_system.specs.CaseLines.{LinesState, joined, IsCounted};

    ghost Value = { LinesState };

    ghost view = { λ l. record { shared = joined l.segments.items; own = l.own.items } };

    ghost invariant = { λ l. IsCounted l.before (joined l.segments.items) };
}

impl CaseLines {
    /// No lines.
    pub fn new(alloc: Global) -> CaseLines
        ensures { result ≡ record { shared = []; own = [] } }
    {
        CaseLines {
            segments: Vec::new(alloc),
            before: 0,
            own: Vec::new(alloc),
        }
    }

    /// Where its memory comes from.
    pub fn allocator(&self) -> Global {
        *self.own.allocator()
    }

    /// How many there are.
    pub fn len(&self) -> usize
        ensures { result ≡ length (all_lines self.now) }
    {
        self.before + self.own.len()
    }

    /// Appends a line. It fails only where no memory is left.
    pub fn push(&mut self, line: Line) -> Result<(), AllocError>
        ensures grows { Grows self.old self.new }
        ensures pushed { OnOk result (all_lines self.new ≡ all_lines self.old ++ line ∷ []) }
        ensures unchanged { OnErr result (self.new ≡ self.old) }
    {
        self.own.push(line)?;
        Ok(())
    }

    /// Shares all lines, and leaves none that are its own. It fails only where no memory is left.
    pub fn share(&mut self) -> Result<(), AllocError>
        ensures same { all_lines self.new ≡ all_lines self.old }
        ensures shared { OnOk result (self.new.own ≡ []) }
    {
        if self.own.is_empty() {
            return Ok(());
        }
        let alloc = *self.own.allocator();
        self.segments.reserve(1)?;
        let count = self.own.len();
        if count > MAX_SHARED - self.before {
            return Err(AllocError);
        }
        match Segment::of(alloc, mem::replace(&mut self.own, Vec::new(alloc))) {
            Ok(segment) => {
                self.segments.push_reserved(segment);
                self.before += count;
                Ok(())
            }
            Err(own) => {
                self.own = own;
                Err(AllocError)
            }
        }
    }

    /// An equal list, of which the shared part takes no copies. It fails only where no memory is left.
    pub fn copy(&self) -> Result<CaseLines, AllocError>
        ensures { IfOk result (λ l. l ≡ self.now) }
    {
        let alloc = *self.own.allocator();
        let mut segments = Vec::with_capacity(alloc, self.segments.len())?;
        for segment in &self.segments {
            segments.push(segment.another()?)?;
        }
        Ok(CaseLines {
            segments,
            before: self.before,
            own: copied_lines(alloc, &self.own)?,
        })
    }

    /// Takes away the lines from a place on, which are its own.
    pub fn truncate(&mut self, len: usize)
        requires { length self.old.shared ≤ len }
        ensures shared { self.new.shared ≡ self.old.shared }
        ensures own { self.new.own ≡ take (len - length self.old.shared) self.old.own }
    {
        self.own.truncate(len - self.before);
    }

    /// Copies of all lines, the oldest first. It fails only where no memory is left.
    pub fn copies(&self, alloc: Global) -> Result<Vec<Line>, AllocError>
        ensures { IfOk result (λ v. v.items ≡ all_lines self.now) }
    {
        let mut copies = Vec::with_capacity(alloc, self.len())?;
        for segment in &self.segments {
            push_copies(segment.as_slice(), &mut copies)?;
        }
        push_copies(&self.own, &mut copies)?;
        Ok(copies)
    }
}

// Appends copies of lines.
fn push_copies(lines: &[Line], into: &mut Vec<Line>) -> Result<(), AllocError>
    ensures { OnOk result (into.new.items ≡ into.old.items ++ lines.now) }
{
    for line in lines {
        into.push(line.copy()?)?;
    }
    Ok(())
}
