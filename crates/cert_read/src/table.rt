//! The table of the lines of derivations.
ghost use Rattle.std.specs.Prelude.{◌≡◌, ◌<◌, ◌^◌, ◌++◌, ◌∷◌, [], not, length, slice_get, option_copied, if◌then◌else◌, IfOk, IfSome};
ghost use Rattle.cert_text.specs.Tables.{stands_in};

use cert_text::LineKey;
use derive_lines::Line;
use indexmap::IndexSet;
use std::alloc::{AllocError, Global};
use std::marker::Model;

/// Different lines, in the order in which they were added.
#[derive(Drop)]
pub struct LineTable {
    lines: IndexSet<LineKey>,
}

impl Model for LineTable {
    ghost use Rattle.std.specs.Prelude.{List};
    ghost use Rattle.derive_lines.specs.declared.parts.Line.{Line};

    ghost Value = { List Line };

    ghost view = { λ t. t.lines.keys };
}

impl LineTable {
    /// No lines.
    pub(crate) fn new(alloc: Global) -> LineTable
        ensures { result ≡ [] }
    {
        LineTable {
            lines: IndexSet::new(alloc),
        }
    }

    /// How many lines there are.
    pub(crate) fn len(&self) -> u64
        ensures { result ≡ length self.now }
    {
        self.lines.len() as u64
    }

    /// Adds a line that is not there, and answers whether it was not.
    pub(crate) fn push(&mut self, line: Line) -> Result<bool, AllocError>
        ensures new { IfOk result (λ b. b ≡ not (stands_in self.old line)) }
        ensures lines { IfOk result (λ b. self.new ≡ (if stands_in self.old line then self.old else self.old ++ line ∷ [])) }
    {
        let (_place, new) = self.lines.insert_full(LineKey::of(line))?;
        Ok(new)
    }

    /// The line at a place, from 0.
    pub(crate) fn line(&self, place: u64) -> Option<&Line>
        ensures line { option_copied result ≡ slice_get self.now place }
        ensures small { IfSome result (λ _. place < 2 ^ 63) }
    {
        let count = self.lines.len();
        if place >= count as u64 {
            return None;
        }
        let key = self.lines.get_index(place as usize)?;
        Some(key.line())
    }
}
