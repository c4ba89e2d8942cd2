//! What is wrong with the fields of a line.
ghost use Rattle.std.specs.Prelude.{◌≡◌};
ghost use Rattle.cert_lines.specs.LineReading.{nothing, IsJudged};

use cert_text::Sentence;
use std::alloc::AllocError;

/// Why a line says nothing.
#[derive(Clone, Copy, Debug, PartialEq, Eq)]
pub enum LineFault {
    /// It has the form of its kind, and a number is out of range.
    Number,
    /// It says nothing for another cause: a field is missing, is too much or has not its form, or a polynomial is not in its one spelling.
    Syntax,
    /// No memory was left.
    OutOfMemory,
}

impl From<AllocError> for LineFault {
    ghost use Rattle.std.specs.Prelude.{◌≡◌};
    ghost use Rattle.cert_lines.specs.declared.notes.LineFault.TheVariants.{OutOfMemory};

    ghost from_gives = { λ _ e. e ≡ OutOfMemory };

    fn from(_: AllocError) -> LineFault {
        LineFault::OutOfMemory
    }
}

/// What is wrong with the fields of a line so far. It is noted and does not stop the reading, since the worst fault of the line counts.
#[derive(Clone, Copy)]
pub struct Notes {
    /// A field has not its form.
    pub form: bool,
    /// A number is out of range.
    pub range: bool,
    /// A polynomial is not in its one spelling: its terms or factors are out of order.
    pub order: bool,
}

impl Notes {
    /// Nothing is wrong.
    pub(crate) fn none() -> Notes
        ensures { result ≡ nothing }
    {
        Notes {
            form: false,
            range: false,
            order: false,
        }
    }

    /// What a line says, or the worst fault of its fields.
    pub(crate) fn judge(self, said: Sentence) -> Result<Sentence, LineFault>
        ensures { IsJudged self said result }
    {
        if self.form {
            return Err(LineFault::Syntax);
        }
        if self.range {
            return Err(LineFault::Number);
        }
        if self.order {
            return Err(LineFault::Syntax);
        }
        Ok(said)
    }
}
