//! The reader.
ghost use Rattle.std.specs.Prelude.{◌≡◌, ◌+◌, ◌<◌, ◌≤◌, ℕ, List, length, MatchOption, MatchResult};
ghost use Rattle.cert_lines.specs.Bytes.{Lacks, IsSplitAt};
ghost use Rattle.cert_text.specs.Numbers.{max_number};
ghost use Rattle.cert_text.specs.Text.{IsText};
ghost use Rattle.cert_read.specs.Faults.{IsCertFault};
ghost use Rattle.cert_read.specs.Machine.{unknowns};
ghost use Rattle.cert_read.specs.Seen.{seen};
ghost use Rattle.cert_read.specs.Progress.{IsReadTo, IsNextLine, IsWrongLine, fault_at};

use crate::machine::{Kept, may, next, unknowns};
use cert_lines::{LineFault, behind, kind_by_word, read_sentence, split_field};
use leaf_cert::Certificate;
use memchr::memchr;
use std::alloc::{AllocError, Global};

/// Why bytes are not the text of a certificate.
///
/// A line is ended where its LF is there. Line k, counted from 1, is right where the first k lines with their LFs are a prefix of some
/// certificate's text, in version 1 or in version 2.
#[derive(Clone, Copy, Debug, Drop, PartialEq, Eq)]
pub enum CertFault {
    /// Every ended line is right, and no `done` line is among them.
    Truncated,
    /// Line `line` is ended, and the first that is not right. It has the form of a line that may stand there, in which numbers are of any size
    /// and the terms and factors of a polynomial in any order, and at least one of its numbers is out of range. In version 2 a `use` may stand
    /// where lines of a derivation stand, also if the table has no further line.
    Number { line: u64 },
    /// Line `line` is the first ended line that is not right, and is no such line; or every ended line is right, the last is a `done` line, and
    /// `line` is the number of the piece behind it.
    Syntax { line: u64 },
    /// No memory was left.
    OutOfMemory,
}

impl From<AllocError> for CertFault {
    ghost use Rattle.std.specs.Prelude.{◌≡◌};
    ghost use Rattle.cert_read.specs.declared.reader.CertFault.TheVariants.{OutOfMemory};

    ghost from_gives = { λ _ e. e ≡ OutOfMemory };

    fn from(_: AllocError) -> CertFault {
        CertFault::OutOfMemory
    }
}

/// Reads the text of a certificate, in version 1 or in version 2. Each refusal comes exactly where `CertFault` says, `OutOfMemory` where no memory is left.
pub fn read_certificate(alloc: Global, text: &[u8]) -> Result<Certificate, CertFault>
    ensures { MatchResult result (IsText text.now) (IsCertFault text.now) }
{
    let mut kept = Kept::Start;
    let mut rest = text;
    let mut count = 0u64;
    'lines: while let Some((line, after)) = split_line(rest) {
        count += 1;
        kept = match read_line(alloc, kept, line) {
            Ok(kept) => kept,
            Err(fault) => return Err(fault_at(count, fault)),
        };
        rest = after;
    }
    finish(kept, rest, count)
}

// The first line of a text without its LF, and what is behind it, or `None` where no LF is left.
fn split_line(text: &[u8]) -> Option<(&[u8], &[u8])>
    ensures { MatchOption result (Lacks 10 text.now) (λ r. IsSplitAt 10 text.now r.0.now r.1.now) }
{
    match memchr(b'\n', text) {
        None => None,
        Some(i) => Some((&text[..i], behind(text, i + 1))),
    }
}

// The state behind one line more, or why no such line can come next.
fn read_line(alloc: Global, kept: Kept, line: &[u8]) -> Result<Kept, LineFault>
    requires { unknowns (seen kept) ≤ 4096 }
    ensures { MatchResult result (λ new. IsNextLine (seen kept) line.now (seen new)) (IsWrongLine (seen kept) line.now) }
{
    let (word, _) = split_field(line);
    let Some(kind) = kind_by_word(word) else {
        return Err(LineFault::Syntax);
    };
    if !may(&kept, kind) {
        return Err(LineFault::Syntax);
    }
    let said = read_sentence(alloc, unknowns(&kept), kind, line)?;
    match next(alloc, kept, said)? {
        Some(kept) => Ok(kept),
        None => Err(LineFault::Syntax),
    }
}

// The fault of a text whose line of this number is wrong.
fn fault_at(line: u64, fault: LineFault) -> CertFault
    ensures { result ≡ fault_at line fault }
{
    match fault {
        LineFault::Number => CertFault::Number { line },
        LineFault::Syntax => CertFault::Syntax { line },
        LineFault::OutOfMemory => CertFault::OutOfMemory,
    }
}

// What a text is that has been read up to a piece without LF, behind so many lines.
fn finish(kept: Kept, rest: &[u8], count: u64) -> Result<Certificate, CertFault>
    requires { count < 18_446_744_073_709_551_615 }
    ensures { (text : List ℕ) → IsReadTo text rest.now count (seen kept) → length text + 8 < max_number → Lacks 10 rest.now → MatchResult result (IsText text) (IsCertFault text) }
{
    let Kept::Whole { certificate, .. } = kept else {
        return Err(CertFault::Truncated);
    };
    if !rest.is_empty() {
        return Err(CertFault::Syntax { line: count + 1 });
    }
    Ok(certificate)
}
