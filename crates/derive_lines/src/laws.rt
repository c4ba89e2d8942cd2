//! Laws of derivations, in every field of characteristic zero.
ghost use Rattle.std.specs.Prelude.{◌≡◌, ◌≢◌, ◌⊎◌};
ghost use Rattle.std.specs.declared.option.Option.TheVariants.{Some};
ghost use Rattle.field_laws.specs.Field.{AllElements};
ghost use Rattle.sparse_poly.specs.Polynomials.{eval};
ghost use Rattle.sparse_poly.specs.Units.{AllNonzero};
ghost use Rattle.derive_lines.specs.Lines.{conditions, item_poly, reduced, rest, AreGoodLines, IsBadLine, IsGoodLine, Refers};
ghost use Rattle.derive_lines.specs.Recovery.{AllRecovered, IsRecovered, IsLost};
ghost use Rattle.derive_lines.specs.Answers.{IsLineStop, IsBackStop};
ghost use Rattle.derive_lines.specs.Refuting.{Refutes, AllVanish, AllHold};
ghost use Rattle.derive_lines.specs.declared.parts.LineStop.TheVariants.{OutOfMemory};

use field_laws::CharZeroField;

/// A good line states `l*q = a*p + m*r` as values.
pub fn line_law<F: CharZeroField>()
    ensures { (s : _) (root ds before line : _) (from by : _) → AllElements F.field s → Refers root ds before line from by → IsGoodLine root ds before line → F.field.times (eval F.field s line.l) (eval F.field s (reduced line.way from line.made)) ≡ F.field.plus (F.field.times (eval F.field s line.a) (eval F.field s by)) (F.field.times (eval F.field s line.m) (eval F.field s (rest line.way from line.made))) }
{}

/// Where the root vanishes and the decisions hold, each item of good lines vanishes.
pub fn item_law<F: CharZeroField>()
    ensures { (s : _) (root ds ls : _) (item : _) (p : _) → AllElements F.field s → AreGoodLines root ds ls → AllVanish F.field s root → AllHold F.field s ds → item_poly root ds ls item ≡ Some p → eval F.field s p ≡ F.field.zero }
{}

/// Where the given polynomials vanish and no condition does, what is recovered from them vanishes.
pub fn back_law<F: CharZeroField>()
    ensures { (s : _) (root ds ls given : _) (n : _) (p : _) → AllElements F.field s → AreGoodLines root ds ls → AllVanish F.field s given → AllNonzero F.field s (conditions ds) → IsRecovered root ds ls given n p → eval F.field s p ≡ F.field.zero }
{}

/// Where a refutation is good, the root does not vanish where the decisions of its pattern hold.
pub fn refutation_law<F: CharZeroField>()
    ensures { (s : _) (root ds ls end : _) → AllElements F.field s → Refutes root ds ls end → AllVanish F.field s root → AllHold F.field s ds → ⊥ }
{}

/// A line has one answer, and so have all lines.
pub fn answer_law()
    ensures one_cause { (root ds ls line cause other : _) → IsBadLine root ds ls line cause → IsBadLine root ds ls line other → cause ≡ other }
    ensures one_line { (root ds ls stop : _) → AreGoodLines root ds ls → IsLineStop root ds ls stop → stop ≡ OutOfMemory }
    ensures one_stop { (root ds ls stop other : _) → IsLineStop root ds ls stop → IsLineStop root ds ls other → stop ≢ OutOfMemory → other ≢ OutOfMemory → stop ≡ other }
    ensures recovered { (root ds ls given stop : _) → AllRecovered root ds ls given → IsBackStop root ds ls given stop → stop ≡ OutOfMemory }
    ensures one_lost { (root ds ls given item other : _) → IsLost root ds ls given item → IsLost root ds ls given other → item ≡ other }
{}
