//! What the contracts say of texts and answers together.

ghost use Rattle.std.specs.Prelude.{◌≡◌, ◌≢◌, ◌<◌, ◌^◌, ◌⊎◌, None};
ghost use Rattle.std.specs.List.{AllByRecursion};
ghost use Rattle.sparse_poly.specs.Contributions.{IsPoly};
ghost use Rattle.poly_text.specs.Text.{poly_text};
ghost use Rattle.poly_text.specs.Form.{IsForm, IsPlainByte};
ghost use Rattle.poly_text.specs.Numbers.{first_out};
ghost use Rattle.poly_text.specs.State.{Start};
ghost use Rattle.poly_text.specs.Reading.{IsSpelling, IsTextFault};

use crate::reader::PolyTextFault;

/// A text is that of at most one polynomial.
pub fn text_law()
    ensures { (p q : _) → IsPoly p → IsPoly q → poly_text p ≡ poly_text q → p ≡ q }
{}

/// Apart from want of memory a text and a number of unknowns have exactly one answer, a polynomial or
/// a fault. So where there is memory, `read_poly` gives a fault exactly where the text has it.
pub fn answer_law()
    ensures some { (unknowns text : _) → unknowns < 2 ^ 32 → ((p : _) × IsSpelling unknowns text p) ⊎ ((fault : _) × IsTextFault unknowns text fault × (fault ≢ PolyTextFault.OutOfMemory)) }
    ensures ok { (unknowns text p fault : _) → unknowns < 2 ^ 32 → IsSpelling unknowns text p → IsTextFault unknowns text fault → fault ≡ PolyTextFault.OutOfMemory }
    ensures one { (unknowns text first second : _) → unknowns < 2 ^ 32 → IsTextFault unknowns text first → IsTextFault unknowns text second → first ≢ PolyTextFault.OutOfMemory → second ≢ PolyTextFault.OutOfMemory → first ≡ second }
    ensures poly { (unknowns text p q : _) → IsSpelling unknowns text p → IsSpelling unknowns text q → p ≡ q }
{}

/// The one spelling of a polynomial has the form, and no number of it is out of range. No text of the form has a
/// line feed or a space.
pub fn spelling_law()
    ensures form { (unknowns text p : _) → unknowns < 2 ^ 32 → IsSpelling unknowns text p → IsForm text }
    ensures numbers { (unknowns text p : _) → unknowns < 2 ^ 32 → IsSpelling unknowns text p → first_out unknowns Start text ≡ None }
    ensures bytes { (text : _) → IsForm text → AllByRecursion IsPlainByte text }
{}
