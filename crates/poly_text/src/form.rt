//! The bytes at the front of a text, and why reading ends early.

ghost use Rattle.std.specs.Prelude.{◌≡◌, ◌≤◌, length, drop};
ghost use Rattle.poly_text.specs.Form.{is_digit};
ghost use Rattle.poly_text.specs.Scan.{first_of};
ghost use Rattle.poly_text.specs.Fronts.{begins_with, begins_with_digit, ends_term, after_sign};

use std::alloc::AllocError;

/// Where a text leaves the form: no text of the form goes on with the byte there, or the text only
/// ended early.
#[derive(Clone, Copy, Drop)]
pub(crate) struct SyntaxFault {
    /// The number of bytes that are left there.
    pub(crate) left: usize,
}

/// Why reading ends early.
#[derive(Clone, Copy, Drop)]
pub(crate) enum Stop {
    /// The text leaves the form where this many bytes are left.
    Syntax { left: usize },
    /// An allocation failed.
    OutOfMemory,
}

impl From<SyntaxFault> for Stop {
    ghost use Rattle.std.specs.Prelude.{◌≡◌};
    ghost use Rattle.poly_text.specs.declared.form.Stop.TheVariants.{Syntax};

    ghost from_gives = { λ fault stop. stop ≡ Syntax fault.left };

    fn from(fault: SyntaxFault) -> Stop {
        Stop::Syntax { left: fault.left }
    }
}

impl From<AllocError> for Stop {
    ghost use Rattle.std.specs.Prelude.{◌≡◌};
    ghost use Rattle.poly_text.specs.declared.form.Stop.TheVariants.{OutOfMemory};

    ghost from_gives = { λ _ e. e ≡ OutOfMemory };

    fn from(_: AllocError) -> Stop {
        Stop::OutOfMemory
    }
}

fn is_digit(byte: u8) -> bool
    ensures { result ≡ is_digit byte }
{
    48 <= byte && byte <= 57
}

/// Whether the text begins with this byte.
pub(crate) fn begins_with(text: &[u8], byte: u8) -> bool
    ensures { result ≡ begins_with text.now byte }
{
    match text {
        [] => false,
        [first, ..] => *first == byte,
    }
}

/// Whether the text begins with a digit.
pub(crate) fn begins_with_digit(text: &[u8]) -> bool
    ensures { result ≡ begins_with_digit text.now }
{
    match text {
        [] => false,
        [first, ..] => is_digit(*first),
    }
}

/// Whether a term may end here: the text is empty, or begins with a sign.
pub(crate) fn ends_term(text: &[u8]) -> bool
    ensures { result ≡ ends_term text.now }
{
    match text {
        [] => true,
        [first, ..] => *first == b'+' || *first == b'-',
    }
}

/// The text without its first bytes.
pub(crate) fn behind(text: &[u8], count: usize) -> &[u8]
    requires { count ≤ length text.now }
    ensures { result.now ≡ drop count text.now }
{
    &text[count..]
}

/// What follows the sign at the front of a text, if there is one.
pub(crate) fn after_sign(text: &[u8]) -> &[u8]
    ensures { result.now ≡ after_sign text.now }
{
    match text {
        [] => text,
        [first, rest @ ..] => {
            if *first == b'+' || *first == b'-' {
                rest
            } else {
                text
            }
        }
    }
}

/// Keeps the first place.
pub(crate) fn note(place: &mut Option<usize>, left: usize)
    ensures { place.new ≡ first_of place.old left }
{
    if place.is_none() {
        *place = Some(left);
    }
}
