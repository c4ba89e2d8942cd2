//! The kinds of lines.
ghost use Rattle.std.specs.Prelude.{◌≡◌};
ghost use Rattle.std.specs.Str.{bytes_eq};
ghost use Rattle.cert_lines.specs.Forms.{kind_by_word, head_kind};

/// What a line of a certificate's text is about, by its first word.
#[derive(Clone, Copy, Debug, PartialEq, Eq)]
pub enum Kind {
    /// `braidcert`
    Title,
    /// `unknowns`
    Unknowns,
    /// `equations`
    Equations,
    /// `budget`
    Budget,
    /// `lines`
    Lines,
    /// `split`
    Split,
    /// `post`
    Post,
    /// `close`
    Close,
    /// `leaf`
    Leaf,
    /// `zero` or `nonzero`
    Decided,
    /// `fwd` or `back`
    Derived,
    /// `use`
    Use,
    /// `end`
    End,
    /// `eq`
    Equation,
    /// `done`
    Done,
}

/// The kind of a line, by its first word, and `None` exactly where no line begins with that word.
pub fn kind_by_word(word: &[u8]) -> Option<Kind>
    ensures { result ≡ kind_by_word word.now }
{
    if is_word(word, b"fwd") || is_word(word, b"back") {
        Some(Kind::Derived)
    } else if is_word(word, b"use") {
        Some(Kind::Use)
    } else if is_word(word, b"zero") || is_word(word, b"nonzero") {
        Some(Kind::Decided)
    } else if is_word(word, b"eq") {
        Some(Kind::Equation)
    } else if is_word(word, b"split") {
        Some(Kind::Split)
    } else if is_word(word, b"post") {
        Some(Kind::Post)
    } else if is_word(word, b"end") {
        Some(Kind::End)
    } else if is_word(word, b"close") {
        Some(Kind::Close)
    } else if is_word(word, b"leaf") {
        Some(Kind::Leaf)
    } else {
        head_kind(word)
    }
}

// The kind of a line of the head, or of the last line.
fn head_kind(word: &[u8]) -> Option<Kind>
    ensures { result ≡ head_kind word.now }
{
    if is_word(word, b"braidcert") {
        Some(Kind::Title)
    } else if is_word(word, b"unknowns") {
        Some(Kind::Unknowns)
    } else if is_word(word, b"equations") {
        Some(Kind::Equations)
    } else if is_word(word, b"budget") {
        Some(Kind::Budget)
    } else if is_word(word, b"lines") {
        Some(Kind::Lines)
    } else if is_word(word, b"done") {
        Some(Kind::Done)
    } else {
        None
    }
}

/// Whether a field is this word.
pub(crate) fn is_word(field: &[u8], word: &[u8]) -> bool
    ensures { result ≡ bytes_eq field.now word.now }
{
    field == word
}
