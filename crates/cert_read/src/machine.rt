//! The state that a certificate's lines lead to.
ghost use Rattle.std.specs.Prelude.{◌≡◌, ◌==◌, ◌&&◌, ◌++◌, ◌∷◌, [], if◌then◌else◌, length, IfOk};
ghost use Rattle.cert_read.specs.Machine.{is_used_up, version_of, is_in_full, taken, taken_at, begin, in_post, in_leaf, listing, at_start, at_unknowns, at_equations, at_budget, filled, at_lines, in_table, next, certificate, may, may_begin, may_post, may_leaf, may_open, unknowns, Nothing, Listing, Whole, Wrong};
ghost use Rattle.cert_text.specs.declared.sentence.Sentence.TheVariants as says;
ghost use Rattle.leaf_cert.specs.declared.certificate.RawEntry.TheVariants.{Post, Publish};
ghost use Rattle.cert_read.specs.Seen.{seen, seen_wording, seen_used, seen_open, seen_or_wrong};

use crate::table::LineTable;
use cert_lines::Kind;
use cert_text::{Sentence, Version};
use derive_lines::{Decision, Item, Line};
use leaf_cert::{Certificate, LeafEnd, RawEntry, Rows};
use sparse_poly::Poly;
use std::alloc::{AllocError, Global};

/// The numbers of the head.
#[derive(Clone, Copy)]
pub struct Head {
    pub unknowns: u32,
    pub equations: u32,
    pub budget: u32,
}

/// A post with what it has so far.
#[derive(Drop)]
pub struct OpenPost {
    pub decisions: Vec<Decision>,
    pub lines: Vec<Line>,
}

/// A leaf with what it has so far.
#[derive(Drop)]
pub struct OpenLeaf {
    pub n: u64,
    pub end: LeafEnd,
    pub decisions: Vec<Decision>,
    pub lines: Vec<Line>,
    pub equations: Vec<Poly>,
}

/// What is open behind the whole entries.
#[derive(Drop)]
pub enum Opened {
    Nothing,
    Post(OpenPost),
    Leaf(OpenLeaf),
}

/// How the lines of derivations are said.
#[derive(Drop)]
pub enum Worded {
    /// Themselves.
    InFull,
    /// By their places in the table, of which the first `used` have been used.
    ByPlace { table: LineTable, used: u64 },
}

/// What the lines so far say.
#[derive(Drop)]
pub enum Kept {
    Start,
    Unknowns {
        version: Version,
    },
    Equations {
        version: Version,
        unknowns: u32,
    },
    Budget {
        version: Version,
        unknowns: u32,
        equations: u32,
    },
    Lines {
        head: Head,
    },
    Table {
        head: Head,
        size: u64,
        table: LineTable,
    },
    Listing {
        head: Head,
        wording: Worded,
        entries: Vec<RawEntry>,
        open: Opened,
    },
    Whole {
        version: Version,
        certificate: Certificate,
    },
}

// An entry more, behind which nothing is open.
fn listed(
    head: Head,
    wording: Worded,
    entries: Vec<RawEntry>,
    entry: RawEntry,
) -> Result<Option<Kept>, AllocError>
    ensures { IfOk result (λ o. seen_or_wrong o ≡ Listing head (seen_wording wording) (seen_used wording) (entries.items ++ entry ∷ []) Nothing) }
{
    let mut entries = entries;
    entries.push(entry)?;
    Ok(Some(Kept::Listing {
        head,
        wording,
        entries,
        open: Opened::Nothing,
    }))
}

// A line behind whole entries.
fn begin(
    alloc: Global,
    head: Head,
    wording: Worded,
    entries: Vec<RawEntry>,
    said: Sentence,
) -> Result<Option<Kept>, AllocError>
    ensures { IfOk result (λ o. seen_or_wrong o ≡ begin head (seen_wording wording) (seen_used wording) entries.items said) }
{
    let open = match said {
        Sentence::Split { n, by } => {
            return listed(head, wording, entries, RawEntry::Split { n, by });
        }
        Sentence::Close { n, k } => {
            return listed(head, wording, entries, RawEntry::Close { n, k });
        }
        Sentence::Post => Opened::Post(OpenPost {
            decisions: Vec::new(alloc),
            lines: Vec::new(alloc),
        }),
        Sentence::Leaf { n, end } => Opened::Leaf(OpenLeaf {
            n,
            end,
            decisions: Vec::new(alloc),
            lines: Vec::new(alloc),
            equations: Vec::new(alloc),
        }),
        Sentence::Done(n) => return Ok(ended(head, &wording, entries, n)),
        _ => return Ok(None),
    };
    Ok(Some(Kept::Listing {
        head,
        wording,
        entries,
        open,
    }))
}

// The end of the entries, whose number is to be theirs, and behind which no place of the table is unused.
fn ended(head: Head, wording: &Worded, entries: Vec<RawEntry>, n: u64) -> Option<Kept>
    ensures { seen_or_wrong result ≡ (if (n == length entries.items) && is_used_up (seen_wording wording.now) (seen_used wording.now) then Whole (version_of (seen_wording wording.now)) (certificate head entries.items) else Wrong) }
{
    if n != entries.len() as u64 || !is_used_up(wording) {
        return None;
    }
    Some(Kept::Whole {
        version: version_of(wording),
        certificate: Certificate {
            unknowns: head.unknowns,
            equations: head.equations,
            budget: head.budget,
            entries: Rows::of(entries),
        },
    })
}

// The version in which lines are said so.
fn version_of(wording: &Worded) -> Version
    ensures { result ≡ version_of (seen_wording wording.now) }
{
    match wording {
        Worded::InFull => Version::One,
        Worded::ByPlace { .. } => Version::Two,
    }
}

// Whether all places of the table are used.
fn is_used_up(wording: &Worded) -> bool
    ensures { result ≡ is_used_up (seen_wording wording.now) (seen_used wording.now) }
{
    match wording {
        Worded::InFull => true,
        Worded::ByPlace { table, used } => *used == table.len(),
    }
}

// Whether lines are said themselves.
fn is_in_full(wording: &Worded) -> bool
    ensures { result ≡ is_in_full (seen_wording wording.now) }
{
    match wording {
        Worded::InFull => true,
        Worded::ByPlace { .. } => false,
    }
}

// A line that says itself, where lines do.
fn in_full(wording: &Worded, line: Line) -> Option<Line>
    ensures { taken (seen_wording wording.now) (seen_used wording.now) (says.Derived line) ≡ taken_at (seen_used wording.now) result }
{
    match wording {
        Worded::InFull => Some(line),
        Worded::ByPlace { .. } => None,
    }
}

// The line at a place that was used before, or at the next one.
fn by_place(wording: &mut Worded, place: u64) -> Result<Option<Line>, AllocError>
    ensures wording { seen_wording wording.new ≡ seen_wording wording.old }
    ensures line { IfOk result (λ o. taken (seen_wording wording.old) (seen_used wording.old) (says.Use place) ≡ taken_at (seen_used wording.new) o) }
{
    let Worded::ByPlace { table, used } = wording else {
        return Ok(None);
    };
    if place > *used {
        return Ok(None);
    }
    let Some(line) = table.line(place) else {
        return Ok(None);
    };
    let line = line.copy()?;
    if place == *used {
        *used += 1;
    }
    Ok(Some(line))
}

// A post with its end.
fn ended_post(post: OpenPost, end: Item) -> RawEntry
    ensures { result ≡ Post post.decisions.items post.lines.items end }
{
    RawEntry::Post {
        decisions: Rows::of(post.decisions),
        lines: Rows::of(post.lines),
        end,
    }
}

// A line of a post.
fn in_post(
    head: Head,
    wording: Worded,
    entries: Vec<RawEntry>,
    post: OpenPost,
    said: Sentence,
) -> Result<Option<Kept>, AllocError>
    ensures { IfOk result (λ o. seen_or_wrong o ≡ in_post head (seen_wording wording) (seen_used wording) entries.items post.decisions.items post.lines.items said) }
{
    let mut wording = wording;
    let mut post = post;
    match said {
        Sentence::Decided(decision) => {
            if !post.lines.is_empty() {
                return Ok(None);
            }
            post.decisions.push(decision)?;
        }
        Sentence::Derived(line) => {
            let Some(line) = in_full(&wording, line) else {
                return Ok(None);
            };
            post.lines.push(line)?;
        }
        Sentence::Use(place) => {
            let Some(line) = by_place(&mut wording, place)? else {
                return Ok(None);
            };
            post.lines.push(line)?;
        }
        Sentence::End(end) => return listed(head, wording, entries, ended_post(post, end)),
        _ => return Ok(None),
    }
    Ok(Some(Kept::Listing {
        head,
        wording,
        entries,
        open: Opened::Post(post),
    }))
}

// A line behind a leaf.
fn behind_leaf(
    alloc: Global,
    head: Head,
    wording: Worded,
    entries: Vec<RawEntry>,
    leaf: OpenLeaf,
    said: Sentence,
) -> Result<Option<Kept>, AllocError>
    ensures { IfOk result (λ o. seen_or_wrong o ≡ begin head (seen_wording wording) (seen_used wording) (entries.items ++ Publish leaf.n leaf.decisions.items leaf.lines.items leaf.equations.items leaf.end ∷ []) said) }
{
    let mut entries = entries;
    entries.push(RawEntry::Publish {
        n: leaf.n,
        decisions: Rows::of(leaf.decisions),
        lines: Rows::of(leaf.lines),
        equations: Rows::of(leaf.equations),
        end: leaf.end,
    })?;
    begin(alloc, head, wording, entries, said)
}

// A line of a leaf, or behind one.
fn in_leaf(
    alloc: Global,
    head: Head,
    wording: Worded,
    entries: Vec<RawEntry>,
    leaf: OpenLeaf,
    said: Sentence,
) -> Result<Option<Kept>, AllocError>
    ensures { IfOk result (λ o. seen_or_wrong o ≡ in_leaf head (seen_wording wording) (seen_used wording) entries.items leaf.n leaf.end leaf.decisions.items leaf.lines.items leaf.equations.items said) }
{
    let mut wording = wording;
    let mut leaf = leaf;
    match said {
        Sentence::Decided(decision) => {
            if !leaf.lines.is_empty() || !leaf.equations.is_empty() {
                return Ok(None);
            }
            leaf.decisions.push(decision)?;
        }
        Sentence::Derived(line) => {
            let Some(line) = in_full(&wording, line) else {
                return Ok(None);
            };
            if !leaf.equations.is_empty() {
                return Ok(None);
            }
            leaf.lines.push(line)?;
        }
        Sentence::Use(place) => {
            let Some(line) = by_place(&mut wording, place)? else {
                return Ok(None);
            };
            if !leaf.equations.is_empty() {
                return Ok(None);
            }
            leaf.lines.push(line)?;
        }
        Sentence::Equation(equation) => {
            leaf.equations.push(equation)?;
        }
        said => return behind_leaf(alloc, head, wording, entries, leaf, said),
    }
    Ok(Some(Kept::Listing {
        head,
        wording,
        entries,
        open: Opened::Leaf(leaf),
    }))
}

// A line behind the head.
fn listing(
    alloc: Global,
    head: Head,
    wording: Worded,
    entries: Vec<RawEntry>,
    part: Opened,
    said: Sentence,
) -> Result<Option<Kept>, AllocError>
    ensures { IfOk result (λ o. seen_or_wrong o ≡ listing head (seen_wording wording) (seen_used wording) entries.items (seen_open part) said) }
{
    match part {
        Opened::Nothing => begin(alloc, head, wording, entries, said),
        Opened::Post(post) => in_post(head, wording, entries, post, said),
        Opened::Leaf(leaf) => in_leaf(alloc, head, wording, entries, leaf, said),
    }
}

// The first line.
fn at_start(said: &Sentence) -> Option<Kept>
    ensures { seen_or_wrong result ≡ at_start said.now }
{
    match said {
        Sentence::Title(version) => Some(Kept::Unknowns { version: *version }),
        _ => None,
    }
}

// The line behind the first.
fn at_unknowns(version: Version, said: &Sentence) -> Option<Kept>
    ensures { seen_or_wrong result ≡ at_unknowns version said.now }
{
    match said {
        Sentence::Unknowns(n) => Some(Kept::Equations {
            version,
            unknowns: *n,
        }),
        _ => None,
    }
}

// The line behind the number of unknowns.
fn at_equations(version: Version, unknowns: u32, said: &Sentence) -> Option<Kept>
    ensures { seen_or_wrong result ≡ at_equations version unknowns said.now }
{
    match said {
        Sentence::Equations(n) => Some(Kept::Budget {
            version,
            unknowns,
            equations: *n,
        }),
        _ => None,
    }
}

// The line behind the number of equations.
fn at_budget(
    alloc: Global,
    version: Version,
    unknowns: u32,
    equations: u32,
    said: &Sentence,
) -> Option<Kept>
    ensures { seen_or_wrong result ≡ at_budget version unknowns equations said.now }
{
    match said {
        Sentence::Budget(n) => {
            let head = Head {
                unknowns,
                equations,
                budget: *n,
            };
            match version {
                Version::One => Some(listing_from(alloc, head, Worded::InFull)),
                Version::Two => Some(Kept::Lines { head }),
            }
        }
        _ => None,
    }
}

// Behind the lines before the entries.
fn listing_from(alloc: Global, head: Head, wording: Worded) -> Kept
    ensures { seen result ≡ Listing head (seen_wording wording) (seen_used wording) [] Nothing }
{
    Kept::Listing {
        head,
        wording,
        entries: Vec::new(alloc),
        open: Opened::Nothing,
    }
}

// A table with what it has so far: the entries begin where it is full.
fn filled(alloc: Global, head: Head, size: u64, table: LineTable) -> Kept
    ensures { seen result ≡ filled head size table }
{
    if table.len() == size {
        return listing_from(alloc, head, Worded::ByPlace { table, used: 0 });
    }
    Kept::Table { head, size, table }
}

// The line behind the budget of version 2.
fn at_lines(alloc: Global, head: Head, said: &Sentence) -> Option<Kept>
    ensures { seen_or_wrong result ≡ at_lines head said.now }
{
    match said {
        Sentence::Lines(n) => Some(filled(alloc, head, *n, LineTable::new(alloc))),
        _ => None,
    }
}

// A line of the table, which it has not yet.
fn in_table(
    alloc: Global,
    head: Head,
    size: u64,
    table: LineTable,
    said: Sentence,
) -> Result<Option<Kept>, AllocError>
    ensures { IfOk result (λ o. seen_or_wrong o ≡ in_table head size table said) }
{
    let mut table = table;
    match said {
        Sentence::Derived(line) => {
            if !table.push(line)? {
                return Ok(None);
            }
            Ok(Some(filled(alloc, head, size, table)))
        }
        _ => Ok(None),
    }
}

/// The state behind one line more, or `None` where no certificate has such lines.
pub(crate) fn next(alloc: Global, kept: Kept, said: Sentence) -> Result<Option<Kept>, AllocError>
    ensures { IfOk result (λ o. seen_or_wrong o ≡ next (seen kept) said) }
{
    match kept {
        Kept::Start => Ok(at_start(&said)),
        Kept::Unknowns { version } => Ok(at_unknowns(version, &said)),
        Kept::Equations { version, unknowns } => Ok(at_equations(version, unknowns, &said)),
        Kept::Budget {
            version,
            unknowns,
            equations,
        } => Ok(at_budget(alloc, version, unknowns, equations, &said)),
        Kept::Lines { head } => Ok(at_lines(alloc, head, &said)),
        Kept::Table { head, size, table } => in_table(alloc, head, size, table, said),
        Kept::Listing {
            head,
            wording,
            entries,
            open,
        } => listing(alloc, head, wording, entries, open, said),
        Kept::Whole { .. } => Ok(None),
    }
}

// Whether a line of this kind may begin an entry, or end the entries.
fn may_begin(wording: &Worded, kind: Kind) -> bool
    ensures { result ≡ may_begin (seen_wording wording.now) (seen_used wording.now) kind }
{
    match kind {
        Kind::Split | Kind::Post | Kind::Close | Kind::Leaf => true,
        Kind::Done => is_used_up(wording),
        _ => false,
    }
}

// Whether it may stand in a post with these lines.
fn may_post(wording: &Worded, lines: &[Line], kind: Kind) -> bool
    ensures { result ≡ may_post (seen_wording wording.now) lines.now kind }
{
    match kind {
        Kind::Decided => lines.is_empty(),
        Kind::Derived => is_in_full(wording),
        Kind::Use => !is_in_full(wording),
        Kind::End => true,
        _ => false,
    }
}

// Whether it may stand in or behind a leaf with these lines and equations.
fn may_leaf(wording: &Worded, lines: &[Line], equations: &[Poly], kind: Kind) -> bool
    ensures { result ≡ may_leaf (seen_wording wording.now) (seen_used wording.now) lines.now equations.now kind }
{
    match kind {
        Kind::Decided => lines.is_empty() && equations.is_empty(),
        Kind::Derived => is_in_full(wording) && equations.is_empty(),
        Kind::Use => !is_in_full(wording) && equations.is_empty(),
        Kind::Equation => true,
        kind => may_begin(wording, kind),
    }
}

// Whether it may come where this is open.
fn may_open(wording: &Worded, part: &Opened, kind: Kind) -> bool
    ensures { result ≡ may_open (seen_wording wording.now) (seen_used wording.now) (seen_open part.now) kind }
{
    match part {
        Opened::Nothing => may_begin(wording, kind),
        Opened::Post(post) => may_post(wording, &post.lines, kind),
        Opened::Leaf(leaf) => may_leaf(wording, &leaf.lines, &leaf.equations, kind),
    }
}

/// Whether a line of this kind may come next, whatever its numbers.
pub(crate) fn may(kept: &Kept, kind: Kind) -> bool
    ensures { result ≡ may (seen kept.now) kind }
{
    match kept {
        Kept::Start => matches!(kind, Kind::Title),
        Kept::Unknowns { .. } => matches!(kind, Kind::Unknowns),
        Kept::Equations { .. } => matches!(kind, Kind::Equations),
        Kept::Budget { .. } => matches!(kind, Kind::Budget),
        Kept::Lines { .. } => matches!(kind, Kind::Lines),
        Kept::Table { .. } => matches!(kind, Kind::Derived),
        Kept::Listing { wording, open, .. } => may_open(wording, open, kind),
        Kept::Whole { .. } => false,
    }
}

/// The number of unknowns, or 0 where it is not yet said.
pub(crate) fn unknowns(kept: &Kept) -> u32
    ensures { result ≡ unknowns (seen kept.now) }
{
    match kept {
        Kept::Start | Kept::Unknowns { .. } => 0,
        Kept::Equations { unknowns, .. } => *unknowns,
        Kept::Budget { unknowns, .. } => *unknowns,
        Kept::Lines { head } => head.unknowns,
        Kept::Table { head, .. } => head.unknowns,
        Kept::Listing { head, .. } => head.unknowns,
        Kept::Whole { certificate, .. } => certificate.unknowns,
    }
}
