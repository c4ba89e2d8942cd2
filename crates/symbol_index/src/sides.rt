//! The rows and the columns of the matrices of the F.

ghost use Rattle.std.specs.Prelude.{◌≡◌};
ghost use Rattle.symbol_index.specs.Sides.{is_on, opposite};

use fusion_ring::Ring;

/// The labels e that are the rows of an F-matrix, or the labels f that are its columns.
#[derive(Clone, Copy, Debug, PartialEq, Eq)]
pub enum Side {
    Rows,
    Columns,
}

/// The columns for the rows, and the rows for the columns.
pub fn opposite(side: Side) -> Side
    ensures { result ≡ opposite side }
{
    match side {
        Side::Rows => Side::Columns,
        Side::Columns => Side::Rows,
    }
}

/// Whether x is on the side: N(a,b,x) = N(x,c,d) = 1 for the rows, and N(b,c,x) = N(a,x,d) = 1 for the columns.
pub fn is_on(ring: &Ring, side: Side, labels: (u8, u8, u8, u8), x: u8) -> bool
    ensures { result ≡ is_on side ring.now labels x }
{
    let (a, b, c, d) = labels;
    match side {
        Side::Rows => ring.channel(a, b, x) && ring.channel(x, c, d),
        Side::Columns => ring.channel(b, c, x) && ring.channel(a, x, d),
    }
}
