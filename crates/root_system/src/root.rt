//! The root of a problem.

ghost use Rattle.std.specs.Prelude.{◌≡◌, ◌≤◌, IfOk, MatchResult};
ghost use Rattle.root_system.specs.Root.{AreDifferencesOf, AreRootEquations};

use crate::ascending::ascending;
use crate::primitive::primitive_parts;
use gauge_fix::{gauges, inverses};
use hexagon_gen::hexagons;
use pentagon_gen::pentagons;
use ring_file::Problem;
use sparse_poly::Poly;
use std::alloc::{AllocError, Global};
use std::marker::Model;
use symbol_index::{SymbolFault, Symbols};
use thiserror::Error;

/// The root of a problem, seen as its number of unknowns and its equations, which ascend strictly.
///
/// The unknowns are at most 4,096 and the equations at most 65,536. Each equation is primitive and
/// not zero, and its variables are below the number of unknowns.
#[derive(Drop)]
pub struct Root {
    unknowns: u32,
    equations: Vec<Poly>,
}

impl Model for Root {
    ghost use Rattle.root_system.specs.Forms.{RootEquations, IsRootForm};

    ghost Value = { RootEquations };

    ghost view = { λ r. record { unknowns = r.unknowns; equations = r.equations.items } };

    ghost invariant = { λ r. IsRootForm (record { unknowns = r.unknowns; equations = r.equations.items }) };
}

/// Why a problem has no root.
#[derive(Clone, Copy, Debug, Drop, PartialEq, Error)]
pub enum RootFault {
    /// The number of unknowns, `count`, is above 4,096.
    #[error("TooManyUnknowns")]
    TooManyUnknowns { count: u64 },
    /// The number of equations, `count`, is above the limit, and the unknowns are within theirs.
    #[error("TooManyEquations")]
    TooManyEquations { count: u64 },
    /// An allocation failed.
    #[error("OutOfMemory")]
    OutOfMemory,
}

impl From<AllocError> for RootFault {
    ghost use Rattle.std.specs.Prelude.{◌≡◌};
    ghost use Rattle.root_system.specs.declared.root.RootFault.TheVariants.{OutOfMemory};

    ghost from_gives = { λ _ e. e ≡ OutOfMemory };

    fn from(_: AllocError) -> RootFault {
        RootFault::OutOfMemory
    }
}

impl Root {
    ghost use Rattle.root_system.specs.Forms.{max_equations, IsRootForm};
    ghost use Rattle.root_system.specs.Root.{IsRootOf, IsRootFault};

    /// The root of the problem, with at most 65,536 equations.
    pub fn new(alloc: Global, problem: &Problem) -> Result<Root, RootFault>
        ensures { MatchResult result (IsRootOf problem.now max_equations) (IsRootFault problem.now max_equations) }
    {
        Root::with_limit(alloc, problem, 65_536)
    }

    /// The root of the problem, with at most `limit` equations: all equations are made primitive,
    /// zero and repeats are dropped, and the rest is sorted.
    pub fn with_limit(alloc: Global, problem: &Problem, limit: u64) -> Result<Root, RootFault>
        requires { limit ≤ max_equations }
        ensures { MatchResult result (IsRootOf problem.now limit) (IsRootFault problem.now limit) }
    {
        let symbols = match Symbols::new(alloc, problem.ring()) {
            Ok(symbols) => symbols,
            Err(SymbolFault::TooManyUnknowns { count }) => {
                return Err(RootFault::TooManyUnknowns { count });
            }
            Err(SymbolFault::OutOfMemory) => return Err(RootFault::OutOfMemory),
        };
        let equations = root_equations(alloc, problem, &symbols)?;
        let count = equations.len() as u64;
        if count > limit {
            return Err(RootFault::TooManyEquations { count });
        }
        Ok(Root {
            unknowns: symbols.count(),
            equations,
        })
    }

    /// The number of unknowns, at most 4,096.
    pub fn unknowns(&self) -> u32
        ensures { result ≡ self.now.unknowns }
    {
        self.unknowns
    }

    /// The equations, in ascending order.
    pub fn equations(&self) -> &[Poly]
        ensures equations { result.now ≡ self.now.equations }
        ensures form { IsRootForm self.now }
    {
        &self.equations
    }
}

// The root equations of a problem.
fn root_equations(
    alloc: Global,
    problem: &Problem,
    symbols: &Symbols,
) -> Result<Vec<Poly>, AllocError>
    requires { symbols.now ≡ problem.now.ring }
    ensures { IfOk result (λ v. AreRootEquations problem.now v.items) }
{
    let differences = differences(alloc, problem, symbols)?;
    ascending(primitive_parts(alloc, &differences)?)
}

// The differences of both sides of all equations of a problem.
fn differences(alloc: Global, problem: &Problem, symbols: &Symbols) -> Result<Vec<Poly>, AllocError>
    requires { symbols.now ≡ problem.now.ring }
    ensures { IfOk result (λ v. AreDifferencesOf problem.now v.items) }
{
    let ring = problem.ring();
    let mut all = pentagons(alloc, ring, symbols)?;
    all.append(&mut hexagons(alloc, ring, symbols)?)?;
    all.append(&mut inverses(alloc, ring, symbols)?)?;
    all.append(&mut gauges(alloc, symbols, problem.gauge())?)?;
    Ok(all)
}
