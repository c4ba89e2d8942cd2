//! A case.
ghost use Rattle.std.specs.Prelude.{◌≡◌, ◌<◌, ◌+◌, ◌^◌, true, false, IfOk, OnErr, MatchResult, length};
ghost use Rattle.pseudo_rem.specs.Steps.{CanReduce as CanReduceBy, IsStepFault};
ghost use Rattle.case_rules.specs.Cases.{equation_at, numbered};
ghost use Rattle.case_rules.specs.Branches.{step_line};
ghost use Rattle.case_system.specs.Appending.{Grows};
ghost use Rattle.case_system.specs.CaseLines.{all_lines};
ghost use Rattle.case_state.specs.Reducing.{IsReducedBy};

use crate::copies::copied_decisions;
use crate::shown::{Decisions, Equations, Lines};
use case_rules::Equation;
use case_system::{CaseLines, System, item_of};
use derive_lines::{Decision, Item, Line, Way};
use pseudo_rem::{Reduction, reduce_once, tail_step};
use sparse_poly::{Poly, PolyFault};
use std::alloc::{AllocError, Global};
use std::marker::Model;

/// A case, seen as its decisions, its equations with their items, its lines and its number of moves.
#[derive(Drop)]
pub struct Case {
    decisions: Vec<Decision>,
    // the equations, and as known conditions the polynomials of the nonzero decisions
    system: System,
    lines: CaseLines,
    moves: u32,
}

impl Model for Case {
    ghost use Rattle.std.specs.Prelude.{◌≡◌};
    ghost use Rattle.derive_lines.specs.Lines.{conditions};
    ghost use Rattle.case_rules.specs.Cases.{CaseState};
    ghost use Rattle.case_system.specs.CaseLines.{all_lines};

    ghost Value = { CaseState };

    ghost view = { λ c. record { decisions = c.decisions.items; equations = c.system.equations; lines = all_lines c.lines; moves = c.moves } };

    ghost invariant = { λ c. c.system.conditions ≡ conditions c.decisions.items };
}

impl Case {
    ghost use Rattle.std.specs.declared.option.Option.TheVariants.{Some};
    ghost use Rattle.derive_lines.specs.Refuting.{decided};
    ghost use Rattle.case_rules.specs.Cases.{root_case, known, equation, poly, count};
    ghost use Rattle.case_rules.specs.Branches.{zero_equation, IsReduced, IsNonzeroBranch, IsZeroBranch, IsTailOf, IsTailBranch, IsBranch, IsBranchFault, IsTail, CanReduce, CanSplit};
    ghost use Rattle.case_rules.specs.Belonging.{IsRootList};
    ghost use Rattle.case_state.specs.Places.{IsReducedAt};

    /// The root case: the root equations in their order, no decision, no line and no move. It fails only where no memory is left.
    pub fn root(alloc: Global, root: &[Poly]) -> Result<Case, AllocError>
        requires { IsRootList root.now }
        ensures { IfOk result (λ c. c ≡ root_case root.now) }
    {
        Ok(Case {
            decisions: Vec::new(alloc),
            system: System::new(alloc, root_equations(alloc, root)?)?,
            lines: CaseLines::new(alloc),
            moves: 0,
        })
    }

    /// An equal case. It fails only where no memory is left.
    pub fn copy(&self) -> Result<Case, AllocError>
        ensures { IfOk result (λ c. c ≡ self.now) }
    {
        let alloc = self.lines.allocator();
        Ok(Case {
            decisions: copied_decisions(alloc, &self.decisions)?,
            system: self.system.copy()?,
            lines: self.lines.copy()?,
            moves: self.moves,
        })
    }

    /// Reduces equation `q` by another equation `p` in a variable, by their places. The line of the reduction and those that clear what it makes
    /// are appended, and what is left takes the place of `q` in the order; zero is dropped, and an equation that is there keeps its older
    /// item. `Degree` and `Heavy` come exactly where the combination of the reduction answers so. After a refusal the case is unchanged.
    pub fn reduce(&mut self, q: u64, p: u64, var: u32) -> Result<(), PolyFault>
        requires can { CanReduce self.old q p var }
        requires room { self.old.moves + 1 < 2 ^ 32 }
        ensures answer { MatchResult result (λ _. IsReduced self.old q p var self.new) (IsStepFault (poly self.old q) (poly self.old p) var) }
        ensures unchanged { OnErr result (self.new ≡ self.old) }
    {
        match self.reduce_at(q, p, var) {
            Ok(_) => Ok(()),
            Err(fault) => Err(fault),
        }
    }

    /// The same, with the place of what is left, where it is a new equation.
    pub fn reduce_at(&mut self, q: u64, p: u64, var: u32) -> Result<Option<u64>, PolyFault>
        requires can { CanReduce self.old q p var }
        requires room { self.old.moves + 1 < 2 ^ 32 }
        ensures answer { MatchResult result (λ at. IsReducedAt self.old q p var at self.new) (IsStepFault (poly self.old q) (poly self.old p) var) }
        ensures unchanged { OnErr result (self.new ≡ self.old) }
    {
        let before = self.lines.len();
        match reduced(&mut self.system, q, p, var, &mut self.lines) {
            Ok(place) => {
                self.moves += 1;
                Ok(place)
            }
            Err(fault) => {
                self.lines.truncate(before);
                Err(fault)
            }
        }
    }

    /// Makes copies and branches share the lines that were made so far. The case stays the same. It fails only where no memory is left.
    pub fn share(&mut self) -> Result<(), AllocError>
        ensures { self.new ≡ self.old }
    {
        self.lines.share()
    }

    /// A branch of the case: with the decision that a polynomial is zero or not, and one move more. Where it is not zero, all equations are
    /// stripped and then cleared of the known conditions. Where it is zero, it is an equation; and where `tail` is the place of the equation
    /// whose initial it was left of, that equation loses its initial. `tail` is `None` for a variable. `Degree` and `Heavy` come exactly where
    /// the combination of this tail step answers so.
    pub fn branch(&self, by: &Poly, zero: bool, tail: Option<u64>) -> Result<Case, PolyFault>
        requires split { CanSplit self.now by.now tail }
        requires room { self.now.moves + 1 < 2 ^ 32 }
        ensures { MatchResult result (IsBranch self.now by.now zero tail) (IsBranchFault self.now by.now zero tail) }
    {
        if !zero {
            return Ok(self.nonzero_branch(by)?);
        }
        match tail {
            None => Ok(self.zero_branch(by)?),
            Some(i) => self.tail_branch(by, i),
        }
    }

    // The branch in which a polynomial is not zero.
    #[tactic(auto, using(crate::proofs::Branching::known_nonzero))]
    fn nonzero_branch(&self, by: &Poly) -> Result<Case, AllocError>
        requires { self.now.moves + 1 < 2 ^ 32 }
        ensures { IfOk result (λ c. IsNonzeroBranch self.now by.now c) }
    {
        let decisions = self.decided(by, false)?;
        let mut lines = self.lines.copy()?;
        let system = self.system.with_condition(by, &mut lines)?;
        lines.share()?;
        Ok(Case {
            decisions,
            system,
            lines,
            moves: self.moves + 1,
        })
    }

    // The branch in which a variable is zero.
    #[tactic(auto, using(crate::proofs::Branching::known_zero))]
    fn zero_branch(&self, by: &Poly) -> Result<Case, AllocError>
        requires { self.now.moves + 1 < 2 ^ 32 }
        ensures { IfOk result (λ c. IsZeroBranch self.now by.now c) }
    {
        let mut system = self.system.copy()?;
        system.add(self.zero_equation(by)?)?;
        Ok(Case {
            decisions: self.decided(by, true)?,
            system,
            lines: self.lines.copy()?,
            moves: self.moves + 1,
        })
    }

    // The branch in which what is left of the initial of equation i is zero.
    fn tail_branch(&self, by: &Poly, i: u64) -> Result<Case, PolyFault>
        requires split { IsTail self.now by.now i }
        requires room { self.now.moves + 1 < 2 ^ 32 }
        ensures { MatchResult result (IsTailBranch self.now by.now i) (IsBranchFault self.now by.now true (Some i)) }
    {
        let step = self.tail(by, i)?;
        let branch = self.after_tail(by, i, step)?;
        Ok(branch)
    }

    // The same after its tail step: equation i loses its initial.
    #[tactic(auto, using(crate::proofs::Branching::known_zero))]
    fn after_tail(&self, by: &Poly, i: u64, step: Reduction) -> Result<Case, AllocError>
        requires place { i < count self.now }
        requires tail { IsTailOf self.now by.now i step }
        requires room { self.now.moves + 1 < 2 ^ 32 }
        ensures { IfOk result (λ c. IsTailBranch self.now by.now i c) }
    {
        let zero = self.zero_equation(by)?;
        let mut lines = self.lines.copy()?;
        let made = Equation {
            poly: step.r.copy()?,
            item: Item::Line(lines.len() as u64),
        };
        lines.push(step_line(self.item_at(i), zero.item, step))?;
        let mut system = self.system.copy()?;
        system.remove(i);
        system.add(zero)?;
        system.add_cleared(made, &mut lines)?;
        lines.share()?;
        Ok(Case {
            decisions: self.decided(by, true)?,
            system,
            lines,
            moves: self.moves + 1,
        })
    }

    // The tail step by what is left of the initial of equation i.
    fn tail(&self, by: &Poly, i: u64) -> Result<Reduction, PolyFault>
        requires { IsTail self.now by.now i }
        ensures { MatchResult result (IsTailOf self.now by.now i) (IsBranchFault self.now by.now true (Some i)) }
    {
        let poly = self.equations().at(i);
        let Some(var) = poly.main() else {
            unreachable!()
        };
        let _terms = poly.terms();
        let initial = poly.coefficient_in(var, poly.degree_in(var))?;
        let parts = initial.clear(self.system.conditions())?;
        tail_step(
            self.lines.allocator(),
            poly,
            var,
            &parts.factor,
            by,
            self.system.conditions(),
        )
    }

    // The decisions and one more.
    fn decided(&self, by: &Poly, zero: bool) -> Result<Vec<Decision>, AllocError>
        ensures { IfOk result (λ v. v.items ≡ decided self.now.decisions by.now zero) }
    {
        let mut decisions = copied_decisions(self.lines.allocator(), &self.decisions)?;
        decisions.push(Decision {
            poly: by.copy()?,
            zero,
        })?;
        Ok(decisions)
    }

    // A polynomial that is zero by a further decision, as an equation.
    fn zero_equation(&self, by: &Poly) -> Result<Equation, AllocError>
        ensures { IfOk result (λ e. e ≡ zero_equation self.now by.now) }
    {
        let decision = Item::Decision(self.decisions.len() as u64);
        Ok(Equation {
            poly: by.copy()?,
            item: item_of(self.system.equations(), by, decision),
        })
    }

    // The item of an equation.
    fn item_at(&self, i: u64) -> Item
        requires { i < count self.now }
        ensures { result ≡ (equation self.now i).item }
    {
        self.equations().item(i)
    }

    /// The decisions, the oldest first.
    pub fn decisions(&self) -> Decisions<'_>
        ensures { result ≡ self.now.decisions }
    {
        Decisions {
            list: &self.decisions,
        }
    }

    /// The equations, in ascending order.
    pub fn equations(&self) -> Equations<'_>
        ensures { result ≡ self.now.equations }
    {
        Equations {
            system: &self.system,
        }
    }

    /// The lines, the oldest first.
    pub fn lines(&self) -> Lines<'_>
        ensures { result ≡ self.now.lines }
    {
        Lines { lines: &self.lines }
    }

    /// The number of moves.
    pub fn moves(&self) -> u32
        ensures { result ≡ self.now.moves }
    {
        self.moves
    }

    /// The known conditions: the polynomials of the nonzero decisions, the oldest first.
    pub fn known(&self) -> &[Poly]
        ensures { result.now ≡ known self.now }
    {
        self.system.conditions()
    }
}

// The root equations with their items.
fn root_equations(alloc: Global, root: &[Poly]) -> Result<Vec<Equation>, AllocError>
    ensures { IfOk result (λ v. v.items ≡ numbered 0 root.now) }
{
    let mut equations = Vec::with_capacity(alloc, root.len())?;
    for poly in root {
        equations.push(Equation {
            poly: poly.copy()?,
            item: Item::Root(equations.len() as u64),
        })?;
    }
    Ok(equations)
}

// The line of a step on the equation of one item by that of another.
fn step_line(from: Item, by: Item, step: Reduction) -> Line
    ensures { result ≡ step_line from by step }
{
    let Reduction { l, a, m, r } = step;
    Line {
        way: Way::Fwd,
        from: Some(from),
        by: Some(by),
        l,
        a,
        m,
        made: r,
    }
}

// Reduces equation q by equation p. The line of the step and those that clear what it makes are appended, and what is left takes the place of q;
// the answer is its place, where it is a new equation. After a refusal some lines may have been appended.
fn reduced(
    system: &mut System,
    q: u64,
    p: u64,
    var: u32,
    lines: &mut CaseLines,
) -> Result<Option<u64>, PolyFault>
    requires q_place { q < length system.old.equations }
    requires p_place { p < length system.old.equations }
    requires can { CanReduceBy (equation_at system.old.equations q).poly (equation_at system.old.equations p).poly var }
    ensures grows { Grows lines.old lines.new }
    ensures answer { MatchResult result (λ at. IsReducedBy system.old q p var (all_lines lines.old) (all_lines lines.new) at system.new) (IsStepFault (equation_at system.old.equations q).poly (equation_at system.old.equations p).poly var) }
    ensures unchanged { OnErr result (system.new ≡ system.old) }
{
    let alloc = lines.allocator();
    let reduced = &system.equations()[q as usize];
    let by = &system.equations()[p as usize];
    let step = reduce_once(alloc, &reduced.poly, &by.poly, var, system.conditions())?;
    let made = Equation {
        poly: step.r.copy()?,
        item: Item::Line(lines.len() as u64),
    };
    lines.push(step_line(reduced.item, by.item, step))?;
    Ok(system.replace(q, made, lines)?)
}
