//! Equations under known conditions.
ghost use Rattle.std.specs.Prelude.{◌≡◌, ◌≢◌, ◌<◌, ◌↔◌, [], IsTrue, IfOk, OnErr, MatchOption, length, remove};
ghost use Rattle.sparse_poly.specs.Reads.{degree_in};
ghost use Rattle.sparse_poly.specs.Clearing.{IsDividedBy};
ghost use Rattle.case_rules.specs.Cases.{equation_at};
ghost use Rattle.case_rules.specs.Kept.{added};
ghost use Rattle.case_rules.specs.Rules.{None_has, IsLowestDividing};
ghost use Rattle.case_system.specs.Appending.{Grows};
ghost use Rattle.case_system.specs.CaseLines.{all_lines};
ghost use Rattle.case_system.specs.Clean.{IsBare};
ghost use Rattle.case_system.specs.Places.{Ascend};

use crate::clearing::{clear_equation, clear_equations, strip_equations};
use crate::conditions::Conditions;
use crate::copies::copied_list;
use crate::kept::{Kept, KeptList, add, new_facts, replace_at};
use crate::lines::CaseLines;
use crate::variables::{contains_variable, lowest_dividing};
use case_rules::Equation;
use sparse_poly::Poly;
use std::alloc::{AllocError, Global};
use std::marker::Model;

/// Equations with their items, in ascending order, and the known conditions, the oldest first.
#[derive(Drop)]
pub struct System {
    conditions: Conditions,
    list: KeptList,
}

impl Model for System {
    ghost use Rattle.case_system.specs.Systems.{SystemState};
    ghost use Rattle.case_system.specs.Facts.{IsKept};

    ghost Value = { SystemState };

    ghost view = { λ s. record { conditions = s.conditions; equations = s.list.equations.items } };

    ghost invariant = { λ s. IsKept s.conditions s.list.equations.items s.list.facts.items };
}

impl System {
    ghost use Rattle.case_system.specs.Systems.{with_equations, IsAddedCleared, IsReplaced, HasCondition};

    /// Equations with no known condition. It fails only where no memory is left.
    pub fn new(alloc: Global, equations: Vec<Equation>) -> Result<System, AllocError>
        requires { Ascend equations.items }
        ensures { IfOk result (λ s. s ≡ record { conditions = []; equations = equations.items }) }
    {
        let facts = new_facts(alloc, &equations)?;
        Ok(System {
            conditions: Conditions::new(alloc),
            list: KeptList { equations, facts },
        })
    }

    /// Equal equations under equal conditions. It fails only where no memory is left.
    pub fn copy(&self) -> Result<System, AllocError>
        ensures { IfOk result (λ s. s ≡ self.now) }
    {
        Ok(System {
            conditions: self.conditions.copy()?,
            list: copied_list(&self.list)?,
        })
    }

    /// The known conditions, the oldest first.
    pub fn conditions(&self) -> &[Poly]
        ensures { result.now ≡ self.now.conditions }
    {
        self.conditions.polys()
    }

    /// The equations, in ascending order.
    pub fn equations(&self) -> &[Equation]
        ensures { result.now ≡ self.now.equations }
    {
        &self.list.equations
    }

    /// Whether a variable occurs in the equation at a place. The polynomial is read only where its outline has the variable.
    #[inline(always)]
    pub fn contains(&self, i: u64, var: u32) -> bool
        requires { i < length self.now.equations }
        ensures { IsTrue result ↔ (0 < degree_in var (equation_at self.now.equations i).poly) }
    {
        let i = i as usize;
        self.list.facts[i].outline.may_contain(var)
            && contains_variable(&self.list.equations[i].poly, var)
    }

    /// The lowest variable that divides the equation at a place. The polynomial is read only where its outline has a variable of each term.
    #[inline(always)]
    pub fn lowest_dividing(&self, i: u64) -> Option<u32>
        requires place { i < length self.now.equations }
        requires nonzero { (equation_at self.now.equations i).poly ≢ [] }
        ensures { MatchOption result (None_has (λ v. IsDividedBy v (equation_at self.now.equations i).poly)) (IsLowestDividing (equation_at self.now.equations i).poly) }
    {
        let i = i as usize;
        if !self.list.facts[i].outline.may_be_divided() {
            return None;
        }
        lowest_dividing(&self.list.equations[i].poly)
    }

    /// Removes the equation at a place.
    pub fn remove(&mut self, i: u64)
        requires { i < length self.old.equations }
        ensures { self.new ≡ with_equations self.old (remove self.old.equations i) }
    {
        let _removed = self.list.equations.remove(i as usize);
        let _facts = self.list.facts.remove(i as usize);
    }

    /// Adds an equation at its place in the order. Zero is dropped, and of two equations with one polynomial the older item stays. It fails only
    /// where no memory is left.
    pub fn add(&mut self, equation: Equation) -> Result<(), AllocError>
        ensures { IfOk result (λ _. self.new ≡ with_equations self.old (added equation self.old.equations)) }
    {
        add(&mut self.list, Kept::new(equation))
    }

    /// Clears an equation, which is stripped, of the known conditions, with the lines for it, and adds what is left. It fails only where no memory
    /// is left; then some lines may have been appended.
    pub fn add_cleared(
        &mut self,
        equation: Equation,
        lines: &mut CaseLines,
    ) -> Result<(), AllocError>
        requires { IsBare self.old.conditions equation.poly }
        ensures { IfOk result (λ _. IsAddedCleared self.old (all_lines lines.old) equation (all_lines lines.new) self.new) }
    {
        let alloc = lines.allocator();
        let rest = clear_equation(alloc, &self.conditions, Kept::new(equation), lines)?;
        add(&mut self.list, rest)
    }

    /// Clears an equation, which is stripped, of the known conditions, with the lines for it, and adds what is left in place of equation `q`. The
    /// answer is the place of what is left, where it is a new equation. It fails only where no memory is left; then some lines may have been
    /// appended, and the equations are unchanged.
    pub fn replace(
        &mut self,
        q: u64,
        equation: Equation,
        lines: &mut CaseLines,
    ) -> Result<Option<u64>, AllocError>
        requires place { q < length self.old.equations }
        requires stripped { IsBare self.old.conditions equation.poly }
        ensures grows { Grows lines.old lines.new }
        ensures replaced { IfOk result (λ at. IsReplaced self.old q (all_lines lines.old) equation (all_lines lines.new) at self.new) }
        ensures unchanged { OnErr result (self.new ≡ self.old) }
    {
        let alloc = lines.allocator();
        let rest = clear_equation(alloc, &self.conditions, Kept::new(equation), lines)?;
        Ok(replace_at(&mut self.list, q as usize, rest))
    }

    /// The same equations with one more known condition: all are stripped, in their order, and then all are cleared, with the lines for it. It
    /// fails only where no memory is left; then some lines may have been appended.
    pub fn with_condition(&self, by: &Poly, lines: &mut CaseLines) -> Result<System, AllocError>
        ensures { IfOk result (λ s. HasCondition self.now by.now (all_lines lines.old) (all_lines lines.new) s) }
    {
        let alloc = lines.allocator();
        let conditions = self.conditions.with(by)?;
        let stripped = strip_equations(alloc, conditions.polys(), &self.list, lines)?;
        let list = clear_equations(alloc, &conditions, stripped, lines)?;
        Ok(System { conditions, list })
    }
}
