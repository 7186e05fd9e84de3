//! What closure needs of a grammar.

ghost use Rattle.std.specs.Prelude.{◌≡◌, ℕ, ◌<◌, length, true, IfOk, IfSome, slice_index_or};
ghost use Rattle.type_hierarchy.specs.Table.{count_of, is_below};
ghost use Rattle.fs_closing.specs.Constraints.{IsConstraint};
ghost use Rattle.fs_graph.specs.Facts.{claims_of};
ghost use Rattle.fs_closing.specs.Rules.{IsGrammar, rules_above, no_rule, IsClaimIn, HaveSame};
ghost use Rattle.fs_closing.specs.Systems.{grammar_of};
ghost use Rattle.fs_model.specs.Claims.{Claim, Has};

use crate::NoMemory;
use crate::constraint::Constraint;
use crate::facts::TypeFacts;
use crate::rule_rows::{RuleRows, rule_rows};
use fs_graph::Fact;
use std::alloc::Global;
use std::marker::Model;
use type_hierarchy::{Ty, Types};

/// The types of a grammar, the introducer of each feature by number, the facts of types, and the greatest number of features
/// that a path may have.
#[derive(Drop)]
pub struct TypeSystem {
    types: Types,
    introducers: Vec<Ty>,
    constraints: Vec<TypeFacts>,
    above: RuleRows,
    known: Vec<Constraint>,
    starts: Vec<u32>,
    path_limit: u32,
}

impl Model for TypeSystem {
    ghost use Rattle.fs_closing.specs.Rules.{Grammar};

    ghost Value = { Grammar };

    ghost use Rattle.std.specs.Prelude.{map};
    ghost use Rattle.fs_closing.specs.Systems.{grammar_of, IsSystemInside};

    ghost view = { λ s. grammar_of s.types s.introducers.items s.constraints.items s.path_limit };

    ghost invariant = { λ s. IsSystemInside (grammar_of s.types s.introducers.items s.constraints.items s.path_limit) (map (λ row. row.items) s.above.rows.items) s.above.row_of.items s.known.items s.starts.items };
}

impl TypeSystem {
    /// A type system of these parts. The facts of a type are those of all its entries in `constraints`, and no facts where it
    /// has none.
    pub fn new(
        alloc: Global,
        types: Types,
        introducers: Vec<Ty>,
        constraints: Vec<TypeFacts>,
        path_limit: u32,
    ) -> Result<TypeSystem, NoMemory>
        requires { IsGrammar (grammar_of types introducers.items constraints.items path_limit) }
        ensures { IfOk result (λ s. s ≡ grammar_of types introducers.items constraints.items path_limit) }
    {
        if constraints.len() > u32::MAX as usize {
            return Err(NoMemory);
        }
        let above = rule_rows(alloc, &types, &constraints)?;
        let starts = vec![in alloc; 0u32; types.counts().all as usize]?;
        Ok(TypeSystem {
            types,
            introducers,
            constraints,
            above,
            known: Vec::new(alloc),
            starts,
            path_limit,
        })
    }

    /// The constraint of a type is known from now on. `NoMemory` comes only for want of memory, or of numbers for constraints.
    pub fn know(&mut self, constraint: Constraint) -> Result<(), NoMemory>
        requires ty_in { constraint.ty < count_of self.old.types }
        requires known { IsConstraint self.old constraint.ty constraint.graph }
        ensures { self.new ≡ self.old }
    {
        let Ok(place) = u32::try_from(self.known.len() + 1) else {
            return Err(NoMemory);
        };
        let ty = constraint.ty;
        self.known.push(constraint)?;
        self.starts[ty as usize] = place;
        Ok(())
    }

    // The constraint of a type, if it is known.
    fn constraint(&self, t: u32) -> Option<&Constraint>
        requires { t < count_of self.now.types }
        ensures { IfSome result (λ k. (k.now.ty ≡ t) × IsConstraint self.now t k.now.graph) }
    {
        let behind = self.starts[t as usize];
        if behind == 0 {
            return None;
        }
        Some(&self.known[behind as usize - 1])
    }

    // Of the known constraints of the types above a type of which there are rules, the one whose graph has most nodes.
    fn greatest_above(&self, t: u32) -> Option<&Constraint>
        requires { t < count_of self.now.types }
        ensures { IfSome result (λ k. (is_below self.now.types t k.now.ty ≡ true) × IsConstraint self.now k.now.ty k.now.graph) }
    {
        let mut best = None;
        let mut most = 1;
        for rule in self.rules_above(t) {
            let Some(known) = self.constraint(self.rule_type(*rule)) else {
                continue;
            };
            let nodes = known.graph.graph().nodes();
            if nodes <= most {
                continue;
            }
            most = nodes;
            best = Some(known);
        }
        best
    }

    /// The constraint of a type, or one of a type above it, as far as constraints are known and have more than one node.
    pub fn constraint_above(&self, t: u32) -> Option<&Constraint>
        requires { t < count_of self.now.types }
        ensures { IfSome result (λ k. (is_below self.now.types t k.now.ty ≡ true) × IsConstraint self.now k.now.ty k.now.graph) }
    {
        self.types.laws();
        if let Some(known) = self.constraint(t) {
            if known.graph.graph().nodes() > 1 {
                return Some(known);
            }
            return None;
        }
        self.greatest_above(t)
    }

    /// The types.
    pub fn types(&self) -> &Types
        ensures { result.now ≡ self.now.types }
    {
        &self.types
    }

    /// The greatest number of features that a path may have.
    pub fn path_limit(&self) -> u32
        ensures limit { result ≡ self.now.path_limit }
        ensures grammar { IsGrammar self.now }
    {
        self.path_limit
    }

    /// A law: no type and no feature of the grammar is out of range. It does nothing.
    pub fn laws(&self)
        ensures { IsGrammar self.now }
    {
        let _ = &self.path_limit;
    }

    /// The type that introduces a feature.
    pub fn introducer(&self, feat: u32) -> u32
        requires { feat < length self.now.introducers }
        ensures value { result ≡ slice_index_or self.now.introducers feat 0 }
        ensures within { result < count_of self.now.types }
    {
        self.introducers[feat as usize].0
    }

    /// The places of the entries of `constraints` that have facts and whose type is at or above a type, in any order.
    pub fn rules_above(&self, t: u32) -> &[u32]
        requires { t < count_of self.now.types }
        ensures { HaveSame result.now (rules_above self.now.types self.now.rules t) }
    {
        let row = self.above.row_of[t as usize];
        &self.above.rows[row as usize]
    }

    /// How many entries `constraints` has.
    pub fn rule_count(&self) -> u32
        ensures { result ≡ length self.now.rules }
    {
        self.constraints.len() as u32
    }

    /// The type of an entry of `constraints`.
    pub fn rule_type(&self, rule: u32) -> u32
        requires { rule < length self.now.rules }
        ensures value { result ≡ (slice_index_or self.now.rules rule no_rule).ty }
        ensures within { result < count_of self.now.types }
    {
        self.constraints[rule as usize].ty.0
    }

    /// The facts of an entry of `constraints`.
    pub fn facts(&self, rule: u32) -> &[Fact]
        requires { rule < length self.now.rules }
        ensures value { claims_of result.now ≡ (slice_index_or self.now.rules rule no_rule).claims }
        ensures within { (c : Claim) → Has c (claims_of result.now) → IsClaimIn (count_of self.now.types) (length self.now.introducers) c }
    {
        &self.constraints[rule as usize].facts
    }
}
