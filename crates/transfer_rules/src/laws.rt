//! Laws of rules.

ghost use Rattle.std.specs.Prelude.{◌≡◌, ℕ, List, All};
ghost use Rattle.tdl_reader.specs.Trees.{StatementTree};
ghost use Rattle.transfer_model.specs.Rules.{Rule, IsRule};
ghost use Rattle.transfer_rules.specs.Forms.{AreRules, IsFirstOutside};

/// A law: statements say one list of rules. It does nothing.
pub fn one_rules()
    ensures { (ss : List StatementTree) (a b : List Rule) → AreRules ss a → AreRules ss b → a ≡ b }
{}

/// A law: statements that say rules have none outside the form. It does nothing.
pub fn rules_or_fault()
    ensures { (ss : List StatementTree) (rs : List Rule) (at : ℕ) → AreRules ss rs → IsFirstOutside ss at → ⊥ }
{}

/// A law: statements have one first that is outside the form. It does nothing.
pub fn one_outside()
    ensures { (ss : List StatementTree) (a b : ℕ) → IsFirstOutside ss a → IsFirstOutside ss b → a ≡ b }
{}

/// A law: the rules that statements say are whole. It does nothing.
pub fn all_rules()
    ensures { (ss : List StatementTree) (rs : List Rule) → AreRules ss rs → All IsRule rs }
{}
