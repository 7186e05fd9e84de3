//! Laws of what a grammar's statements settle.

ghost use Rattle.std.specs.Prelude.{◌≡◌, ◌⊎◌};
ghost use Rattle.type_hierarchy.specs.Table.{TypeTable};
ghost use Rattle.grammar_files.specs.Faults.{FoundFault};
ghost use Rattle.grammar_files.specs.declared.walking.Walked.{Walked};
ghost use Rattle.grammar_files.specs.Walks.{WalkedTree};
ghost use Rattle.grammar_files.specs.WalkViews.{walked_of, CanSettle};
ghost use Rattle.grammar_types.specs.Outcomes.{HaveTexts};
ghost use Rattle.grammar_types.specs.Typings.{AreTypesOf, IsTypesFault, IsSameFault};

/// The types of what was walked are one table, or there is one fault, and never both. A fault's names are compared by their
/// bytes.
pub fn one_settling()
    ensures tables { (w : WalkedTree) (t u : TypeTable) → AreTypesOf w t → AreTypesOf w u → t ≡ u }
    ensures faults { (w : WalkedTree) (f g : FoundFault) → IsTypesFault w f → IsTypesFault w g → IsSameFault f g }
    ensures not_both { (w : WalkedTree) (t : TypeTable) (f : FoundFault) → AreTypesOf w t → IsTypesFault w f → ⊥ }
{}

/// Statements always settle types or have a first fault, where the names in them are texts; and those of what was walked are.
pub fn each_outcome()
    ensures types { (w : WalkedTree) → CanSettle w → HaveTexts w.statements
        → ((t : TypeTable) × AreTypesOf w t) ⊎ ((f : FoundFault) × IsTypesFault w f) }
    ensures texts { (walked : Walked) → HaveTexts (walked_of walked).statements }
{}
