//! Laws of what rules contribute.

ghost use Rattle.generated_leaves.specs.Laws.{OwnsAreEven, OwnsAgree, OwnsAreTold};

/// A law: there are as many counts as phrase rules (`even`), those by place are those by number (`agree`), and by place they tell what
/// the rules contribute to an input (`told`). It does nothing.
pub fn rule_laws()
    ensures even { OwnsAreEven }
    ensures agree { OwnsAgree }
    ensures told { OwnsAreTold }
{}
