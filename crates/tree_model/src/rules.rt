//! What the rules of a grammar make of their daughters, and the laws of shapes.
//!
//! Mothers and their daughters: Copestake 2002. Restrictors, and packing by subsumption: Oepen and Carroll 2000.

ghost use Rattle.tree_model.specs.Said.{SaidIsSays, SaidCloses, SaidTrims, SaidIsConsistent, SameViews};
ghost use Rattle.tree_model.specs.Laws.{RulesKeepShapes, RulesAgree, LeavesAgree, TestsAreExact, OneCutDoes, NothingIsOwed, ShapesAreMade, FullsAreMade, LeavesAreMade, NoneWhereRefused, TestsAreSubsumption, TypesRefuse, CutTrims, StepsTrim, AnswersAreShort};

/// A law: every system of rules keeps the laws of shapes, and shapes agree with full structures. It does nothing.
pub fn shape_laws()
    ensures laws { RulesKeepShapes }
    ensures agreement { RulesAgree }
    ensures leaves { LeavesAgree }
    ensures tests { TestsAreExact }
    ensures one_cut { OneCutDoes }
    ensures owed { NothingIsOwed }
{}

/// A law: what unification with cuts answers for graphs is what rules make of their structures. It does nothing.
pub fn making_laws()
    ensures shapes { ShapesAreMade }
    ensures fulls { FullsAreMade }
    ensures leaves { LeavesAreMade }
    ensures refused { NoneWhereRefused }
    ensures subsumed { TestsAreSubsumption }
    ensures types { TypesRefuse }
    ensures cut { CutTrims }
    ensures steps { StepsTrim }
    ensures short { AnswersAreShort }
{}

/// A law: a graph and the list of what its structure says are the same facts, and graphs of one structure have the same list. It does nothing.
pub fn said_laws()
    ensures says { SaidIsSays }
    ensures closes { SaidCloses }
    ensures trims { SaidTrims }
    ensures consistent { SaidIsConsistent }
    ensures views { SameViews }
{}
