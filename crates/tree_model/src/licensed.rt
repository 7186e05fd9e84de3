//! The trees that a grammar licenses for a lattice of words, and the answer to a line, over trees and sets of classes alone.
//!
//! Trees of a typed feature structure grammar: Copestake 2002. Packing by subsumption: Oepen and Carroll 2000.

ghost use Rattle.tree_model.specs.Licensed.{LicensedAreWanted};
ghost use Rattle.tree_model.specs.Answers.{ForestsAreLicensed, FoundIsAnswer, ParseAnswersAreOne};

/// A law: what a finished and unpacked chart gives is the answer to a line. It does nothing.
///
/// The licensed trees of a lattice are those that its item over spans asks for (`wanted`). Where no limit on classes or
/// chains is broken, the accepted trees of a finished chart's forest are exactly the licensed ones (`licensed`), so what chart
/// and unpacking give is the answer (`found`), and a line has one answer (`one`).
pub fn parse_laws()
    ensures wanted { LicensedAreWanted }
    ensures licensed { ForestsAreLicensed }
    ensures found { FoundIsAnswer }
    ensures one { ParseAnswersAreOne }
{}
