//! Claims on paths, their closure, and tables of nodes that stand for it.
//!
//! Typed feature structures, their well-formedness and their unification: Copestake 2002.
#![tactic(auto)]

ghost use Rattle.fs_model.specs.Laws.{ClosureGrows, ConsistencyFalls, ListsAgree, AnswerIsOne, TablesStart, PartsFollow, WorkAdvances, WorkDrops, TableGrows, TableLinks, TableMerges, TableLowers, TableJoins, TypesClash, PathsClash, WalksClash, CyclesClash, TableIsUnified, NumbersAreOne, MatchingSubsumes};

/// The laws of the closure. It does nothing.
///
/// More claims give a larger closure, and what is consistent with more claims is consistent with fewer. The rule of inference
/// may be read over lists of types or over two types at a time. Unification has one answer.
pub fn closure_laws()
    ensures grows { ClosureGrows }
    ensures falls { ConsistencyFalls }
    ensures lists { ListsAgree }
    ensures one { AnswerIsOne }
{}

/// The laws of tables. It does nothing.
///
/// Each step leaves a table and its work between the given claims and their closure. A table without work is the structure
/// of the closure; two types without a meet, a path that is too long and a cycle show that there is none.
pub fn table_laws()
    ensures starts { TablesStart }
    ensures parts { PartsFollow }
    ensures advances { WorkAdvances }
    ensures drops { WorkDrops }
    ensures grows { TableGrows }
    ensures links { TableLinks }
    ensures merges { TableMerges }
    ensures lowers { TableLowers }
    ensures joins { TableJoins }

    ensures types { TypesClash }
    ensures paths { PathsClash }
    ensures walks { WalksClash }
    ensures cycles { CyclesClash }
    ensures unified { TableIsUnified }
{}

/// The laws of graphs. It does nothing.
///
/// A structure has one table whose nodes are numbered by their least paths. A map of nodes that keeps the root and the arcs
/// and lowers the types shows that one structure subsumes the other.
pub fn graph_laws()
    ensures numbers { NumbersAreOne }
    ensures matching { MatchingSubsumes }
{}
