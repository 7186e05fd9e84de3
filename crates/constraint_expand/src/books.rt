//! What a grammar's statements expand to.

use fs_graph::{Feat, Graph};
use fs_unify::{SharedGraph, TypeSystem};
use tdl_reader::Status;
use type_hierarchy::Ty;

/// A grammar's type system with the structures of its types and instances (Copestake 2002: constraints of types).
#[derive(Drop)]
pub struct Book {
    /// The types, the introducers of features, the facts of types and the limit on paths.
    pub system: TypeSystem,
    /// The constraint of each completed type, by number.
    pub constraints: Vec<SharedGraph>,
    /// The names of the features by number: in byte order, in ASCII lower case.
    pub feats: Vec<String>,
    /// The entries, lexical rules, rules and roots in order of reading.
    pub instances: Vec<Instance>,
    /// What the settings name.
    pub names: BookNames,
}

/// An entry, a lexical rule, a rule or a root with its structure.
#[derive(Drop)]
pub struct Instance {
    pub status: Status,
    pub structure: Graph,
}

/// What the settings name, by number. `None` stands for a name that the grammar doesn't have.
#[derive(Drop)]
pub struct BookNames {
    /// The type of any list.
    pub list: Option<Ty>,
    /// The type of a list with an item.
    pub cons: Option<Ty>,
    /// The type of a list without items.
    pub null: Option<Ty>,
    /// The feature of a list's first item.
    pub first: Option<Feat>,
    /// The feature of the list of all other items.
    pub rest: Option<Feat>,
    /// The feature of a difference list's list.
    pub diff_list: Option<Feat>,
    /// The feature of the end of a difference list's list.
    pub diff_last: Option<Feat>,
    /// The path to a rule's daughters.
    pub args_path: Vec<Option<Feat>>,
    /// The features that a mother loses once she is made.
    pub daughter_features: Vec<Option<Feat>>,
    /// The features that abstract structures lack.
    pub restrictors: Vec<Option<Feat>>,
    /// The paths whose types are looked at before unification.
    pub check_paths: Vec<Vec<Option<Feat>>>,
    /// The greatest number of features that a path may have.
    pub path_limit: u32,
}
