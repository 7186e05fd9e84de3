//! The names that a grammar's settings give to what has no name of its own in TDL.

/// The names of the list types, of the features of lists and difference lists, and of what rules and roots look at.
/// Types and features are in ASCII lower case.
#[derive(Debug, Drop)]
pub struct Names {
    /// The type of any list.
    pub list: String,
    /// The type of a list with an item.
    pub cons: String,
    /// The type of a list without items.
    pub null: String,
    /// The feature of a list's first item.
    pub first: String,
    /// The feature of the list of all other items.
    pub rest: String,
    /// The feature of a difference list's list.
    pub diff_list: String,
    /// The feature of the end of a difference list's list.
    pub diff_last: String,
    /// The path to a rule's daughters.
    pub args_path: Vec<String>,
    /// The features that a mother loses once she is made.
    pub daughter_features: Vec<String>,
    /// The features that abstract structures lack.
    pub restrictors: Vec<String>,
    /// The paths whose types are looked at before unification.
    pub check_paths: Vec<Vec<String>>,
    /// The greatest number of features that a path may have.
    pub path_limit: u32,
    /// The greatest number of paths that the structure of a type or an instance may have, beside its root's.
    pub node_limit: u32,
}
