//! Where the MRS of a structure stands, and why there may be none.

ghost use Rattle.std.specs.Prelude.{◌≡◌};
ghost use Rattle.mrs_places.specs.declared.paths.NoMrs.TheVariants.{NoMemory as Wanting};

use fs_graph::Feat;
pub use std::alloc::AllocError as NoMemory;
use std::alloc::{AllocError, AllocFailed};
use type_hierarchy::Ty;

/// A feature of the settings: its name, and its number where the grammar has it.
#[derive(Debug, Drop)]
pub struct MrsFeat {
    pub name: String,
    pub feat: Option<Feat>,
}

/// A line of the setting `sort`: a type, where the grammar has it, and the letters of its variables.
#[derive(Debug, Drop)]
pub struct MrsSort {
    pub ty: Option<Ty>,
    pub letters: String,
}

/// Where the MRS of a structure stands, by the settings. A type or a feature that the grammar doesn't have is `None`.
#[derive(Debug, Drop)]
pub struct MrsPaths {
    /// The path of the MRS.
    pub mrs_path: Vec<MrsFeat>,
    /// The paths in it to its top handle and to its index.
    pub ltop_path: Vec<MrsFeat>,
    pub index_path: Vec<MrsFeat>,
    /// The name of the type above all strings.
    pub string_type: String,
    /// The type of lists with a first element, and that of the empty list.
    pub cons: Option<Ty>,
    pub null: Option<Ty>,
    /// The features of a list's first element and of its rest, and those of a difference list's list and end.
    pub first: MrsFeat,
    pub rest: MrsFeat,
    pub diff_list: MrsFeat,
    pub diff_last: MrsFeat,
    /// The features of an MRS's relations and of its handle constraints.
    pub rels: MrsFeat,
    pub hcons: MrsFeat,
    /// The features of a relation's predicate and of its label.
    pub pred: MrsFeat,
    pub lbl: MrsFeat,
    /// The features of a handle constraint's higher and lower handle.
    pub harg: MrsFeat,
    pub larg: MrsFeat,
    /// The features of an MRS's individual constraints, and of the two variables of each.
    pub icons: MrsFeat,
    pub iarg1: MrsFeat,
    pub iarg2: MrsFeat,
    /// The features of the places at which a relation's words begin and end.
    pub cfrom: MrsFeat,
    pub cto: MrsFeat,
    /// The features that are no roles, and those that are no properties.
    pub skip_roles: Vec<MrsFeat>,
    pub skip_properties: Vec<MrsFeat>,
    /// The sorts of variables. The first whose type fits holds.
    pub sorts: Vec<MrsSort>,
    /// The names of all features of the grammar, by number.
    pub feats: Vec<String>,
}

/// Why a structure has no MRS.
#[derive(Debug, Drop)]
pub enum NoMrs {
    /// The first path whose node or form is absent, by the names of its features.
    Absent { path: Vec<String> },
    /// Memory was wanting.
    NoMemory,
}

impl From<AllocError> for NoMrs {
    ghost from_gives = { λ _ e. e ≡ Wanting };

    fn from(_: AllocError) -> NoMrs {
        NoMrs::NoMemory
    }
}

impl<T: Drop> From<AllocFailed<T>> for NoMrs {
    ghost from_gives = { λ _ e. e ≡ Wanting };

    fn from(_: AllocFailed<T>) -> NoMrs {
        NoMrs::NoMemory
    }
}
