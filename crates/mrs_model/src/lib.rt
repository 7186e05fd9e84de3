//! Minimal recursion semantics: MRSs, which of them are valid, and their equality up to renaming.
#![tactic(auto)]

mod bindings;
mod digest;
mod elements;
mod equality;
mod items;
mod join;
mod keyed;
mod keys;
mod order;
mod search;
mod texts;
mod valid;

ghost use Rattle.std.specs.Prelude.{◌≡◌};

pub use digest::digests_agree;
pub use equality::{Renaming, equality_is_an_equivalence, matching};
pub use std::alloc::AllocError as NoMemory;
pub use texts::{ends_name, first, is_name};

/// An MRS (Copestake, Flickinger, Pollard and Sag 2005). A variable is named by its place in `vars`, from 0.
#[derive(Debug, Drop)]
pub struct Mrs {
    /// The variable of the top handle.
    pub top: u32,
    /// The variable of the index.
    pub index: u32,
    pub vars: Vec<Var>,
    /// The elementary predications, in order of writing.
    pub eps: Vec<Ep>,
    /// The handle constraints, in order of writing.
    pub hcons: Vec<Hcon>,
    /// The individual constraints, in order of writing.
    pub icons: Vec<Icon>,
}

/// A variable: its sort, and its properties in byte order of their names.
#[derive(Debug, PartialEq, Eq, Drop)]
pub struct Var {
    pub sort: String,
    pub props: Vec<Prop>,
}

/// A property of a variable.
#[derive(Debug, PartialEq, Eq, Drop)]
pub struct Prop {
    pub name: String,
    pub value: String,
}

/// An elementary predication: its normalized predicate, the variable of its label, its roles in byte order of their names, and where in
/// the text it stands, if that is known.
#[derive(Debug, Drop)]
pub struct Ep {
    pub pred: String,
    pub label: u32,
    pub roles: Vec<Role>,
    pub span: Option<Extent>,
}

/// The part of a text between two places.
#[derive(Clone, Copy, Debug, PartialEq, Eq)]
pub struct Extent {
    pub from: u32,
    pub to: u32,
}

/// A role of an elementary predication and what fills it.
#[derive(Debug, Drop)]
pub struct Role {
    pub name: String,
    pub value: Value,
}

/// What fills a role.
#[derive(Debug, Drop)]
pub enum Value {
    /// The variable at this place.
    Var(u32),
    /// A text, as of a proper name.
    Text(String),
}

/// A handle constraint.
#[derive(Debug, Drop)]
pub struct Hcon {
    pub high: u32,
    pub rel: String,
    pub low: u32,
}

/// An individual constraint.
#[derive(Debug, Drop)]
pub struct Icon {
    pub left: u32,
    pub rel: String,
    pub right: u32,
}
