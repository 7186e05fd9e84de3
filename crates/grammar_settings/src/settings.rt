//! The settings of a grammar.

ghost use Rattle.std.specs.Prelude.{◌≡◌, ◌<◌, ◌^◌, ◌⊎◌, length, IfOk, IfErr, Ok, Err};
ghost use Rattle.grammar_settings.specs.Settled.{settings_in, default_settings};
ghost use Rattle.grammar_settings.specs.SettingsViews.{settings_of, IsLineOf};

use crate::NoMemory;
use crate::build::settings_by;
use crate::lines::{entries_of, line_of_types};
use std::alloc::{AllocError, AllocFailed, Global};

/// A sort of variables: a type in ASCII lower case, and the letters by which its variables are written.
#[derive(Drop)]
pub struct SortLine {
    pub ty: String,
    pub letters: String,
}

/// What a settings file may say, one field for each name of such a file. Types and features are in ASCII lower case.
#[derive(Drop)]
pub struct Settings {
    /// The most general type.
    pub top_type: String,
    /// The type above all strings.
    pub string_type: String,
    /// The type of lists.
    pub list_type: String,
    /// The type of lists with a first element.
    pub cons_type: String,
    /// The type of the empty list.
    pub null_type: String,
    /// The feature of a list's first element.
    pub first: String,
    /// The feature of the rest of a list.
    pub rest: String,
    /// The feature of a difference list's list.
    pub diff_list: String,
    /// The feature of a difference list's end.
    pub diff_last: String,
    /// The path of an entry's words.
    pub orth_path: Vec<String>,
    /// The path of a rule's daughters.
    pub args_path: Vec<String>,
    /// The features that are cut off a rule with its daughters. At least one.
    pub daughter_features: Vec<String>,
    /// The features that packing leaves out (Oepen and Carroll 2000).
    pub restrictors: Vec<String>,
    /// The greatest number of features in a path, 1 to 1,000.
    pub path_limit: u32,
    /// The greatest number of paths that the structure of a type or an instance may have, beside its root's: 1 to 10,000,000.
    pub node_limit: u32,
    /// The paths of the quick check, besides the root.
    pub check_paths: Vec<Vec<String>>,
    /// The file of irregular forms, as it is written.
    pub irregular_file: Option<String>,
    /// The path of a structure's MRS.
    pub mrs_path: Vec<String>,
    /// The path of a rule's own content.
    pub c_cont_path: Vec<String>,
    /// The path in an MRS to its top handle.
    pub ltop_path: Vec<String>,
    /// The path in an MRS to its index.
    pub index_path: Vec<String>,
    /// The feature of an MRS's relations.
    pub rels: String,
    /// The feature of an MRS's handle constraints.
    pub hcons: String,
    /// The feature of a relation's predicate.
    pub pred: String,
    /// The feature of a relation's label.
    pub lbl: String,
    /// The feature of a handle constraint's higher handle.
    pub harg: String,
    /// The feature of a handle constraint's lower handle.
    pub larg: String,
    /// The feature of an MRS's individual constraints.
    pub icons: String,
    /// The feature of an individual constraint's left variable.
    pub iarg1: String,
    /// The feature of an individual constraint's right variable.
    pub iarg2: String,
    /// The feature of the place at which a relation's words begin.
    pub cfrom: String,
    /// The feature of the place at which they end.
    pub cto: String,
    /// The features that are no roles.
    pub skip_roles: Vec<String>,
    /// The features that are no properties.
    pub skip_properties: Vec<String>,
    /// The sorts of variables, by the first line whose type fits.
    pub sort: Vec<SortLine>,
    /// The rules of transfer that are passed over.
    pub transfer_skip: Vec<String>,
}

/// Why a settings file is refused.
#[derive(Clone, Copy)]
pub enum SettingsFault {
    /// The first line that is outside the form, by its number from 1.
    Line { line: u32 },
    /// Memory was wanting.
    NoMemory,
}

impl From<AllocError> for SettingsFault {
    ghost use Rattle.grammar_settings.specs.declared.settings.SettingsFault.{SettingsFault};
    ghost use Rattle.std.specs.Prelude.{◌≡◌};

    ghost from_gives = { λ _ e. e ≡ SettingsFault.NoMemory };

    fn from(_: AllocError) -> SettingsFault {
        SettingsFault::NoMemory
    }
}

impl<T: Drop> From<AllocFailed<T>> for SettingsFault {
    ghost use Rattle.grammar_settings.specs.declared.settings.SettingsFault.{SettingsFault};
    ghost use Rattle.std.specs.Prelude.{◌≡◌};

    ghost from_gives = { λ _ e. e ≡ SettingsFault.NoMemory };

    fn from(_: AllocFailed<T>) -> SettingsFault {
        SettingsFault::NoMemory
    }
}

impl Settings {
    /// What a settings file says, or its first line outside the form.
    ///
    /// A line ends with byte 10. It is blank, begins with `;`, or is a name and values with white space between. A
    /// later line of a name replaces an earlier one, but the lines of `sort` add up. The names and the forms of their
    /// values stand in `specs/Forms.antt`; types and features are kept in ASCII lower case.
    pub fn read(alloc: Global, bytes: &[u8]) -> Result<Settings, SettingsFault>
        requires { length bytes.now < 2 ^ 32 }
        ensures settings { IfOk result (λ s. settings_in bytes.now ≡ Ok (settings_of s)) }
        ensures line { IfErr result (λ e. (e ≡ SettingsFault.NoMemory) ⊎ IsLineOf e (settings_in bytes.now)) }
    {
        let entries = entries_of(alloc, bytes)?;
        let settings = settings_by(alloc, &entries)?;
        if settings.top_type.as_str() == settings.string_type.as_str() {
            return Err(SettingsFault::Line {
                line: line_of_types(&entries),
            });
        }
        Ok(settings)
    }

    /// The settings without a settings file.
    pub fn default_names(alloc: Global) -> Result<Settings, NoMemory>
        ensures { IfOk result (λ s. settings_of s ≡ default_settings) }
    {
        settings_by(alloc, &[])
    }
}
