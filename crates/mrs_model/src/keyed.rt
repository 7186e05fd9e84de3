//! Elements with their keys.

ghost use Rattle.std.specs.Prelude.{◌≡◌};
ghost use Rattle.mrs_model.specs.Inner.Elements.{key_of};
ghost use Rattle.mrs_model.specs.Inner.Items.{of_item};

use crate::items::Item;

/// An element of an MRS with its key, and how many elements of that MRS were found to have this key. Elements with different keys differ
/// under every map of variables.
#[derive(Clone, Copy)]
pub(crate) struct Keyed<'a> {
    pub(crate) key: u64,
    pub(crate) count: usize,
    pub(crate) item: Item<'a>,
    ghost keyed: { key ≡ key_of (of_item item) },
}
