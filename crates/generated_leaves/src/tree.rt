//! Told trees.

ghost use Rattle.std.specs.Prelude.{◌<◌, ◌^◌, length};
ghost use Rattle.derivation.specs.Counted.{IsCounted};

use derivation::Tree;
use rule_trees::FullStructure;
use std::sync::Arc;

/// A lexical tree of a grammar, with its full structure, which trees of one chain share, and the predicates that it contributes.
#[derive(Drop)]
pub struct ToldTree {
    pub tree: Tree,
    pub full: Arc<FullStructure>,
    pub preds: Vec<String>,
    ghost counted: { IsCounted tree },
    ghost few: { length preds.items < 2 ^ 32 },
}
