//! Trees put together by their texts.

ghost use Rattle.std.specs.Prelude.{IfOk};
ghost use Rattle.mrs_generate.specs.Inner.Put.{InOrder, IsPut};
ghost use Rattle.mrs_generate.specs.Views.{answer_seen};

use crate::{GenAnswer, NoMemory};
use packed_items::Found;
use realized_trees::sentences_of;
use std::alloc::Global;

/// What is found over the leaves of an input, as its answer: of trees with one text the least stands for them.
pub(crate) fn put_together(alloc: Global, found: Found) -> Result<GenAnswer, NoMemory>
    requires { InOrder found }
    ensures { IfOk result (λ a. IsPut found (answer_seen a)) }
{
    match found {
        Found::UnaryChain => Ok(GenAnswer::UnaryChain),
        Found::Edges => Ok(GenAnswer::Edges),
        Found::Readings => Ok(GenAnswer::Readings),
        Found::Trees { classes, trees } => {
            let sentences = sentences_of(alloc, trees)?;
            Ok(GenAnswer::Sentences { classes, sentences })
        }
    }
}
