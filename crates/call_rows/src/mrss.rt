//! Whether MRSs are equal up to renaming.

ghost use Rattle.mrs_model.specs.Valid.{IsValid};
ghost use Rattle.mrs_model.specs.Views.{meaning_of};

use crate::steps::push;
use mrs_model::{Mrs, matching};
use mrs_text::read;
use std::alloc::{AllocError, Global};

// `match TEXT = TEXT` asks whether the MRSs of two texts are equal up to renaming.
pub fn matched(alloc: Global, rest: &str, out: &mut Vec<u8>) -> Result<(), AllocError> {
    let Some((left, right)) = rest.split_once(" = ") else {
        return push(out, "no two texts");
    };
    match read(alloc, left.as_bytes()) {
        Ok(left) => beside(alloc, &left, right, out),
        Err(_) => push(out, "no MRS"),
    }
}

fn beside(alloc: Global, left: &Mrs, right: &str, out: &mut Vec<u8>) -> Result<(), AllocError>
    requires { IsValid (meaning_of left.now) }
{
    match read(alloc, right.as_bytes()) {
        Ok(right) => push(out, compare(alloc, left, &right)),
        Err(_) => push(out, "no MRS"),
    }
}

fn compare(alloc: Global, left: &Mrs, right: &Mrs) -> &'static str
    requires left { IsValid (meaning_of left.now) }
    requires right { IsValid (meaning_of right.now) }
{
    match matching(alloc, left, right) {
        Ok(Some(_)) => "Some",
        Ok(None) => "None",
        Err(_) => "no memory",
    }
}
