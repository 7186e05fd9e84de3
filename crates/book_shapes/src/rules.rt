//! Rules without their daughters.

ghost use Rattle.std.specs.Prelude.{◌≡◌, IfOk};
ghost use Rattle.closed_lists.specs.Names.{names_of};
ghost use Rattle.constraint_expand.specs.Books.{numbered_of};
ghost use Rattle.book_shapes.specs.Shapes.{lists_of, instances_of, HasItsDaughters, AreReadable, IsFirstPlace};

use crate::has_daughters;
use closed_lists::ListNames;
use constraint_expand::{Book, BookNames};
use lexicon::NoMemory;
use std::alloc::Global;

/// What a grammar's lists are made of.
pub fn list_names(names: &BookNames) -> ListNames
    ensures { names_of result ≡ lists_of (numbered_of names.now) }
{
    ListNames {
        cons: names.cons,
        null: names.null,
        first: names.first,
        rest: names.rest,
    }
}

/// The place of the first rule without its daughters, or the number of all instances where each has them.
pub fn first_without_daughters(alloc: Global, book: &Book) -> Result<usize, NoMemory>
    requires { AreReadable book.now }
    ensures { IfOk result (λ k. IsFirstPlace (HasItsDaughters book.now) (instances_of book.now) k) }
{
    let types = book.system.types();
    let limit = book.system.path_limit();
    let lists = list_names(&book.names);
    let args = &book.names.args_path;
    for i in 0..book.instances.len() {
        let instance = &book.instances[i];
        let status = instance.status;
        let structure = &instance.structure;
        if !has_daughters(alloc, types, &lists, args, status, structure, limit)? {
            return Ok(i);
        }
    }
    Ok(book.instances.len())
}
