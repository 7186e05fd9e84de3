//! Where a fault of shape stands.

ghost use Rattle.std.specs.Prelude.{◌≡◌, ◌<◌, length, map, option_map, slice_get};
ghost use Rattle.grammar_files.specs.Placings.{placed_of};
ghost use Rattle.grammar_files.specs.Statements.{instances_in};
ghost use Rattle.grammar_files.specs.Faults.{IsFaultBy};
ghost use Rattle.grammar_files.specs.WalkViews.{walked_of};
ghost use Rattle.grammar_types.specs.Typings.{fault_of, statement_at};

use grammar_files::placed_statements::{defines_instance, place_of};
use grammar_files::{LoadFault, Placed, Walked, Why, found};
use grammar_types::file_name;
use std::alloc::Global;

// The statement of an instance by its place among the instances.
fn instance_at(statements: &[Placed], place: usize) -> Option<&Placed>
    ensures { option_map (λ p. placed_of p.now) result ≡ slice_get (instances_in (map placed_of statements.now)) place }
{
    let mut seen = 0;
    for i in 0..statements.len() {
        let placed = &statements[i];
        if defines_instance(placed) {
            if seen == place {
                return Some(placed);
            }
            seen += 1;
        }
    }
    None
}

/// A fault at the statement of an instance.
pub(crate) fn shape_fault(alloc: Global, walked: &Walked, place: usize, why: Why) -> LoadFault
    requires { place < length (instances_in (walked_of walked.now).statements) }
    ensures { IsFaultBy (λ f. f ≡ fault_of (walked_of walked.now) (statement_at (instances_in (walked_of walked.now).statements) place) why) result }
{
    match instance_at(&walked.statements, place) {
        Some(placed) => found(
            alloc,
            file_name(walked, placed.file as usize),
            place_of(&placed.statement),
            why,
        ),
        None => LoadFault::NoMemory,
    }
}
