//! The parents of types by number.

ghost use Rattle.std.specs.Prelude.{◌≡◌, ◌≢◌, ℕ, ◌<◌, ◌≤◌, ◌++◌, map, length, position, unwrap_or, IsTrue, IfOk, IfErr, OnOk, true, false};
ghost use Rattle.type_hierarchy.specs.Decls.{declared, decls_of, texts, unwritten, names_of, parent_names, number_of, parents_of};
ghost use Rattle.type_hierarchy.specs.Faults.{HasNoUnknown};
ghost use Rattle.type_hierarchy.specs.Inner.Reach.{lists};
ghost use Rattle.type_hierarchy.specs.Inner.Parents.{AllKnown, IsUnknownOf, IsUnknownFault, implied};

use crate::decl::{Decl, TypeFault};
use crate::names::{is_declared, number};
use indexmap::IndexSet;
use std::alloc::{AllocError, Global};

/// The number of a name, and 0 for a name that no type has.
pub fn number_of(names: &IndexSet<String>, name: &str) -> usize
    ensures { result ≡ number_of (texts names.now.keys) name.now }
{
    number(names, name).unwrap_or(0)
}

// The parents of a type that is declared.
fn parent_numbers(
    alloc: Global,
    names: &IndexSet<String>,
    top: &str,
    decl: &Decl,
) -> Result<Vec<usize>, TypeFault>
    ensures numbers { IfOk result (λ v. v.items ≡ map (number_of (texts names.now.keys)) (parent_names top.now (declared decl.now))) }
    ensures known { OnOk result (AllKnown (texts names.now.keys) (declared decl.now)) }
    ensures unknown { IfErr result (IsUnknownOf (texts names.now.keys) (declared decl.now)) }
{
    let mut numbers = Vec::new(alloc);
    if decl.parents.is_empty() && decl.name.as_str() != top {
        numbers.push(number_of(names, top))?;
    }
    for parent in &decl.parents {
        match number(names, parent.as_str()) {
            Some(place) => numbers.push(place)?,
            None => {
                return Err(TypeFault::Unknown {
                    name: decl.name.clone()?,
                    parent: parent.clone()?,
                });
            }
        }
    }
    Ok(numbers)
}

// The parents of the top type and the string type, where they aren't declared.
fn implied_parents(
    alloc: Global,
    names: &IndexSet<String>,
    decls: &[Decl],
    top: &str,
    text: &str,
) -> Result<Vec<Vec<usize>>, AllocError>
    requires { top.now ≢ text.now }
    ensures { IfOk result (λ v. lists v.items ≡ implied (texts names.now.keys) top.now (unwritten top.now text.now (decls_of decls.now))) }
{
    let mut parents = Vec::new(alloc);
    if !is_declared(decls, top) {
        parents.push(Vec::new(alloc))?;
    }
    if !is_declared(decls, text) {
        parents.push(vec![in alloc; number_of(names, top)]?)?;
    }
    Ok(parents)
}

/// The parents of all types by number.
pub fn parents_of(
    alloc: Global,
    names: &IndexSet<String>,
    decls: &[Decl],
    top: &str,
    text: &str,
) -> Result<Vec<Vec<usize>>, TypeFault>
    requires apart { top.now ≢ text.now }
    requires named { texts names.now.keys ≡ names_of top.now text.now (decls_of decls.now) }
    ensures parents { IfOk result (λ v. lists v.items ≡ parents_of top.now text.now (decls_of decls.now)) }
    ensures known { OnOk result (HasNoUnknown top.now text.now (decls_of decls.now)) }
    ensures unknown { IfErr result (IsUnknownFault top.now text.now (decls_of decls.now)) }
{
    let mut parents = implied_parents(alloc, names, decls, top, text)?;
    for decl in decls {
        match parent_numbers(alloc, names, top, decl) {
            Ok(numbers) => parents.push(numbers)?,
            Err(fault) => return Err(fault),
        }
    }
    Ok(parents)
}
