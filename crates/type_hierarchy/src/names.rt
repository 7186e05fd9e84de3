//! The names of types by number.

ghost use Rattle.std.specs.Prelude.{◌≡◌, ◌≢◌, ℕ, ◌<◌, ◌++◌, map, length, take, position, IsTrue, IfOk, IfErr, OnOk, true, false};
ghost use Rattle.std.specs.Str.{bytes_eq};
ghost use Rattle.type_hierarchy.specs.Decls.{decls_of, texts, is_defined, unwritten, names_of, IsUnwritten};
ghost use Rattle.type_hierarchy.specs.Faults.{HasNoDuplicate, IsFaultOf};

use crate::decl::{Decl, TypeFault};
use indexmap::IndexSet;
use std::alloc::{AllocError, Global};

/// Whether a type of that name is declared.
pub fn is_declared(decls: &[Decl], name: &str) -> bool
    ensures { result ≡ is_defined (decls_of decls.now) name.now }
{
    for decl in decls {
        if name == decl.name.as_str() {
            return true;
        }
    }
    false
}

// The names of the top type and the string type, where they aren't declared.
fn undeclared(
    alloc: Global,
    decls: &[Decl],
    top: &str,
    text: &str,
) -> Result<IndexSet<String>, AllocError>
    requires { top.now ≢ text.now }
    ensures { IfOk result (λ names. IsUnwritten top.now text.now (decls_of decls.now) names.keys) }
{
    let mut names = IndexSet::new(alloc);
    if !is_declared(decls, top) {
        names.insert(String::from_str(alloc, top)?)?;
    }
    if !is_declared(decls, text) {
        names.insert(String::from_str(alloc, text)?)?;
    }
    Ok(names)
}

/// The names of all types, by number: those that aren't declared, and then the declared ones.
pub fn numbered(
    alloc: Global,
    decls: &[Decl],
    top: &str,
    text: &str,
) -> Result<IndexSet<String>, TypeFault>
    requires { top.now ≢ text.now }
    ensures names { IfOk result (λ names. texts names.keys ≡ names_of top.now text.now (decls_of decls.now)) }
    ensures once { OnOk result (HasNoDuplicate (decls_of decls.now)) }
    ensures fault { IfErr result (IsFaultOf top.now text.now (decls_of decls.now)) }
{
    let mut names = undeclared(alloc, decls, top, text)?;
    for decl in decls {
        let (_, is_new) = names.insert_full(decl.name.clone()?)?;
        if !is_new {
            return Err(TypeFault::Duplicate {
                name: decl.name.clone()?,
            });
        }
    }
    Ok(names)
}

/// The number of a name.
pub fn number(names: &IndexSet<String>, name: &str) -> Option<usize>
    ensures { result ≡ position (bytes_eq name.now) (texts names.now.keys) }
{
    names.get_index_of(name)
}

/// The names in their order.
pub fn list_of(alloc: Global, names: IndexSet<String>) -> Result<Vec<String>, AllocError>
    ensures { IfOk result (λ v. v.items ≡ names.keys) }
{
    names.into_iter().collect(alloc)
}
