//! Which instances are entries, rules and roots.

ghost use Rattle.std.specs.Prelude.{IfOk, OnOk};
ghost use Rattle.book_signs.specs.Signed.{kind_of};
ghost use Rattle.book_signs.specs.Inner.Noted.{Notes, AreKinds};
ghost use Rattle.book_signs.specs.Inner.Kept.{kinds_in};

use constraint_expand::Instance;
use lexicon::NoMemory;
use std::alloc::Global;
use tdl_reader::Status;

/// The places of entries, of lexical rules, of phrase rules and of roots, each in order.
#[derive(Drop)]
pub(crate) struct Kinds {
    pub(crate) entries: Vec<u32>,
    pub(crate) lexical_rules: Vec<u32>,
    pub(crate) phrase_rules: Vec<u32>,
    pub(crate) roots: Vec<u32>,
}

// Notes the place of the next instance.
fn note(kinds: &mut Kinds, place: u32, status: Status) -> Result<(), NoMemory>
    ensures { OnOk result (Notes place (kind_of status) kinds.old kinds.new) }
{
    match status {
        Status::Entry => kinds.entries.push(place)?,
        Status::LexRule => kinds.lexical_rules.push(place)?,
        Status::Rule => kinds.phrase_rules.push(place)?,
        Status::Root => kinds.roots.push(place)?,
        Status::TypeDef | Status::Other => {}
    }
    Ok(())
}

/// The places of instances by their kinds. More instances than a `u32` can number count as want of memory.
pub(crate) fn kinds_of(alloc: Global, instances: &[Instance]) -> Result<Kinds, NoMemory>
    ensures { IfOk result (AreKinds (kinds_in instances.now)) }
{
    if instances.len() > u32::MAX as usize {
        return Err(NoMemory);
    }
    let mut kinds = Kinds {
        entries: Vec::new(alloc),
        lexical_rules: Vec::new(alloc),
        phrase_rules: Vec::new(alloc),
        roots: Vec::new(alloc),
    };
    for i in 0..instances.len() {
        note(&mut kinds, i as u32, instances[i].status)?;
    }
    Ok(kinds)
}
