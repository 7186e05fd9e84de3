//! Rules whose text has begun.

ghost use Rattle.std.specs.Prelude.{◌≡◌, ◌<◌, ◌++◌, ℕ, List, IfOk, IfErr, length};
ghost use Rattle.tree_reading.specs.Grammars.{HasEntry, IsNamedWell};
ghost use Rattle.tree_reading.specs.Inner.Frames.{AreOpen, IsReady, frames_of, front, is_wide};
ghost use Rattle.tree_reading.specs.Inner.Stops.{IsStop, IsText};
ghost use Rattle.tree_reading.specs.Inner.Uses.{AreUses};
ghost use Rattle.tree_reading.specs.Inner.Begun.{IsNamed, HasBegun, IsAfter};
ghost use Rattle.tree_reading.specs.declared.closing.Child.{Child};

use crate::bytes::{split_name, strip};
use crate::leaves::{Leaf, read_leaf};
use crate::names::TreeNames;
use crate::stops::Stop;
use crate::uses::{Rules, Uses};
use derivation::Tree;
use std::alloc::Global;

/// A rule whose text has begun, with the daughters that are read.
#[derive(Drop)]
pub(crate) struct Open {
    pub rules: Rules,
    pub daughters: Vec<Tree>,
}

// Whether phrases may stand here.
fn is_wide(stack: &[Open]) -> bool
    ensures { (names : List (List ℕ)) → result ≡ is_wide (frames_of names stack.now) }
{
    match stack.last() {
        None => true,
        Some(rule) => rule.rules.phrase.is_some(),
    }
}

// The uses of a name where phrases may stand, or may not.
fn uses_here(names: &TreeNames, wide: bool, name: &str) -> Uses
    ensures { AreUses names.now wide name.now result }
{
    let mut uses = names.uses(name);
    if !wide {
        uses.rules.phrase = None;
    }
    uses
}

// A parenthesis, a name that may stand here, and a blank.
fn read_name<'a>(names: &TreeNames, stack: &[Open], text: &'a str) -> Result<(Uses, &'a str), Stop>
    requires well { IsNamedWell names.now }
    requires entry { HasEntry names.now }
    requires frames { AreOpen names.now stack.now }
    requires ready { IsReady (frames_of names.now.names stack.now) text.now }
    ensures read { IfOk result (λ p. IsNamed names.now (is_wide (frames_of names.now.names stack.now)) text.now p.0 p.1.now) }
    ensures shorter { IfOk result (λ p. length p.1.now < length text.now) }
    ensures stopped { IfErr result (IsStop (IsText names.now) (IsText names.now) (front (frames_of names.now.names stack.now) ++ text.now)) }
{
    let Some(text) = strip(text, b'(') else {
        return Err(Stop::Left(text.len()));
    };
    let wide = is_wide(stack);
    let (name, rest) = split_name(text);
    let uses = uses_here(names, wide, name);
    if uses.is_none() {
        return Err(Stop::Left(text.len() - names.near(name, wide)));
    }
    match strip(rest, b' ') {
        None => Err(Stop::Left(rest.len())),
        Some(rest) => Ok((uses, rest)),
    }
}

// What a parenthesis and a name begin: the leaf of an entry, or the text of a rule.
#[derive(Clone, Copy)]
enum Begun {
    Leaf(u32),
    Rule(Rules),
}

// What begins here, up to and with a quote, or up to a parenthesis.
fn begin<'a>(names: &TreeNames, stack: &[Open], text: &'a str) -> Result<(Begun, &'a str), Stop>
    requires well { IsNamedWell names.now }
    requires entry { HasEntry names.now }
    requires frames { AreOpen names.now stack.now }
    requires ready { IsReady (frames_of names.now.names stack.now) text.now }
    ensures read { IfOk result (λ p. HasBegun names.now (is_wide (frames_of names.now.names stack.now)) text.now p.0 p.1.now) }
    ensures shorter { IfOk result (λ p. length p.1.now < length text.now) }
    ensures stopped { IfErr result (IsStop (IsText names.now) (IsText names.now) (front (frames_of names.now.names stack.now) ++ text.now)) }
{
    let (uses, rest) = read_name(names, stack, text)?;
    if let Some(words) = strip(rest, b'"') {
        return match uses.entry {
            Some(entry) => Ok((Begun::Leaf(entry), words)),
            None => Err(Stop::Left(rest.len())),
        };
    }
    let Some(_) = strip(rest, b'(') else {
        return Err(Stop::Left(rest.len()));
    };
    if uses.rules.is_none() {
        return Err(Stop::Left(rest.len()));
    }
    Ok((Begun::Rule(uses.rules), rest))
}

/// Reads on to the end of the next leaf, past the rules that begin before it.
pub(crate) fn descend<'a>(
    alloc: Global,
    names: &TreeNames,
    stack: &mut Vec<Open>,
    text: &'a str,
) -> Result<(Leaf, &'a str), Stop>
    requires well { IsNamedWell names.now }
    requires entry { HasEntry names.now }
    requires frames { AreOpen names.now stack.old.items }
    requires ready { IsReady (frames_of names.now.names stack.old.items) text.now }
    ensures read { IfOk result (λ p. IsAfter names.now stack.new.items (Child.Lexical p.0) (front (frames_of names.now.names stack.old.items) ++ text.now) p.1.now) }
    ensures shorter { IfOk result (λ p. length p.1.now < length text.now) }
    ensures stopped { IfErr result (IsStop (IsText names.now) (IsText names.now) (front (frames_of names.now.names stack.old.items) ++ text.now)) }
{
    let mut rest = text;
    'rules: loop {
        let (begun, after) = begin(names, stack, rest)?;
        match begun {
            Begun::Leaf(entry) => return read_leaf(alloc, entry, after),
            Begun::Rule(rules) => {
                let daughters = Vec::new(alloc);
                stack.push(Open { rules, daughters })?;
            }
        }
        rest = after;
    }
}
