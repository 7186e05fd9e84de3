//! The facts of a statement's body.

ghost use Rattle.std.specs.Prelude.{◌≡◌, ◌++◌, ◌∷◌, [], map, take, None, IfOk, OnOk, option_map, string_bytes};
ghost use Rattle.tdl_reader.specs.Trees.{attrs_of, items_of, more_attrs, no_attrs, more_items, no_items};
ghost use Rattle.tdl_reader.specs.Views.{term_of, attr_of, body_in, rest_of};
ghost use Rattle.type_hierarchy.specs.Decls.{texts, number_of};
ghost use Rattle.fs_model.specs.Claims.{exists_at, same, below};
ghost use Rattle.fs_graph.specs.Facts.{path_of, claims_of};
ghost use Rattle.body_facts.specs.Claimed.{claims_said};
ghost use Rattle.body_facts.specs.WordTables.{table_of};
ghost use Rattle.body_facts.specs.Running.{running_of, carrier_in, carrier_of, with_carrier, moved, claimed, carried, term_told, body_told, attrs_told, items_told, end_told, difference_told};

use crate::NoMemory;
use crate::lookup::Words;
use fs_graph::{Fact, Feat};
use indexmap::IndexMap;
use std::alloc::{AllocError, Global};
use tdl_reader::{Attr, Body, Rest, Term};
use type_hierarchy::Ty;

// What is told so far of a body, and the path that is spoken of next.
#[derive(Drop)]
struct Told {
    alloc: Global,
    path: Vec<Feat>,
    facts: Vec<Fact>,
    // The first path that carries each coreference.
    carriers: IndexMap<String, Vec<Feat>>,
}

impl Told {
    // The path once more.
    fn here(&self) -> Result<Vec<Feat>, AllocError>
        ensures { IfOk result (λ path. path.items ≡ self.now.path.items) }
    {
        Vec::from_slice(self.alloc, &self.path)
    }

    // Goes on to a feature.
    fn enter(&mut self, feat: Feat) -> Result<(), NoMemory>
        ensures { OnOk result (running_of self.new ≡ moved (path_of self.old.path.items ++ feat.0 ∷ []) (running_of self.old)) }
    {
        self.path.push(feat)?;
        Ok(())
    }

    // The path's type is at or below this one.
    fn add_type(&mut self, ty: Ty) -> Result<(), NoMemory>
        ensures { OnOk result (running_of self.new ≡ claimed (below (path_of self.old.path.items) ty.0) (running_of self.old)) }
    {
        let path = self.here()?;
        self.facts.push(Fact::Below { path, ty })?;
        Ok(())
    }

    // The path exists.
    fn add_existence(&mut self) -> Result<(), NoMemory>
        ensures { OnOk result (running_of self.new ≡ claimed (exists_at (path_of self.old.path.items)) (running_of self.old)) }
    {
        let path = self.here()?;
        self.facts.push(Fact::Exists { path })?;
        Ok(())
    }

    // The path is equal to another one.
    fn add_equality(&mut self, other: Vec<Feat>) -> Result<(), NoMemory>
        ensures { OnOk result (running_of self.new ≡ claimed (same (path_of other.items) (path_of self.old.path.items)) (running_of self.old)) }
    {
        let path = self.here()?;
        self.facts.push(Fact::Same { a: other, b: path })?;
        Ok(())
    }

    // The first path that carries a coreference so far.
    fn carrier(&self, name: &str) -> Result<Option<Vec<Feat>>, AllocError>
        ensures { IfOk result (λ found. option_map (λ p. path_of p.items) found ≡ carrier_in (map carrier_of self.now.carriers.entries) name.now) }
    {
        match self.carriers.get(name) {
            Some(first) => Ok(Some(Vec::from_slice(self.alloc, first)?)),
            None => Ok(None),
        }
    }

    // The path is the first that carries a coreference.
    fn note_carrier(&mut self, name: &str) -> Result<(), NoMemory>
        requires { carrier_in (map carrier_of self.old.carriers.entries) name.now ≡ None }
        ensures carriers { let p = path_of self.old.path.items in
            OnOk result (map carrier_of self.new.carriers.entries ≡ map carrier_of self.old.carriers.entries ++ record { name = name.now; path = p } ∷ []) }
        ensures path { self.new.path ≡ self.old.path }
        ensures facts { self.new.facts ≡ self.old.facts }
    {
        let here = self.here()?;
        self.carriers
            .insert(String::from_str(self.alloc, name)?, here)?;
        Ok(())
    }

    // The path carries a coreference.
    fn add_coreference(&mut self, name: &str) -> Result<(), NoMemory>
        ensures { OnOk result (running_of self.new ≡ carried name.now (path_of self.old.path.items) (running_of self.old)) }
    {
        match self.carrier(name)? {
            Some(first) => self.add_equality(first),
            None => {
                self.note_carrier(name)?;
                let here = self.here()?;
                self.add_equality(here)
            }
        }
    }

    // Goes on along features.
    fn enter_all(&mut self, words: &Words<'_>, path: &[String]) -> Result<(), NoMemory>
        ensures { OnOk result (running_of self.new ≡ moved (path_of self.old.path.items ++ map (number_of (texts words.now.feats.now)) (texts path.now)) (running_of self.old)) }
    {
        for feature in path {
            self.enter(words.feature(feature))?;
        }
        Ok(())
    }

    // Goes back to the first features of the path, as many as `depth`.
    fn back_to(&mut self, depth: usize)
        ensures { running_of self.new ≡ moved (take depth (path_of self.old.path.items)) (running_of self.old) }
    {
        self.path.truncate(depth);
    }
}

/// What a statement's body says of the node of its definition.
///
/// A name that is no completed type, a string that isn't among the types' strings and a feature that has no number count
/// as the first of its kind: see before that there is none. A coreference is told as the equality of each path that
/// carries it with the first one.
pub fn facts(alloc: Global, words: &Words<'_>, body: &Body) -> Result<Vec<Fact>, NoMemory>
    ensures { IfOk result (λ facts. claims_of facts.items ≡ claims_said (table_of words.now) (body_in body.now)) }
{
    let mut told = Told {
        alloc,
        path: Vec::new(alloc),
        facts: Vec::new(alloc),
        carriers: IndexMap::new(alloc),
    };
    add_body(&mut told, words, body)?;
    Ok(told.facts)
}

// Tells what a term says.
#[cycle(telling)]
fn add_term(told: &mut Told, words: &Words<'_>, term: &Term) -> Result<(), NoMemory>
    ensures { OnOk result (running_of told.new ≡ term_told (table_of words.now) (running_of told.old) (term_of term.now)) }
{
    match term {
        Term::Name { name, .. } => told.add_type(words.type_of(name)),
        Term::Text { text, .. } => told.add_type(words.string(text)),
        Term::Coref { name, .. } => told.add_coreference(name),
        Term::Avm { attrs, .. } => add_attrs(told, words, attrs),
        Term::List { items, rest, .. } => {
            let depth = told.path.len();
            add_items(told, words, items)?;
            add_end(told, words, rest)?;
            told.back_to(depth);
            Ok(())
        }
        Term::Diff { items, .. } => add_difference(told, words, items),
    }
}

// Tells what a body says.
#[cycle(telling)]
fn add_body(told: &mut Told, words: &Words<'_>, body: &Body) -> Result<(), NoMemory>
    ensures { OnOk result (running_of told.new ≡ body_told (table_of words.now) (running_of told.old) (body_in body.now)) }
{
    for term in &body.terms {
        add_term(told, words, term)?;
    }
    Ok(())
}

// Tells what attributes say.
#[cycle(telling)]
fn add_attrs(told: &mut Told, words: &Words<'_>, attrs: &Vec<Attr>) -> Result<(), NoMemory>
    ensures { OnOk result (running_of told.new ≡ attrs_told (table_of words.now) (running_of told.old) (attrs_of (map attr_of attrs.now.items))) }
{
    for attr in attrs {
        add_attr(told, words, attr)?;
    }
    Ok(())
}

// Tells that an attribute's path exists, and what its value says there.
#[cycle(telling)]
fn add_attr(told: &mut Told, words: &Words<'_>, attr: &Attr) -> Result<(), NoMemory>
    ensures { OnOk result (running_of told.new ≡ attrs_told (table_of words.now) (running_of told.old) (more_attrs (texts attr.now.path.items) (body_in attr.now.body) no_attrs)) }
{
    let depth = told.path.len();
    told.enter_all(words, &attr.path)?;
    told.add_existence()?;
    add_body(told, words, &attr.body)?;
    told.back_to(depth);
    Ok(())
}

// Tells what a difference list says: its items, and that what follows them is its last element.
#[cycle(telling)]
fn add_difference(told: &mut Told, words: &Words<'_>, items: &Vec<Body>) -> Result<(), NoMemory>
    ensures { OnOk result (running_of told.new ≡ difference_told (table_of words.now) (running_of told.old) (items_of (map body_in items.now.items))) }
{
    let depth = told.path.len();
    told.enter(words.feature(&words.names.diff_list))?;
    add_items(told, words, items)?;
    let end = told.here()?;
    told.back_to(depth);
    told.enter(words.feature(&words.names.diff_last))?;
    told.add_equality(end)?;
    told.back_to(depth);
    Ok(())
}

// Tells what the items of a list say, and goes on to what follows them.
#[cycle(telling)]
fn add_items(told: &mut Told, words: &Words<'_>, items: &Vec<Body>) -> Result<(), NoMemory>
    ensures { OnOk result (running_of told.new ≡ items_told (table_of words.now) (running_of told.old) (items_of (map body_in items.now.items))) }
{
    for item in items {
        add_item(told, words, item)?;
    }
    Ok(())
}

// Tells what the first item of a list says, and goes on to the rest.
#[cycle(telling)]
fn add_item(told: &mut Told, words: &Words<'_>, item: &Body) -> Result<(), NoMemory>
    ensures { OnOk result (running_of told.new ≡ items_told (table_of words.now) (running_of told.old) (more_items (body_in item.now) no_items)) }
{
    told.add_type(words.type_of(&words.names.cons))?;
    let depth = told.path.len();
    told.enter(words.feature(&words.names.first))?;
    told.add_existence()?;
    add_body(told, words, item)?;
    told.back_to(depth);
    told.enter(words.feature(&words.names.rest))?;
    told.add_existence()
}

// Tells how a list ends.
#[cycle(telling)]
fn add_end(told: &mut Told, words: &Words<'_>, rest: &Rest) -> Result<(), NoMemory>
    ensures { OnOk result (running_of told.new ≡ end_told (table_of words.now) (running_of told.old) (rest_of rest.now)) }
{
    match rest {
        Rest::Closed => told.add_type(words.type_of(&words.names.null)),
        Rest::Open => told.add_type(words.type_of(&words.names.list)),
        Rest::Tail { body } => add_body(told, words, body),
    }
}
