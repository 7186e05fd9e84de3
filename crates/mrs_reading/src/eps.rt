//! The elementary predications of a text.

ghost use Rattle.std.specs.Prelude.{◌≡◌, ◌≢◌, ◌↔◌, ◌++◌, ◌∷◌, [], ℕ, List, Some, true, IsTrue, IfOk, OnOk, map, codes, Contains};
ghost use Rattle.std.specs.Bool.{OnTrue, OnFalse};
ghost use Rattle.std.specs.Str.{str_to_ascii_lowercase};
ghost use Rattle.mrs_spelling.specs.declared.kinds.Kind.{Kind};
ghost use Rattle.mrs_spelling.specs.Conditions.{Context, Given, BreaksIn, after_kind};
ghost use Rattle.mrs_model.specs.Meanings.{Predication, of_text};
ghost use Rattle.mrs_model.specs.Views.{predication_of, filler_of};
ghost use Rattle.mrs_reading.specs.Meaning.{Piece, Is, is_variable, plain};
ghost use Rattle.mrs_reading.specs.Inner.Stages.{Stage, begun, step};
ghost use Rattle.mrs_reading.specs.Inner.Built.{roles_in};
ghost use Rattle.mrs_reading.specs.Inner.Reading.{piece_at};
ghost use Rattle.mrs_reading.specs.Inner.Predications.{AreEps, opened, closed, IsNew, IsSpanned, IsArgumentAdded, IsFilled, FillsLast};

use crate::ordered::add;
use crate::texts::{normalized, span_of, unquoted};
use mrs_model::{Ep, NoMemory, Role, Value};
use mrs_spelling::{Kind, Token};
use std::alloc::Global;

/// The elementary predications that were read. The last one is open, with the names of its roles as they were written.
#[derive(Drop)]
pub(crate) struct Eps<'a> {
    list: Vec<Ep>,
    current: Option<Ep>,
    roles: Vec<&'a str>,
    work: String,
}

// Whether the name stands among these.
fn is_among(roles: &[&str], name: &str) -> bool
    ensures { IsTrue result ↔ Contains (map (λ r. str_to_ascii_lowercase r.now) roles.now) (str_to_ascii_lowercase name.now) }
{
    for role in roles {
        if role.eq_ignore_ascii_case(name) {
            return true;
        }
    }
    false
}

// Whether the last of these names is that of a label.
fn ends_with_label(roles: &[&str]) -> bool
    ensures yes { IsTrue result → (before : List (List ℕ)) × (map (λ r. str_to_ascii_lowercase r.now) roles.now ≡ before ++ codes "lbl" ∷ []) }
    ensures other { (before : List (List ℕ)) → map (λ r. str_to_ascii_lowercase r.now) roles.now ≡ before ++ codes "lbl" ∷ [] → IsTrue result }
{
    match roles.last() {
        Some(role) => role.eq_ignore_ascii_case("lbl"),
        None => false,
    }
}

// Gives an elementary predication an argument.
fn add_role(alloc: Global, ep: &mut Ep, role: &str, value: Value) -> Result<(), NoMemory>
    ensures { OnOk result (IsArgumentAdded (str_to_ascii_lowercase role.now) (filler_of value) (predication_of ep.old) (predication_of ep.new)) }
{
    let name = role.to_ascii_lowercase(alloc)?;
    add(&mut ep.roles, Role { name, value })
}

// Gives it the variable of a role: the label where the role is LBL, otherwise an argument.
fn add_variable(alloc: Global, ep: &mut Ep, role: &str, variable: u32) -> Result<(), NoMemory>
    ensures { OnOk result (IsFilled (str_to_ascii_lowercase role.now) variable (predication_of ep.old) (predication_of ep.new)) }
{
    if role.eq_ignore_ascii_case("lbl") {
        ep.label = variable;
        return Ok(());
    }
    add_role(alloc, ep, role, Value::Var(variable))
}

// Fills the last of the roles with a variable.
fn fill_variable(alloc: Global, ep: &mut Ep, roles: &[&str], variable: u32) -> Result<(), NoMemory>
    ensures { OnOk result ((before : List (List ℕ)) (r : List ℕ) → map (λ n. str_to_ascii_lowercase n.now) roles.now ≡ before ++ r ∷ [] → IsFilled r variable (predication_of ep.old) (predication_of ep.new)) }
{
    match roles.last() {
        Some(role) => add_variable(alloc, ep, role, variable),
        None => Ok(()),
    }
}

// Fills the last of the roles with a text.
fn fill_text(alloc: Global, ep: &mut Ep, roles: &[&str], text: &str) -> Result<(), NoMemory>
    ensures { OnOk result ((before : List (List ℕ)) (r : List ℕ) → map (λ n. str_to_ascii_lowercase n.now) roles.now ≡ before ++ r ∷ [] → IsArgumentAdded r (of_text (plain text.now)) (predication_of ep.old) (predication_of ep.new)) }
{
    let text = unquoted(alloc, text)?;
    match roles.last() {
        Some(role) => add_role(alloc, ep, role, Value::Text(text)),
        None => Ok(()),
    }
}

// An elementary predication without arguments.
fn new_ep(alloc: Global, pred: &str, work: &mut String) -> Result<Ep, NoMemory>
    ensures { IfOk result (λ ep. IsNew (str_to_ascii_lowercase pred.now) (Some (predication_of ep))) }
{
    let pred = normalized(alloc, pred, work)?;
    Ok(Ep {
        pred,
        label: 0,
        roles: Vec::new(alloc),
        span: None,
    })
}

// The span that a mark is, in place of the one that stood there.
fn mark(ep: &mut Ep, text: &str)
    ensures { IsSpanned text.now (predication_of ep.old) (Some (predication_of ep.new)) }
{
    ep.span = span_of(text);
}

impl<'a> Eps<'a> {
    pub(crate) fn new(alloc: Global) -> Eps<'a>
        ensures roles { roles_in result ≡ [] }
        ensures read { (keys : List (List ℕ)) → AreEps keys [] begun result }
    {
        Eps {
            list: Vec::new(alloc),
            current: None,
            roles: Vec::new(alloc),
            work: String::new(alloc),
        }
    }

    // One more elementary predication, which is open.
    fn begin(&mut self, alloc: Global, pred: &str) -> Result<(), NoMemory>
        ensures roles { OnOk result (roles_in self.new ≡ []) }
        ensures list { OnOk result (closed self.new ≡ closed self.old) }
        ensures current { OnOk result (IsNew (str_to_ascii_lowercase pred.now) (opened self.new)) }
    {
        let ep = new_ep(alloc, pred, &mut self.work)?;
        self.roles.clear();
        self.current = Some(ep);
        Ok(())
    }

    // Puts the open one to the others.
    fn close(&mut self) -> Result<(), NoMemory>
        ensures roles { self.new.roles.items ≡ self.old.roles.items }
        ensures list { OnOk result ((ep : Predication) → opened self.old ≡ Some ep → closed self.new ≡ closed self.old ++ ep ∷ []) }
    {
        if let Some(ep) = self.current.take() {
            self.list.push(ep)?;
        }
        Ok(())
    }

    // Closes the open one: false where it has no label.
    fn end(&mut self) -> Result<bool, NoMemory>
        ensures roles { self.new.roles.items ≡ self.old.roles.items }
        ensures list { IfOk result (λ ok. OnTrue ok ((ep : Predication) → opened self.old ≡ Some ep → closed self.new ≡ closed self.old ++ ep ∷ [])) }
        ensures yes { IfOk result (λ ok. OnTrue ok (Contains (roles_in self.old) (codes "lbl"))) }
        ensures no { IfOk result (λ ok. OnFalse ok (Contains (roles_in self.old) (codes "lbl") → ⊥)) }
    {
        if !is_among(&self.roles, "lbl") {
            return Ok(false);
        }
        self.close()?;
        Ok(true)
    }

    // Fills the last role with a variable.
    fn variable(&mut self, alloc: Global, variable: u32) -> Result<(), NoMemory>
        ensures roles { self.new.roles.items ≡ self.old.roles.items }
        ensures list { self.new.list ≡ self.old.list }
        ensures current { OnOk result (FillsLast (opened self.old) (roles_in self.old) (opened self.new) (λ r old new. IsFilled r variable old new)) }
    {
        match &mut self.current {
            Some(ep) => fill_variable(alloc, ep, &self.roles, variable),
            None => Ok(()),
        }
    }

    // Fills the last role with a text.
    fn text(&mut self, alloc: Global, text: &str) -> Result<(), NoMemory>
        ensures roles { self.new.roles.items ≡ self.old.roles.items }
        ensures list { self.new.list ≡ self.old.list }
        ensures current { OnOk result (FillsLast (opened self.old) (roles_in self.old) (opened self.new) (λ r old new. IsArgumentAdded r (of_text (plain text.now)) old new)) }
    {
        match &mut self.current {
            Some(ep) => fill_text(alloc, ep, &self.roles, text),
            None => Ok(()),
        }
    }

    // The span of the open one, if the mark is one.
    fn mark(&mut self, text: &str)
        ensures roles { self.new.roles.items ≡ self.old.roles.items }
        ensures list { self.new.list ≡ self.old.list }
        ensures current { (ep : Predication) → opened self.old ≡ Some ep → IsSpanned text.now ep (opened self.new) }
    {
        if let Some(ep) = &mut self.current {
            mark(ep, text);
        }
    }

    // One more role of the open one: false where it has the role already.
    fn role(&mut self, name: &'a str) -> Result<bool, NoMemory>
        ensures ok { IfOk result (λ ok. OnTrue ok (roles_in self.new ≡ roles_in self.old ++ str_to_ascii_lowercase name.now ∷ [])) }
        ensures keeps { IfOk result (λ ok. OnTrue ok (Contains (roles_in self.old) (str_to_ascii_lowercase name.now) → ⊥)) }
        ensures twice { IfOk result (λ ok. OnFalse ok (Contains (roles_in self.old) (str_to_ascii_lowercase name.now))) }
        ensures list { self.new.list ≡ self.old.list }
        ensures current { self.new.current ≡ self.old.current }
    {
        if is_among(&self.roles, name) {
            return Ok(false);
        }
        self.roles.push(name)?;
        Ok(true)
    }

    /// Takes a token: false where it breaks a condition on roles. `last` is the number of the last variable.
    pub(crate) fn take(
        &mut self,
        alloc: Global,
        token: &Token<'a>,
        last: u32,
    ) -> Result<bool, NoMemory>
        ensures roles { IfOk result (λ ok. OnTrue ok ((c : Context) → c.roles ≡ roles_in self.old → (after_kind c token.now.kind (str_to_ascii_lowercase token.now.text.now)).roles ≡ roles_in self.new)) }
        ensures keeps { IfOk result (λ ok. OnTrue ok ((c : Context) (gs : List Given) → c.roles ≡ roles_in self.old → token.now.kind ≢ Kind.PropValue → BreaksIn c gs token.now.kind (str_to_ascii_lowercase token.now.text.now) → ⊥)) }
        ensures breaks { IfOk result (λ ok. OnFalse ok ((c : Context) (gs : List Given) → c.roles ≡ roles_in self.old → BreaksIn c gs token.now.kind (str_to_ascii_lowercase token.now.text.now))) }
        ensures read { IfOk result (λ ok. OnTrue ok ((keys : List (List ℕ)) (ps : List Piece) (s t : Stage) → step s token.now.kind ≡ Some t → (is_variable token.now.kind ≡ true → Is keys (piece_at token.now) last) →
            AreEps keys ps s self.old → AreEps keys (ps ++ piece_at token.now ∷ []) t self.new)) }
    {
        match token.kind {
            Kind::PredRun => {
                self.begin(alloc, token.text)?;
                Ok(true)
            }
            Kind::PredText => {
                let pred = unquoted(alloc, token.text)?;
                self.begin(alloc, pred.as_str())?;
                Ok(true)
            }
            Kind::Link => {
                self.mark(token.text);
                Ok(true)
            }
            Kind::Role => self.role(token.text),
            Kind::Filler => {
                self.variable(alloc, last)?;
                Ok(true)
            }
            Kind::OpensText => Ok(!ends_with_label(&self.roles)),
            Kind::Text => {
                self.text(alloc, token.text)?;
                Ok(true)
            }
            Kind::EpEnd => self.end(),
            _ => Ok(true),
        }
    }

    /// All of them.
    pub(crate) fn finish(self) -> Vec<Ep>
        ensures { result.items ≡ self.entry.list.items }
    {
        self.list
    }
}
