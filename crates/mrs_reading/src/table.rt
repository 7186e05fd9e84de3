//! The variables of a text, and the properties that were given for them.

ghost use Rattle.std.specs.Prelude.{◌≡◌, ◌≢◌, ◌<◌, ◌≤◌, ◌++◌, ◌∷◌, [], ℕ, List, Some, true, IfOk, OnOk, IfSome, IfNone, map, length, vec_len, Contains};
ghost use Rattle.std.specs.Bool.{OnTrue, OnFalse};
ghost use Rattle.std.specs.List.{slice_get};
ghost use Rattle.std.specs.String.{string_bytes};
ghost use Rattle.std.specs.Str.{str_to_ascii_lowercase};
ghost use Rattle.mrs_model.specs.Meanings.{Property};
ghost use Rattle.mrs_model.specs.Views.{property_of, variable_of};
ghost use Rattle.mrs_spelling.specs.declared.kinds.Kind.{Kind};
ghost use Rattle.mrs_spelling.specs.Conditions.{Context, Given, BreaksIn, after_kind, gives};
ghost use Rattle.mrs_reading.specs.Inner.Reading.{Grows, piece_at};
ghost use Rattle.mrs_reading.specs.Inner.Tables.{IsTableOf, IsGrown, HasOther, IsGivenTo, IsGivenAt, HasOtherAt, keys_in, vars_in, letters_of, is_variable};

use crate::ordered::add;
use crate::texts::lower_into;
use indexmap::IndexSet;
use mrs_model::{NoMemory, Prop, Var};
use mrs_spelling::{Kind, Token};
use std::alloc::Global;

/// The variables that were read, by their letters and digits, with the properties that were given for them; which of them was read last, and the last name
/// of a property.
#[derive(Drop)]
pub(crate) struct Table {
    keys: IndexSet<String>,
    vars: Vec<Var>,
    last: usize,
    name: String,
    // the text that is looked for
    key: String,
}

/// Whether tokens of this kind are variables.
fn is_variable(kind: Kind) -> bool
    ensures { result ≡ is_variable kind }
{
    matches!(
        kind,
        Kind::Top | Kind::Index | Kind::Filler | Kind::High | Kind::Low | Kind::Left | Kind::Right
    )
}

// The leading letters of a text.
fn sort_of(alloc: Global, text: &str) -> Result<String, NoMemory>
    ensures { IfOk result (λ s. string_bytes s ≡ letters_of text.now) }
{
    let mut sort = String::new(alloc);
    for byte in text.as_bytes() {
        if !byte.is_ascii_alphabetic() {
            break;
        }
        sort.push(char::from(*byte))?;
    }
    Ok(sort)
}

// Whether the property of this name has the value, if there is one of the name.
fn agrees(props: &[Prop], name: &str, value: &str) -> Option<bool>
    ensures same { IfSome result (λ b. OnTrue b (Contains (map property_of props.now) (record { name = name.now; value = value.now }))) }
    ensures other { IfSome result (λ b. OnFalse b (HasOther (map property_of props.now) (record { name = name.now; value = value.now }))) }
    ensures absent { IfNone result ((q : Property) → Contains (map property_of props.now) q → q.name ≢ name.now) }
{
    for prop in props {
        if prop.name.as_str() == name {
            return Some(prop.value.as_str() == value);
        }
    }
    None
}

// Adds a property, unless it is there. False where it is there with another value.
fn give(alloc: Global, props: &mut Vec<Prop>, name: &str, value: &str) -> Result<bool, NoMemory>
    ensures given { IfOk result (λ ok. OnTrue ok (IsGivenTo (map property_of props.old.items) (record { name = name.now; value = value.now }) (map property_of props.new.items))) }
    ensures other { IfOk result (λ ok. OnFalse ok (HasOther (map property_of props.old.items) (record { name = name.now; value = value.now }))) }
{
    match agrees(props, name, value) {
        Some(same) => Ok(same),
        None => {
            let name = String::from_str(alloc, name)?;
            let value = String::from_str(alloc, value)?;
            add(props, Prop { name, value })?;
            Ok(true)
        }
    }
}

// The same for the variable at this place.
fn give_at(
    alloc: Global,
    vars: &mut Vec<Var>,
    at: usize,
    name: &str,
    value: &str,
) -> Result<bool, NoMemory>
    requires { at < vec_len vars.old }
    ensures given { IfOk result (λ ok. OnTrue ok (IsGivenAt (map variable_of vars.old.items) at (record { name = name.now; value = value.now }) (map variable_of vars.new.items))) }
    ensures other { IfOk result (λ ok. OnFalse ok (HasOtherAt (map variable_of vars.old.items) at (record { name = name.now; value = value.now }))) }
    ensures some { vec_len vars.new ≡ vec_len vars.old }
{
    let var = &mut vars[at];
    give(alloc, &mut var.props, name, value)
}

impl Table {
    pub(crate) fn new(alloc: Global) -> Table
        ensures table { (c : Context) → c.name ≡ [] → IsTableOf c [] result }
        ensures keys { keys_in result ≡ [] }
    {
        Table {
            keys: IndexSet::new(alloc),
            vars: Vec::new(alloc),
            last: 0,
            name: String::new(alloc),
            key: String::new(alloc),
        }
    }

    // The place of the variable of these letters and digits.
    fn place(&mut self, alloc: Global, text: &str) -> Result<usize, NoMemory>
        ensures grown { IfOk result (λ at. vec_len self.old.vars ≡ length self.old.keys.keys → IsGrown (keys_in self.old) (vars_in self.old) (str_to_ascii_lowercase text.now) (keys_in self.new) (vars_in self.new) at) }
        ensures name { OnOk result (string_bytes self.new.name ≡ string_bytes self.old.name) }
    {
        lower_into(text, &mut self.key)?;
        if let Some(at) = self.keys.get_index_of(self.key.as_str()) {
            return Ok(at);
        }
        let sort = sort_of(alloc, self.key.as_str())?;
        self.vars.push(Var {
            sort,
            props: Vec::new(alloc),
        })?;
        let (at, _) = self
            .keys
            .insert_full(String::from_str(alloc, self.key.as_str())?)?;
        Ok(at)
    }

    // Gives the last variable a property of the last name. False where another value was given for it before.
    fn value(&mut self, alloc: Global, text: &str) -> Result<bool, NoMemory>
        requires { self.old.last < vec_len self.old.vars }
        ensures given { IfOk result (λ ok. OnTrue ok ((c : Context) (gs : List Given) → IsTableOf c gs self.old → IsTableOf c (gs ++ record { key = c.key; name = c.name; value = str_to_ascii_lowercase text.now } ∷ []) self.new)) }
        ensures keeps { IfOk result (λ ok. OnTrue ok ((c : Context) (gs : List Given) → IsTableOf c gs self.old → BreaksIn c gs Kind.PropValue (str_to_ascii_lowercase text.now) → ⊥)) }
        ensures other { IfOk result (λ ok. OnFalse ok ((c : Context) (gs : List Given) → IsTableOf c gs self.old → BreaksIn c gs Kind.PropValue (str_to_ascii_lowercase text.now))) }
        ensures some { vec_len self.new.vars ≡ vec_len self.old.vars }
        ensures keys { keys_in self.new ≡ keys_in self.old }
    {
        lower_into(text, &mut self.key)?;
        give_at(
            alloc,
            &mut self.vars,
            self.last,
            self.name.as_str(),
            self.key.as_str(),
        )
    }

    /// Takes a token: false where it gives a property another value. The last variable is that of the token, if it is one.
    pub(crate) fn take(&mut self, alloc: Global, token: &Token<'_>) -> Result<bool, NoMemory>
        requires { token.now.kind ≡ Kind.PropValue → self.old.last < vec_len self.old.vars }
        ensures table { IfOk result (λ ok. OnTrue ok ((c : Context) (gs : List Given) → IsTableOf c gs self.old →
            IsTableOf (after_kind c token.now.kind (str_to_ascii_lowercase token.now.text.now)) (gs ++ gives c token.now.kind (str_to_ascii_lowercase token.now.text.now)) self.new)) }
        ensures keeps { IfOk result (λ ok. OnTrue ok ((c : Context) (gs : List Given) → IsTableOf c gs self.old → token.now.kind ≡ Kind.PropValue → BreaksIn c gs token.now.kind (str_to_ascii_lowercase token.now.text.now) → ⊥)) }
        ensures breaks { IfOk result (λ ok. OnFalse ok ((c : Context) (gs : List Given) → IsTableOf c gs self.old → BreaksIn c gs token.now.kind (str_to_ascii_lowercase token.now.text.now))) }
        ensures some { OnOk result ((c : Context) (gs : List Given) → IsTableOf c gs self.old → is_variable token.now.kind ≡ true → 0 < vec_len self.new.vars) }
        ensures grown { OnOk result ((c : Context) (gs : List Given) → IsTableOf c gs self.old → Grows (keys_in self.old) (keys_in self.new) (piece_at token.now) self.new.last) }
        ensures more { OnOk result ((c : Context) (gs : List Given) → IsTableOf c gs self.old → vec_len self.old.vars ≤ vec_len self.new.vars) }
    {
        match token.kind {
            Kind::PropName => {
                lower_into(token.text, &mut self.name)?;
                Ok(true)
            }
            Kind::PropValue => self.value(alloc, token.text),
            kind => {
                if is_variable(kind) {
                    self.last = self.place(alloc, token.text)?;
                }
                Ok(true)
            }
        }
    }

    /// The number of the last variable.
    pub(crate) fn last(&self) -> Result<u32, NoMemory>
        ensures { IfOk result (λ n. n ≡ self.now.last) }
    {
        u32::try_from(self.last).map_err(|_| NoMemory)
    }
    /// The variables with their properties.
    pub(crate) fn finish(self) -> Vec<Var>
        ensures { result.items ≡ self.vars.items }
    {
        self.vars
    }
}
