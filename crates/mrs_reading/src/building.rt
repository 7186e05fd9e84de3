//! The MRS that the tokens of a text stand for.

ghost use Rattle.std.specs.Prelude.{◌≡◌, ◌<◌, ◌≤◌, ◌++◌, ◌∷◌, [], List, true, IfOk, IfErr, OnOk, if◌then◌else◌, map, vec_len};
ghost use Rattle.std.specs.Bool.{OnTrue, OnFalse};
ghost use Rattle.mrs_spelling.specs.declared.kinds.Kind.{Kind};
ghost use Rattle.mrs_spelling.specs.Conditions.{Word, AllKeep, BreaksAfter};
ghost use Rattle.mrs_model.specs.Views.{meaning_of};
ghost use Rattle.mrs_reading.specs.Meaning.{Piece, is_top, is_index};
ghost use Rattle.mrs_reading.specs.Inner.Reading.{IsRead, IsNearly, IsFinished, piece_at};
ghost use Rattle.mrs_reading.specs.Inner.Tables.{is_variable};
ghost use Rattle.mrs_reading.specs.Inner.Stages.{Follow, kinds_in};
ghost use Rattle.mrs_reading.specs.Inner.Built.{IsBuilt, IsRefusal, word_at, kinds};

use crate::constraints::{Hcons, Icons};
use crate::eps::Eps;
use crate::table::Table;
use mrs_model::{Mrs, NoMemory};
use mrs_spelling::{Kind, Token};
use std::alloc::Global;

/// Why tokens stand for no MRS.
#[derive(Clone, Copy, Debug)]
pub(crate) enum Refusal {
    /// The first token that breaks a condition has so many bytes left.
    Breaks(usize),
    /// Want of memory.
    NoMemory,
}

impl From<NoMemory> for Refusal {
    ghost use Rattle.mrs_reading.specs.declared.building.Refusal.{Refusal};

    ghost from_gives = { λ _ e. e ≡ Refusal.NoMemory };

    fn from(_error: NoMemory) -> Refusal {
        Refusal::NoMemory
    }
}

/// What was read of an MRS.
#[derive(Drop)]
struct Building<'a> {
    table: Table,
    top: u32,
    index: u32,
    eps: Eps<'a>,
    hcons: Hcons,
    icons: Icons,
}

impl<'a> Building<'a> {
    fn new(alloc: Global) -> Building<'a>
        ensures built { IsBuilt [] result }
        ensures read { IsRead [] result }
    {
        Building {
            table: Table::new(alloc),
            top: 0,
            index: 0,
            eps: Eps::new(alloc),
            hcons: Hcons::new(alloc),
            icons: Icons::new(alloc),
        }
    }

    // The top and the index.
    fn note(&mut self, kind: Kind, last: u32)
        ensures table { self.new.table ≡ self.old.table }
        ensures eps { self.new.eps ≡ self.old.eps }
        ensures hcons { self.new.hcons ≡ self.old.hcons }
        ensures icons { self.new.icons ≡ self.old.icons }
        ensures top { self.new.top ≡ (if is_top kind then last else self.old.top) }
        ensures index { self.new.index ≡ (if is_index kind then last else self.old.index) }
    {
        if kind == Kind::Top {
            self.top = last;
        }
        if kind == Kind::Index {
            self.index = last;
        }
    }

    // Takes a token: false where it breaks a condition.
    fn take(&mut self, alloc: Global, token: &Token<'a>) -> Result<bool, NoMemory>
        requires { token.now.kind ≡ Kind.PropValue → self.old.table.last < vec_len self.old.table.vars }
        ensures built { IfOk result (λ ok. OnTrue ok ((ws : List Word) → IsBuilt ws self.old → IsBuilt (ws ++ word_at token.now ∷ []) self.new)) }
        ensures read { IfOk result (λ ok. OnTrue ok ((ws : List Word) (ps : List Piece) → IsBuilt ws self.old → IsRead ps self.old → Follow (kinds_in (ps ++ piece_at token.now ∷ [])) → IsRead (ps ++ piece_at token.now ∷ []) self.new)) }
        ensures keeps { IfOk result (λ ok. OnTrue ok ((ws : List Word) → IsBuilt ws self.old → BreaksAfter ws (word_at token.now) → ⊥)) }
        ensures breaks { IfOk result (λ ok. OnFalse ok ((ws : List Word) → IsBuilt ws self.old → BreaksAfter ws (word_at token.now))) }
        ensures some { IfOk result (λ ok. OnTrue ok ((ws : List Word) → IsBuilt ws self.old → is_variable token.now.kind ≡ true → 0 < vec_len self.new.table.vars)) }
        ensures more { IfOk result (λ ok. OnTrue ok ((ws : List Word) → IsBuilt ws self.old → vec_len self.old.table.vars ≤ vec_len self.new.table.vars)) }
    {
        if !self.table.take(alloc, token)? {
            return Ok(false);
        }
        let last = self.table.last()?;
        self.note(token.kind, last);
        self.hcons.take(alloc, token, last)?;
        self.icons.take(alloc, token, last)?;
        self.eps.take(alloc, token, last)
    }

    fn finish(self) -> Result<Mrs, NoMemory>
        ensures { IfOk result (IsFinished self.entry) }
    {
        let Building {
            table,
            top,
            index,
            eps,
            hcons,
            icons,
        } = self;
        Ok(Mrs {
            top,
            index,
            vars: table.finish(),
            eps: eps.finish(),
            hcons: hcons.finish(),
            icons: icons.finish(),
        })
    }
}

/// The MRS that the tokens stand for, or the first token that breaks a condition.
pub(crate) fn build(alloc: Global, tokens: &[Token<'_>]) -> Result<Mrs, Refusal>
    requires { Follow (kinds tokens.now) }
    ensures keeps { IfOk result (λ _. AllKeep (map word_at tokens.now)) }
    ensures means { IfOk result (λ m. IsNearly (map piece_at tokens.now) (meaning_of m)) }
    ensures breaks { IfErr result (IsRefusal tokens.now) }
{
    let mut building = Building::new(alloc);
    for token in tokens {
        if !building.take(alloc, token)? {
            return Err(Refusal::Breaks(token.left));
        }
    }
    Ok(building.finish()?)
}
