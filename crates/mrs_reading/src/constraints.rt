//! The constraints of a text.

ghost use Rattle.std.specs.Prelude.{◌≡◌, ◌++◌, ◌∷◌, [], ℕ, List, true, IfOk, OnOk};
ghost use Rattle.mrs_reading.specs.Meaning.{Piece, Is, is_variable};
ghost use Rattle.mrs_reading.specs.Inner.Reading.{AreHcons, AreIcons, piece_at};

use mrs_model::{Hcon, Icon, NoMemory};
use mrs_spelling::{Kind, Token};
use std::alloc::Global;

/// The handle constraints that were read; the first variable and the relation that were read last.
#[derive(Drop)]
pub(crate) struct Hcons {
    list: Vec<Hcon>,
    high: u32,
    rel: String,
}

impl Hcons {
    pub(crate) fn new(alloc: Global) -> Hcons
        ensures { (keys : List (List ℕ)) → AreHcons keys [] result }
    {
        Hcons {
            list: Vec::new(alloc),
            high: 0,
            rel: String::new(alloc),
        }
    }

    /// Takes a token. `last` is the number of the last variable.
    pub(crate) fn take(
        &mut self,
        alloc: Global,
        token: &Token<'_>,
        last: u32,
    ) -> Result<(), NoMemory>
        ensures { OnOk result ((keys : List (List ℕ)) (ps : List Piece) → (is_variable token.now.kind ≡ true → Is keys (piece_at token.now) last) → AreHcons keys ps self.old → AreHcons keys (ps ++ piece_at token.now ∷ []) self.new) }
    {
        match token.kind {
            Kind::High => {
                self.high = last;
                Ok(())
            }
            Kind::HandleRel => {
                self.rel = token.text.to_ascii_lowercase(alloc)?;
                Ok(())
            }
            Kind::Low => {
                let rel = self.rel.clone()?;
                self.list.push(Hcon {
                    high: self.high,
                    rel,
                    low: last,
                })?;
                Ok(())
            }
            _ => Ok(()),
        }
    }

    /// All of them.
    pub(crate) fn finish(self) -> Vec<Hcon>
        ensures { result.items ≡ self.list.items }
    {
        self.list
    }
}

/// The individual constraints that were read; the first variable and the relation that were read last.
#[derive(Drop)]
pub(crate) struct Icons {
    list: Vec<Icon>,
    left: u32,
    rel: String,
}

impl Icons {
    pub(crate) fn new(alloc: Global) -> Icons
        ensures { (keys : List (List ℕ)) → AreIcons keys [] result }
    {
        Icons {
            list: Vec::new(alloc),
            left: 0,
            rel: String::new(alloc),
        }
    }

    /// Takes a token. `last` is the number of the last variable.
    pub(crate) fn take(
        &mut self,
        alloc: Global,
        token: &Token<'_>,
        last: u32,
    ) -> Result<(), NoMemory>
        ensures { OnOk result ((keys : List (List ℕ)) (ps : List Piece) → (is_variable token.now.kind ≡ true → Is keys (piece_at token.now) last) → AreIcons keys ps self.old → AreIcons keys (ps ++ piece_at token.now ∷ []) self.new) }
    {
        match token.kind {
            Kind::Left => {
                self.left = last;
                Ok(())
            }
            Kind::VariableRel => {
                self.rel = token.text.to_ascii_lowercase(alloc)?;
                Ok(())
            }
            Kind::Right => {
                let rel = self.rel.clone()?;
                self.list.push(Icon {
                    left: self.left,
                    rel,
                    right: last,
                })?;
                Ok(())
            }
            _ => Ok(()),
        }
    }

    /// All of them.
    pub(crate) fn finish(self) -> Vec<Icon>
        ensures { result.items ≡ self.list.items }
    {
        self.list
    }
}
