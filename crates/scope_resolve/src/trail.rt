//! Plugs from the top down.

ghost use Rattle.std.specs.Prelude.{◌≡◌, ◌++◌, ◌∷◌, List, [], OnOk, IsTrue, ◌↔◌};
ghost use Rattle.scope_model.specs.declared.Plug.{Plug};
ghost use Rattle.scope_model.specs.States.{IsPlaced, IsFilled};
ghost use Rattle.scope_resolve.specs.Inner.Ways.{placed_in, plugged_at, is_there, is_on_way, is_by_bodies};
ghost use Rattle.scope_resolve.specs.Inner.Filling.{path, state_of};

use crate::nets::{Net, mark_at, number_at};
use mrs_model::NoMemory;
use scope_model::Plug;

/// The label of the top hole, and what is plugged into holes so far, each hole being one of a label that was plugged in before.
#[derive(Drop)]
pub(crate) struct Trail {
    pub(crate) root: u32,
    pub(crate) plugs: Vec<Plug>,
}

impl Trail {
    /// Whether a label is plugged in.
    pub(crate) fn is_placed(&self, label: u32) -> bool
        ensures there { result ≡ is_there self.now.root label (path self.now) }
        ensures placed { IsTrue result ↔ IsPlaced (state_of self.now) label }
    {
        if label == self.root {
            return true;
        }
        self.has(label)
    }

    /// Whether a hole has a plug.
    pub(crate) fn is_filled(&self, hole: u32) -> bool
        ensures { IsTrue result ↔ IsFilled (state_of self.now) hole }
    {
        match self.label_at(hole) {
            Some(_) => true,
            None => false,
        }
    }

    // Whether some plug has the label.
    fn has(&self, label: u32) -> bool
        ensures { result ≡ placed_in label (path self.now) }
    {
        let mut left = self.plugs.len();
        while left > 0 {
            left -= 1;
            let plug = self.plugs[left];
            if plug.label == label {
                return true;
            }
        }
        false
    }

    /// The label that is plugged into a hole.
    pub(crate) fn label_at(&self, hole: u32) -> Option<u32>
        ensures { result ≡ plugged_at hole (path self.now) }
    {
        let mut left = self.plugs.len();
        while left > 0 {
            left -= 1;
            let plug = self.plugs[left];
            if plug.hole == hole {
                return Some(plug.label);
            }
        }
        None
    }

    /// Whether a hole is on the way from a label up to the root. The way falls in the trail, so one pass over it is enough.
    pub(crate) fn is_on_way(&self, net: &Net, hole: u32, label: u32) -> bool
        ensures { result ≡ is_on_way net.now.owner.items hole label (path self.now) }
    {
        let mut at = label;
        let mut left = self.plugs.len();
        while left > 0 {
            left -= 1;
            let plug = self.plugs[left];
            if plug.label == at {
                if plug.hole == hole {
                    return true;
                }
                at = number_at(&net.owner, plug.hole);
            }
        }
        false
    }

    /// Whether the way from a label up to another one goes through BODYs alone.
    pub(crate) fn is_by_bodies(&self, net: &Net, above: u32, label: u32) -> bool
        ensures { result ≡ is_by_bodies net.now.owner.items net.now.is_body.items above label (path self.now) }
    {
        let mut at = label;
        let mut left = self.plugs.len();
        while left > 0 {
            if above == at {
                return true;
            }
            left -= 1;
            let plug = self.plugs[left];
            if plug.label == at {
                if !mark_at(&net.is_body, plug.hole) {
                    return false;
                }
                at = number_at(&net.owner, plug.hole);
            }
        }
        above == at
    }

    /// One more plug.
    pub(crate) fn push(&mut self, hole: u32, label: u32) -> Result<(), NoMemory>
        ensures root { self.new.root ≡ self.old.root }
        ensures ok { OnOk result (self.new.plugs.items ≡ self.old.plugs.items ++ record { hole = hole; label = label } ∷ []) }
    {
        self.plugs.push(Plug { hole, label })?;
        Ok(())
    }

    /// Without the last plug.
    pub(crate) fn pop(&mut self)
        ensures root { self.new.root ≡ self.old.root }
        ensures plugs { (rest : List Plug) (last : Plug) → self.old.plugs.items ≡ rest ++ last ∷ [] → self.new.plugs.items ≡ rest }
    {
        let _last = self.plugs.pop();
    }
}
