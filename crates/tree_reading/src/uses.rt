//! What a name is to trees.

ghost use Rattle.std.specs.Prelude.{◌≡◌, ◌↔◌, IsTrue, None};

/// A phrase rule, by its place, and how many daughters it has.
#[derive(Clone, Copy, Debug)]
pub(crate) struct Phrase {
    pub rule: u32,
    pub daughters: u32,
}

/// The rules of a name.
#[derive(Clone, Copy, Debug)]
pub(crate) struct Rules {
    pub lexical: Option<u32>,
    pub phrase: Option<Phrase>,
}

/// The entry and the rules of a name.
#[derive(Clone, Copy, Debug)]
pub(crate) struct Uses {
    pub entry: Option<u32>,
    pub rules: Rules,
}

impl Rules {
    /// Whether there is none.
    pub fn is_none(&self) -> bool
        ensures { IsTrue result ↔ (self.now.lexical ≡ None) × (self.now.phrase ≡ None) }
    {
        self.lexical.is_none() && self.phrase.is_none()
    }
}

impl Uses {
    /// Whether there is none.
    pub fn is_none(&self) -> bool
        ensures { IsTrue result ↔ (self.now.entry ≡ None) × (self.now.rules.lexical ≡ None) × (self.now.rules.phrase ≡ None) }
    {
        self.entry.is_none() && self.rules.is_none()
    }

    /// Those of a name that has no part.
    pub const NONE: Uses = Uses {
        entry: None,
        rules: Rules {
            lexical: None,
            phrase: None,
        },
    };
}
