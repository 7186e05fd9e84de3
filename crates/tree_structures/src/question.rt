//! What known structures are made of.

ghost use Rattle.std.specs.Prelude.{◌≡◌, ◌<◌, ◌≤◌, ◌+◌, ◌++◌, ◌∷◌, [], IsTrue, Some, slice_get};
ghost use Rattle.tree_structures.specs.Known.{numbers_of};

/// Numbers of known structures, from the left: `count` of them, from `a` on.
#[derive(Debug, Clone, Copy)]
pub(crate) struct Numbers {
    pub(crate) count: u32,
    pub(crate) a: u32,
    pub(crate) b: u32,
    pub(crate) c: u32,
    pub(crate) d: u32,
}

/// What a structure is made of: an entry, or a rule over known structures.
#[derive(Debug, Clone, Copy)]
pub(crate) enum Question {
    Entry(u32),
    Mother { place: u32, over: Numbers },
}

/// A hash with one more word.
fn mixed(hash: u64, word: u32) -> u64 {
    (hash ^ word as u64)
        .wrapping_mul(0x9E37_79B9_7F4A_7C15)
        .rotate_left(29)
}

impl Numbers {
    /// None.
    pub(crate) fn none() -> Numbers
        ensures numbers { numbers_of result ≡ [] }
        ensures count { result.count ≡ 0 }
    {
        Numbers {
            count: 0,
            a: 0,
            b: 0,
            c: 0,
            d: 0,
        }
    }

    /// One more, at the right, of at most four.
    pub(crate) fn with(self, number: u32) -> Numbers
        ensures numbers { self.count < 4 → numbers_of result ≡ numbers_of self ++ number ∷ [] }
        ensures count { self.count < 4 → result.count ≡ self.count + 1 }
    {
        let Numbers { a, b, c, d, .. } = self;
        match self.count {
            0 => Numbers {
                count: 1,
                a: number,
                b,
                c,
                d,
            },
            1 => Numbers {
                count: 2,
                a,
                b: number,
                c,
                d,
            },
            2 => Numbers {
                count: 3,
                a,
                b,
                c: number,
                d,
            },
            _ => Numbers {
                count: 4,
                a,
                b,
                c,
                d: number,
            },
        }
    }

    /// One of them.
    pub(crate) fn at(&self, place: u32) -> u32
        requires place { place < self.now.count }
        requires count { self.now.count ≤ 4 }
        ensures { slice_get (numbers_of self.now) place ≡ Some result }
    {
        match place {
            0 => self.a,
            1 => self.b,
            2 => self.c,
            _ => self.d,
        }
    }

    /// Whether they are the same.
    fn are(&self, other: &Numbers) -> bool
        ensures { IsTrue result → self.now ≡ other.now }
    {
        self.count == other.count
            && self.a == other.a
            && self.b == other.b
            && self.c == other.c
            && self.d == other.d
    }
}

impl Question {
    /// A number by which the same question is found.
    pub(crate) fn hash(&self) -> u64 {
        match self {
            Question::Entry(place) => mixed(0, *place),
            Question::Mother { place, over } => {
                let left = mixed(mixed(mixed(1, *place), over.count), over.a);
                mixed(mixed(mixed(left, over.b), over.c), over.d)
            }
        }
    }

    /// Whether the questions are the same.
    pub(crate) fn is(&self, other: &Question) -> bool
        ensures { IsTrue result → self.now ≡ other.now }
    {
        match self {
            Question::Entry(place) => match other {
                Question::Entry(other) => place == other,
                Question::Mother { .. } => false,
            },
            Question::Mother { place, over } => match other {
                Question::Entry(_) => false,
                Question::Mother {
                    place: other_place,
                    over: other_over,
                } => place == other_place && over.are(other_over),
            },
        }
    }
}
