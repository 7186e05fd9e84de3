//! Laws of pluggings.

ghost use Rattle.std.specs.Prelude.{◌≡◌, ◌↔◌, ◌⊎◌, ℕ, List, [], ◌∷◌, ◌+◌, map, length, Contains, All};
ghost use Rattle.mrs_model.specs.Meanings.{Meaning};
ghost use Rattle.mrs_model.specs.Valid.{IsValid};
ghost use Rattle.scope_model.specs.declared.Opening.{Opening};
ghost use Rattle.scope_model.specs.declared.Quantifier.{Quantifier};
ghost use Rattle.scope_model.specs.declared.Binding.{Binding};
ghost use Rattle.scope_model.specs.declared.Qeq.{Qeq};
ghost use Rattle.scope_model.specs.Frames.{Frame, frame_of};
ghost use Rattle.scope_model.specs.declared.Plug.{Plug};
ghost use Rattle.scope_model.specs.Readings.{Plugged, IsLabel, IsHole, Rise, IsTree, IsPlugging, IsReading, Below, Reaches, label_at};
ghost use Rattle.scope_model.specs.States.{State, GoesUnder, IsFromTop, Extends, IsLedOnce, HasHomes, IsPlaced, IsFilled, IsOpen, IsOnWay, IsByBodies, HasBodies, IsDead, IsAllowed, LiesBelow, GoTogether, state, IsTrail, IsFull, AreApart, HasHoles, HasLabels, MayPlug, IsWellPlugged, IsSound, AreOnce};
ghost use Rattle.scope_model.specs.Answers.{AreReadings, AreAll, IsOver, IsQeq, IsFirstOther};
ghost use Rattle.scope_model.specs.Numbers.{in_order};
ghost use Rattle.mrs_reading.specs.Laws.{IsRenumbering};

/// A law: of a reading that goes on from a state from the top down, each label that isn't plugged in goes under one open hole. It does nothing.
pub fn homes()
    ensures led { (f : Frame) (p : Plugged) → IsReading f p → IsLedOnce f p }
    ensures homes { (f : Frame) (s : State) (p : Plugged) → IsLedOnce f p → IsFromTop f s → Extends s p → HasHomes f s p }
{}

/// A law: four ways to see that no reading goes on from a state, and which labels go under the same hole. It does nothing.
pub fn pruning()
    ensures label { (f : Frame) (s : State) (allowed : ℕ → List ℕ) (l : ℕ) → IsFromTop f s → IsAllowed f s allowed → IsLabel f l → (IsPlaced s l → ⊥) → allowed l ≡ [] → IsDead f s }
    ensures hole { (f : Frame) (s : State) (allowed : ℕ → List ℕ) (o : Opening) → IsFromTop f s → IsAllowed f s allowed → IsOpen f s o → ((l : ℕ) → IsLabel f l → Contains (allowed l) o.hole → ⊥) → IsDead f s }
    ensures above { (f : Frame) (s : State) (a l : ℕ) → IsFromTop f s → LiesBelow f a l → IsLabel f a → (IsPlaced s a → ⊥) → IsPlaced s l → IsDead f s }
    ensures together { (f : Frame) (s : State) (a l : ℕ) → IsFromTop f s → LiesBelow f a l → IsLabel f a → (IsPlaced s a → ⊥) → GoTogether f s a l }
{}

/// A law: a full state from the top down is a tree where no hole stands in two roles, and where one does there is no reading. It is a reading exactly
/// where what is asked of it is met, told by the state alone. It does nothing.
pub fn full_states()
    ensures apart { (f : Frame) (p : Plugged) → IsReading f p → AreApart f.openings }
    ensures from_top { (f : Frame) (root : ℕ) (ks : List Plug) → IsTrail f root ks → IsFromTop f (state root ks) }
    ensures whole { (f : Frame) (root : ℕ) (ks : List Plug) (p : Plugged) → IsTrail f root ks → AreApart f.openings → IsFull f (state root ks) → Extends (state root ks) p → HasBodies f → HasHoles f → IsPlugging f p → IsSound f (state root ks) ↔ IsReading f p }
    ensures holes { (m : Meaning) → HasHoles (frame_of m) }
    ensures tree { (f : Frame) (root : ℕ) (ks : List Plug) (p : Plugged) → IsTrail f root ks → AreApart f.openings → IsFull f (state root ks) → Extends (state root ks) p → IsTree f p }
{}

/// A law: what lies above a label that is plugged in is told by the state alone, for bindings and for qeqs, whatever is plugged in later. It does nothing.
pub fn climbing()
    ensures below { (f : Frame) (s : State) (p : Plugged) → IsLedOnce f p → IsFromTop f s → Extends s p → (h : ℕ) → IsFilled s h → (l : ℕ) → IsPlaced s l → IsOnWay f s h l ↔ Below f p (label_at p h) l }
    ensures reaches { (f : Frame) (s : State) (p : Plugged) → IsLedOnce f p → IsFromTop f s → Extends s p → HasBodies f → (a l : ℕ) → IsPlaced s l → IsByBodies f s a l ↔ Reaches f p a l }
    ensures bodies { (m : Meaning) → HasBodies (frame_of m) }
{}

/// A law: each reading that goes on from a state goes on by each open hole, and where no hole is open the state is full. The plugs of a full state in
/// order of their holes are a plugging, and it is told by its labels. It does nothing.
pub fn search()
    ensures step { (f : Frame) (root : ℕ) (ks : List Plug) (p : Plugged) → IsReading f p → IsTrail f root ks → Extends (state root ks) p → (o : Opening) → IsOpen f (state root ks) o → MayPlug f (state root ks) (record { hole = o.hole; label = label_at p o.hole }) × Extends (state root (record { hole = o.hole; label = label_at p o.hole } ∷ ks)) p }
    ensures full { (f : Frame) (root : ℕ) (ks : List Plug) (p : Plugged) → IsReading f p → IsTrail f root ks → Extends (state root ks) p → HasLabels f → ((o : Opening) → IsOpen f (state root ks) o → ⊥) → IsFull f (state root ks) }
    ensures labels { (m : Meaning) → HasLabels (frame_of m) }
    ensures plugging { (f : Frame) (root : ℕ) (ks ps : List Plug) → IsTrail f root ks → IsFull f (state root ks) → IsWellPlugged f root ks → ((k : Plug) → Contains ps k ↔ Contains ks k) → Rise (map (λ k. k.hole) ps) → IsPlugging f (record { top = root; plugs = ps }) × Extends (state root ks) (record { top = root; plugs = ps }) }
    ensures one { (f : Frame) (p q : Plugged) → IsPlugging f p → IsPlugging f q → p.top ≡ q.top → ((h : ℕ) → IsHole f h → label_at p h ≡ label_at q h) → p ≡ q }
{}

/// A law: there is no reading where TOP is a hole and no label, where a qeq's right isn't a label or its left nothing, and where the labels aren't one
/// more than the holes. It does nothing.
pub fn at_once()
    ensures top { (f : Frame) (p : Plugged) → IsReading f p → (IsLabel f f.top → ⊥) → IsHole f f.top → ⊥ }
    ensures right { (f : Frame) (p : Plugged) (c : Qeq) → IsReading f p → Contains f.qeqs c → IsLabel f c.right }
    ensures left { (f : Frame) (p : Plugged) (c : Qeq) → IsReading f p → Contains f.qeqs c → IsHole f c.left ⊎ (IsLabel f c.left ⊎ (c.left ≡ f.top)) }
    ensures count { (f : Frame) (p : Plugged) → IsReading f p → (ls : List ℕ) → AreOnce ls → ((l : ℕ) → Contains ls l ↔ IsLabel f l) → length ls ≡ length f.openings + 1 }
{}

/// A law: an MRS has one answer: all its readings, or that there are more than `max`, or its first constraint that isn't `qeq`. It does nothing.
pub fn one_answer()
    ensures over { (m : Meaning) (max : ℕ) (ps : List Plugged) → AreAll m max ps → IsOver m max → ⊥ }
    ensures other { (m : Meaning) (a : ℕ) → IsFirstOther m a → All IsQeq m.hcons → ⊥ }
    ensures first { (m : Meaning) (a b : ℕ) → IsFirstOther m a → IsFirstOther m b → a ≡ b }
{}

/// A law: labels that are above others in each reading. It does nothing.
pub fn above()
    ensures binding { (f : Frame) (b : Binding) (o k : Opening) → Contains f.bindings b → Contains f.openings o → Contains f.openings k → o.hole ≡ b.rstr → k.hole ≡ b.body → k.label ≡ o.label → LiesBelow f o.label b.label }
    ensures hole { (f : Frame) (c : Qeq) (o : Opening) → HasBodies f → Contains f.qeqs c → Contains f.openings o → o.hole ≡ c.left → LiesBelow f o.label c.right }
    ensures label { (f : Frame) (c : Qeq) → HasBodies f → Contains f.qeqs c → IsLabel f c.left → LiesBelow f c.left c.right }
    ensures forced { (f : Frame) (o : Opening) → Contains f.openings o → IsLabel f o.hole → LiesBelow f o.label o.hole }
{}

/// A law: which open holes a label may go under that must lie below a hole, or be reached from a label through BODYs. It does nothing.
pub fn masks()
    ensures below { (f : Frame) (s : State) (p : Plugged) → IsLedOnce f p → IsFromTop f s → Extends s p → (r o : Opening) (l : ℕ) → Contains f.openings r → IsPlaced s r.label → Below f p (label_at p r.hole) l → GoesUnder f s p o l → (o.hole ≡ r.hole) ⊎ IsOnWay f s r.hole o.label }
    ensures bodies { (f : Frame) (s : State) (p : Plugged) → IsLedOnce f p → IsFromTop f s → Extends s p → HasBodies f → (a l : ℕ) (o : Opening) → IsPlaced s a → Reaches f p a l → GoesUnder f s p o l → (q : Quantifier) × Contains f.quantifiers q × (q.label ≡ o.label) × (q.body ≡ o.hole) × IsByBodies f s a o.label }
{}

/// A law: the list of all readings is one. It does nothing.
pub fn one_list()
    ensures { (f : Frame) (ps qs : List Plugged) → AreReadings f ps → AreReadings f qs → ps ≡ qs }
{}

/// A law: MRSs that are one but for the numbers of their variables are one in the numbers of their text. It does nothing.
pub fn one_frame()
    ensures { (m k : Meaning) (to : List ℕ) → IsValid m → IsValid k → IsRenumbering m k to → in_order m ≡ in_order k }
{}
