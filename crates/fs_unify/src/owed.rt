//! What a graph owes that was cut out of a well-formed one.

ghost use Rattle.std.specs.Prelude.{◌≡◌, ℕ, ◌<◌, Bool, true, map, length, filter, IfOk, IfSome, option_map, slice_index_or};
ghost use Rattle.std.specs.List.{list_any};
ghost use Rattle.type_hierarchy.specs.Table.{count_of};
ghost use Rattle.fs_graph.specs.Facts.{path_of, claim_of, claims_of};
ghost use Rattle.fs_closing.specs.Rules.{no_rule, rules_above, HaveSame};
ghost use Rattle.fs_model.specs.Claims.{Claim, Has};
ghost use Rattle.fs_unify.specs.Debts.{debt_at, Pays, HaveDebts, IsPaidBy};
ghost use Rattle.fs_unify.specs.Owing.{is_one_of, begins_with, is_cut_off, speaks_of, owed_by, row_at, debts_at, IsOwing, HaveOwing, ListsOwed};
ghost use Rattle.fs_unify.specs.Inner.Marks.{HaveMarks};

use crate::debts::{Debt, debt_of};
use fs_closing::NoMemory;
use fs_closing::system::TypeSystem;
use fs_drawing::draw::{Off, has};
use fs_graph::{Fact, Feat};
use std::alloc::Global;
use std::marker::Model;
use type_hierarchy::Ty;

/// For each type, places of rules which say what a graph owes at a node of the type: at its root, and at its other nodes. For each
/// rule, what its type owes, which enters as a graph. It is made once for a type system and the features that a cut cuts off, and lent to each unification.
#[derive(Drop)]
pub struct Owed {
    at_root: Vec<Vec<u32>>,
    further: Vec<Vec<u32>>,
    root_debts: Vec<Option<Debt>>,
    further_debts: Vec<Option<Debt>>,
}

impl Model for Owed {
    ghost use Rattle.std.specs.Prelude.{map};
    ghost use Rattle.fs_unify.specs.Owing.{OwedRules};

    ghost Value = { OwedRules };

    ghost view = { λ o. record { at_root = map (λ row. row.items) o.at_root.items; further = map (λ row. row.items) o.further.items; root_debts = o.root_debts.items; further_debts = o.further_debts.items } };
}

// Whether a path begins with one of these features.
fn begins_with(path: &[Feat], feats: &[Feat]) -> bool
    ensures { result ≡ begins_with (path_of feats.now) (path_of path.now) }
{
    match path.first() {
        Some(first) => has(feats, *first),
        None => false,
    }
}

// Whether a path holds one of these features.
fn holds_one(path: &[Feat], feats: &[Feat]) -> bool
    ensures { result ≡ list_any (is_one_of (path_of feats.now)) (path_of path.now) }
{
    for feat in path {
        if has(feats, *feat) {
            return true;
        }
    }
    false
}

// Whether a path begins with a feature that is cut off at the root, or holds one that is cut off anywhere.
fn is_cut_off(path: &[Feat], at_root: &[Feat], anywhere: &[Feat]) -> bool
    ensures { result ≡ is_cut_off (path_of at_root.now) (path_of anywhere.now) (path_of path.now) }
{
    begins_with(path, at_root) || holds_one(path, anywhere)
}

// Whether a fact speaks of a path that is cut off.
fn speaks_of(fact: &Fact, at_root: &[Feat], anywhere: &[Feat]) -> bool
    ensures { result ≡ speaks_of (path_of at_root.now) (path_of anywhere.now) (claim_of fact.now) }
{
    match fact {
        Fact::Exists { path } => is_cut_off(path, at_root, anywhere),
        Fact::Below { path, ty: _ } => is_cut_off(path, at_root, anywhere),
        Fact::Same { a, b } => {
            is_cut_off(a, at_root, anywhere) || is_cut_off(b, at_root, anywhere)
        }
    }
}

// Whether one of these facts speaks of a path that is cut off.
fn one_speaks_of(facts: &[Fact], at_root: &[Feat], anywhere: &[Feat]) -> bool
    ensures { result ≡ list_any (speaks_of (path_of at_root.now) (path_of anywhere.now)) (claims_of facts.now) }
{
    for fact in facts {
        if speaks_of(fact, at_root, anywhere) {
            return true;
        }
    }
    false
}

// For each rule, whether it has a fact that speaks of a path that is cut off. Rules stand above many types, so each is looked at
// once.
fn marks_of(
    alloc: Global,
    system: &TypeSystem,
    at_root: &[Feat],
    anywhere: &[Feat],
) -> Result<Vec<bool>, NoMemory>
    ensures { IfOk result (λ marks. HaveMarks system.now (speaks_of (path_of at_root.now) (path_of anywhere.now)) (length system.now.rules) marks.items) }
{
    let count = system.rule_count();
    let mut marks = Vec::with_capacity(alloc, count as usize)?;
    for rule in 0..count {
        marks.push(one_speaks_of(system.facts(rule), at_root, anywhere))?;
    }
    Ok(marks)
}

// So few facts, of which half only say that a path exists, cost less put path by path than a graph which enters: what they lead to is mostly there.
const FEW_FACTS: usize = 8;

// Whether the rules at or above a type that are marked have more facts than a few.
fn has_many(system: &TypeSystem, marks: &[bool], ty: u32) -> bool
    requires ty { ty < count_of system.now.types }
    requires marks { length marks.now ≡ length system.now.rules }
{
    let mut left = FEW_FACTS;
    for rule in system.rules_above(ty) {
        if marks[*rule as usize] {
            let count = system.facts(*rule).len();
            if count > left {
                return true;
            }
            left -= count;
        }
    }
    false
}

// What a rule's type owes, if that is wanted, and the constraint of the type is known.
fn debt_if(
    alloc: Global,
    system: &TypeSystem,
    rule: u32,
    is_wanted: bool,
    off: Off<'_>,
) -> Result<Option<Debt>, NoMemory>
    requires { rule < length system.now.rules }
    ensures { IfOk result (λ o. IfSome o (Pays system.now (speaks_of (path_of off.entry.at_root.now) (path_of off.entry.anywhere.now)) (slice_index_or system.now.rules rule no_rule).ty)) }
{
    if !is_wanted {
        return Ok(None);
    }
    let ty = system.rule_type(rule);
    let Some(known) = system.constraint_above(ty) else {
        return Ok(None);
    };
    if known.ty != ty {
        return Ok(None);
    }
    debt_of(alloc, system, known, off)
}

// For each rule that is marked, what its type owes, where that is more than a few facts.
fn debts_of(
    alloc: Global,
    system: &TypeSystem,
    marks: &[bool],
    off: Off<'_>,
) -> Result<Vec<Option<Debt>>, NoMemory>
    requires marks { length marks.now ≡ length system.now.rules }
    ensures { IfOk result (λ debts. HaveDebts system.now (speaks_of (path_of off.entry.at_root.now) (path_of off.entry.anywhere.now)) (length system.now.rules) debts.items) }
{
    let count = system.rule_count();
    let mut debts = Vec::with_capacity(alloc, count as usize)?;
    for rule in 0..count {
        let is_wanted = marks[rule as usize] && has_many(system, marks, system.rule_type(rule));
        let debt = debt_if(alloc, system, rule, is_wanted, off)?;
        debts.push(debt)?;
    }
    Ok(debts)
}

// What a rule's type owes, if it is known.
fn known<'a>(debts: &'a [Option<Debt>], rule: u32) -> Option<&'a Debt>
    requires { rule < length debts.now }
    ensures { option_map (λ d. d.now) result ≡ debt_at debts.now rule }
{
    debts[rule as usize].as_ref()
}

// Whether what a rule says is said by another one's facts or by what its type owes.
fn is_paid_by(system: &TypeSystem, debts: &[Option<Debt>], by: u32, rule: u32) -> bool
    requires debts { length debts.now ≡ length system.now.rules }
    requires by { by < length system.now.rules }
    requires rule { rule < length system.now.rules }
    ensures { result ≡ true → IsPaidBy system.now debts.now by rule }
{
    if known(debts, by).is_none() {
        return by == rule;
    }
    system
        .types()
        .at_or_below(Ty(system.rule_type(by)), Ty(system.rule_type(rule)))
}

// Whether a rule is to be left out for another one: of two that say what the other one says, the later one is.
fn is_spared(system: &TypeSystem, debts: &[Option<Debt>], by: u32, rule: u32) -> bool
    requires debts { length debts.now ≡ length system.now.rules }
    requires by { by < length system.now.rules }
    requires rule { rule < length system.now.rules }
{
    if by == rule || !is_paid_by(system, debts, by, rule) {
        return false;
    }
    by < rule || !is_paid_by(system, debts, rule, by)
}

// Whether a rule is to be left out for one of these.
fn one_spares(system: &TypeSystem, debts: &[Option<Debt>], rules: &[u32], rule: u32) -> bool
    requires debts { length debts.now ≡ length system.now.rules }
    requires rules { (j : ℕ) → Has j rules.now → j < length system.now.rules }
    requires rule { rule < length system.now.rules }
{
    for by in rules {
        if is_spared(system, debts, *by, rule) {
            return true;
        }
    }
    false
}

// The rules of these that aren't to be left out.
fn least_of(
    alloc: Global,
    system: &TypeSystem,
    debts: &[Option<Debt>],
    rules: &[u32],
) -> Result<Vec<u32>, NoMemory>
    requires debts { length debts.now ≡ length system.now.rules }
    requires rules { (j : ℕ) → Has j rules.now → j < length system.now.rules }
    ensures { IfOk result (λ row. (j : ℕ) → Has j row.items → Has j rules.now) }
{
    let mut row = Vec::new(alloc);
    for rule in rules {
        if !one_spares(system, debts, rules, *rule) {
            row.push(*rule)?;
        }
    }
    Ok(row)
}

// Whether one of these rules says what another one says.
fn one_pays(system: &TypeSystem, debts: &[Option<Debt>], rules: &[u32], rule: u32) -> bool
    requires debts { length debts.now ≡ length system.now.rules }
    requires rules { (j : ℕ) → Has j rules.now → j < length system.now.rules }
    requires rule { rule < length system.now.rules }
    ensures { result ≡ true → (i : ℕ) × Has i rules.now × IsPaidBy system.now debts.now i rule }
{
    for by in rules {
        if is_paid_by(system, debts, *by, rule) {
            return true;
        }
    }
    false
}

// Whether a row of rules says what these rules say.
fn all_paid(system: &TypeSystem, debts: &[Option<Debt>], row: &[u32], rules: &[u32]) -> bool
    requires debts { length debts.now ≡ length system.now.rules }
    requires row { (j : ℕ) → Has j row.now → j < length system.now.rules }
    requires rules { (j : ℕ) → Has j rules.now → j < length system.now.rules }
    ensures { result ≡ true → (j : ℕ) → Has j rules.now → (i : ℕ) × Has i row.now × IsPaidBy system.now debts.now i j }
{
    for rule in rules {
        if !one_pays(system, debts, row, *rule) {
            return false;
        }
    }
    true
}

// The rules at or above a type that are marked.
fn rules_owed(
    alloc: Global,
    system: &TypeSystem,
    t: u32,
    marks: &[bool],
) -> Result<Vec<u32>, NoMemory>
    requires within { t < count_of system.now.types }
    requires marks { length marks.now ≡ length system.now.rules }
    ensures inside { IfOk result (λ row. (j : ℕ) → Has j row.items → j < length system.now.rules) }
    ensures marked { IfOk result (λ row. (owed : Claim → Bool) → HaveMarks system.now owed (length system.now.rules) marks.now → HaveSame row.items (filter (λ j. list_any owed (slice_index_or system.now.rules j no_rule).claims) (rules_above system.now.types system.now.rules t))) }
{
    let mut row = Vec::new(alloc);
    for rule in system.rules_above(t) {
        if marks[*rule as usize] {
            row.push(*rule)?;
        }
    }
    Ok(row)
}

// As few rules at or above a type as say what those say that are marked.
fn row_owed(
    alloc: Global,
    system: &TypeSystem,
    t: u32,
    marks: &[bool],
    debts: &[Option<Debt>],
) -> Result<Vec<u32>, NoMemory>
    requires within { t < count_of system.now.types }
    requires marks { length marks.now ≡ length system.now.rules }
    requires debts { length debts.now ≡ length system.now.rules }
    ensures { IfOk result (λ row. (owed : Claim → Bool) → HaveMarks system.now owed (length system.now.rules) marks.now → IsOwing system.now owed debts.now t row.items) }
{
    system.types().laws();
    let rules = rules_owed(alloc, system, t, marks)?;
    let row = least_of(alloc, system, debts, &rules)?;
    if all_paid(system, debts, &row, &rules) {
        return Ok(row);
    }
    Ok(rules)
}

// For each type, such rules.
fn rows_owed(
    alloc: Global,
    system: &TypeSystem,
    marks: &[bool],
    debts: &[Option<Debt>],
) -> Result<Vec<Vec<u32>>, NoMemory>
    requires marks { length marks.now ≡ length system.now.rules }
    requires debts { length debts.now ≡ length system.now.rules }
    ensures { IfOk result (λ rows. (owed : Claim → Bool) → HaveMarks system.now owed (length system.now.rules) marks.now → HaveOwing system.now owed debts.now (count_of system.now.types) (map (λ row. row.items) rows.items)) }
{
    let count = system.types().counts().all;
    let mut rows = Vec::with_capacity(alloc, count as usize)?;
    for t in 0..count {
        rows.push(row_owed(alloc, system, t, marks, debts)?)?;
    }
    Ok(rows)
}

// What is owed at nodes where these features are cut off: a row of rules for each type, and for each rule what its type owes.
#[derive(Drop)]
struct OwedAt {
    rows: Vec<Vec<u32>>,
    debts: Vec<Option<Debt>>,
}

// What is owed at nodes where these features are cut off.
fn owed_at(alloc: Global, system: &TypeSystem, off: Off<'_>) -> Result<OwedAt, NoMemory>
    ensures rows { IfOk result (λ o. HaveOwing system.now (speaks_of (path_of off.entry.at_root.now) (path_of off.entry.anywhere.now)) o.debts.items (count_of system.now.types) (map (λ row. row.items) o.rows.items)) }
    ensures debts { IfOk result (λ o. HaveDebts system.now (speaks_of (path_of off.entry.at_root.now) (path_of off.entry.anywhere.now)) (length system.now.rules) o.debts.items) }
{
    let marks = marks_of(alloc, system, off.at_root, off.anywhere)?;
    let debts = debts_of(alloc, system, &marks, off)?;
    let rows = rows_owed(alloc, system, &marks, &debts)?;
    Ok(OwedAt { rows, debts })
}

impl Owed {
    /// What a graph owes that was well-formed until features were cut off, some at its root and some anywhere: the facts that
    /// speak of them. Both lists are to be short. `NoMemory` comes only for want of memory.
    pub fn new(
        alloc: Global,
        system: &TypeSystem,
        at_root: &[Feat],
        anywhere: &[Feat],
    ) -> Result<Owed, NoMemory>
        ensures { IfOk result (ListsOwed system.now (owed_by (path_of at_root.now) (path_of anywhere.now))) }
    {
        let none = Off::none().at_root;
        let root = owed_at(alloc, system, Off { at_root, anywhere })?;
        let further = owed_at(
            alloc,
            system,
            Off {
                at_root: none,
                anywhere,
            },
        )?;
        Ok(Owed {
            at_root: root.rows,
            further: further.rows,
            root_debts: root.debts,
            further_debts: further.debts,
        })
    }

    /// The places of the rules which say what is owed at a node of a type, which is the root or not: what the type of a rule owes, where
    /// it is known, and else its facts.
    pub fn rules(&self, is_root: bool, t: u32) -> &[u32]
        requires at_root { t < length self.now.at_root }
        requires further { t < length self.now.further }
        ensures { result.now ≡ row_at self.now is_root t }
    {
        if is_root {
            return &self.at_root[t as usize];
        }
        &self.further[t as usize]
    }

    /// What a rule's type owes at the root or at another node, if it is known.
    pub fn debt(&self, is_root: bool, rule: u32) -> Option<&Debt>
        requires at_root { rule < length self.now.root_debts }
        requires further { rule < length self.now.further_debts }
        ensures { option_map (λ d. d.now) result ≡ debt_at (debts_at self.now is_root) rule }
    {
        if is_root {
            return self.root_debts[rule as usize].as_ref();
        }
        self.further_debts[rule as usize].as_ref()
    }
}
