//! The rules of statements and of texts.

ghost use Rattle.std.specs.Prelude.{◌≡◌, ◌<◌, ◌^◌, ◌≢◌, ◌++◌, ◌∷◌, [], ℕ, Err, List, None, Some, All, length, map, IfOk, OnOk, IfErr};
ghost use Rattle.std.specs.List.{Any};
ghost use Rattle.tdl_lexer.specs.declared.LexFault.{LexFault};
ghost use Rattle.tdl_lexer.specs.declared.Token.{Token};
ghost use Rattle.tdl_lexer.specs.Readings.{Tokens};
ghost use Rattle.tdl_reader.specs.declared.ReadFault.{ReadFault};
ghost use Rattle.tdl_reader.specs.Reading.{IsReading, FirstFault};
ghost use Rattle.tdl_reader.specs.Toks.{toks_of};
ghost use Rattle.tdl_reader.specs.Trees.{StatementTree};
ghost use Rattle.tdl_reader.specs.Views.{statement_of};
ghost use Rattle.transfer_model.specs.Rules.{Rule as RuleTree};
ghost use Rattle.transfer_model.specs.Views.{rule_of, IsHeld};
ghost use Rattle.transfer_rules.specs.Forms.{AreRules, IsFirstOutside, IsRuleOf, place_of};
ghost use Rattle.transfer_rules.specs.Inner.Read.{AreRead, fault_of};

use crate::building::Builder;
use crate::fault::{Refusal, RulesFault, TransferFault};
use crate::parts::parts_said;
use indexmap::IndexSet;
use std::alloc::Global;
use std::str;
use tdl_lexer::tokens;
use tdl_reader::{Statement, read};
use transfer_model::{Rule, TransferRules};

// The rules that were read so far, and their names.
#[derive(Drop)]
struct Reading {
    alloc: Global,
    builder: Builder,
    rules: Vec<Rule>,
    names: IndexSet<String>,
}

impl Reading {
    fn new(alloc: Global) -> Reading
        ensures rules { result.rules.items ≡ [] }
        ensures read { AreRead result.names.keys result.rules.items }
    {
        Reading {
            alloc,
            builder: Builder::new(alloc),
            rules: Vec::new(alloc),
            names: IndexSet::new(alloc),
        }
    }

    // The rule that a statement says.
    fn rule(&mut self, statement: &Statement) -> Result<Rule, Refusal>
        ensures some { IfOk result (λ r. IsRuleOf (statement_of statement.now) (rule_of r)) }
        ensures held { IfOk result IsHeld }
        ensures none { result ≡ Err Refusal.Form → (r : RuleTree) → IsRuleOf (statement_of statement.now) r → ⊥ }
        ensures same { self.new.rules ≡ self.old.rules }
        ensures named { self.new.names ≡ self.old.names }
    {
        let parts = parts_said(self.alloc, statement)?;
        self.builder.rule(&parts)
    }

    // Adds a rule, unless there is one of its name.
    fn add(&mut self, rule: Rule) -> Result<(), Refusal>
        requires held { IsHeld rule }
        requires read { AreRead self.old.names.keys self.old.rules.items }
        ensures read { OnOk result (AreRead self.new.names.keys self.new.rules.items) }
        ensures some { OnOk result (self.new.rules.items ≡ self.old.rules.items ++ rule ∷ []) }
        ensures apart { OnOk result (Any (λ q. q.name ≡ (rule_of rule).name) (map rule_of self.old.rules.items) → ⊥) }
        ensures none { result ≡ Err Refusal.Form → Any (λ q. q.name ≡ (rule_of rule).name) (map rule_of self.old.rules.items) }
    {
        let (_, is_new) = self.names.insert_full(rule.name.clone()?)?;
        if !is_new {
            return Err(Refusal::Form);
        }
        self.rules.push(rule)?;
        Ok(())
    }

    // Takes a statement.
    fn take(&mut self, statement: &Statement) -> Result<(), Refusal>
        requires { AreRead self.old.names.keys self.old.rules.items }
        ensures read { OnOk result (AreRead self.new.names.keys self.new.rules.items) }
        ensures some { OnOk result ((r : RuleTree) × IsRuleOf (statement_of statement.now) r × (map rule_of self.new.rules.items ≡ map rule_of self.old.rules.items ++ r ∷ [])
            × (Any (λ q. q.name ≡ r.name) (map rule_of self.old.rules.items) → ⊥)) }
        ensures none { result ≡ Err Refusal.Form → (r : RuleTree) → IsRuleOf (statement_of statement.now) r → Any (λ q. q.name ≡ r.name) (map rule_of self.old.rules.items) }
    {
        let rule = self.rule(statement)?;
        self.add(rule)
    }

    // All rules. Too many to be numbered are want of memory.
    fn finish(self) -> Result<TransferRules, RulesFault>
        requires { All IsHeld self.rules.items }
        ensures some { IfOk result (λ rs. rs ≡ map rule_of self.rules.items) }
        ensures none { IfErr result (λ e. e ≡ RulesFault.NoMemory) }
    {
        if u32::try_from(self.rules.len()).is_err() {
            return Err(RulesFault::NoMemory);
        }
        Ok(TransferRules::new(self.rules))
    }
}

// The place of a statement.
fn place_of(statement: &Statement) -> u32
    ensures { result ≡ place_of (statement_of statement.now) }
{
    match statement {
        Statement::Define { at, .. } => *at,
        Statement::Adds { at, .. } => *at,
        Statement::Begin { at, .. } => *at,
        Statement::End { at, .. } => *at,
        Statement::Include { at, .. } => *at,
        Statement::Letters { at, .. } => *at,
    }
}

// The fault of a statement that was refused.
fn fault_at(statement: &Statement, refusal: Refusal) -> RulesFault
    ensures { result ≡ fault_of (place_of (statement_of statement.now)) refusal }
{
    match refusal {
        Refusal::Form => RulesFault::Form {
            at: place_of(statement),
        },
        Refusal::NoMemory => RulesFault::NoMemory,
    }
}

/// The rules that statements say, in order of writing, or the first statement that is no rule. More than 2^32 - 1 statements are want of memory.
pub fn rules_of(alloc: Global, statements: &[Statement]) -> Result<TransferRules, RulesFault>
    ensures rules { IfOk result (λ rs. AreRules (map statement_of statements.now) rs) }
    ensures form { (at : ℕ) → result ≡ Err (RulesFault.Form at) → IsFirstOutside (map statement_of statements.now) at }
{
    let mut reading = Reading::new(alloc);
    for statement in statements {
        match reading.take(statement) {
            Ok(()) => {}
            Err(refusal) => return Err(fault_at(statement, refusal)),
        }
    }
    reading.finish()
}

// The text of bytes that have tokens.
fn text_of<'a>(bytes: &'a [u8]) -> &'a str
    requires { (ts : List Token) × Tokens bytes.now ts None }
    ensures { result.now ≡ bytes.now }
{
    match str::from_utf8(bytes) {
        Ok(text) => text,
        Err(_) => unreachable!(),
    }
}

/// The rules that a text says, in order of writing; or the first fault of its tokens, or of its statements, or the first statement that is no rule.
pub fn rules(alloc: Global, text: &[u8]) -> Result<TransferRules, TransferFault>
    requires { length text.now < 2 ^ 32 }
    ensures rules { IfOk result (λ rs. (ts : List Token) × (ss : List StatementTree) × Tokens text.now ts None × IsReading (toks_of text.now ts) ss × AreRules ss rs) }
    ensures lex { (fault : LexFault) → result ≡ Err (TransferFault.Lex fault) → (fault ≢ LexFault.NoMemory) × ((ts : List Token) × Tokens text.now ts (Some fault)) }
    ensures read { (fault : ReadFault) → result ≡ Err (TransferFault.Read fault) → (fault ≢ ReadFault.NoMemory) × ((ts : List Token) × Tokens text.now ts None × FirstFault (toks_of text.now ts) fault) }
    ensures form { (at : ℕ) → result ≡ Err (TransferFault.Form at) → (ts : List Token) × (ss : List StatementTree) × Tokens text.now ts None × IsReading (toks_of text.now ts) ss × IsFirstOutside ss at }
{
    let tokens = tokens(alloc, text)?;
    let statements = read(alloc, text_of(text), &tokens)?;
    Ok(rules_of(alloc, &statements)?)
}
