//! What a file of a grammar says, read whole.

ghost use Rattle.std.specs.Prelude.{◌≡◌, ◌≢◌, ℕ, ◌<◌, ◌≤◌, ◌^◌, List, Bool, length, map, IfOk, IfErr, Ok, Err, Option, option_map, Some, None};
ghost use Rattle.tdl_lexer.specs.Readings.{Tokens};
ghost use Rattle.tdl_lexer.specs.declared.Token.{Token};
ghost use Rattle.tdl_reader.specs.Views.{statement_of};
ghost use Rattle.grammar_files.specs.declared.fault.Why.{Why};
ghost use Rattle.grammar_files.specs.Faults.{IsFaultBy, place_of_lex, place_of_read};
ghost use Rattle.grammar_settings.specs.Forms.{Name};
ghost use Rattle.grammar_settings.specs.Settled.{settings_in};
ghost use Rattle.grammar_settings.specs.SettingsViews.{settings_of};
ghost use Rattle.grammar_files.specs.Walks.{Says, IsSettled, fault_at};
ghost use Rattle.grammar_files.specs.TextViews.{IsShelfFault, IsLexFault, SaysOf, IsFaultOfText, Covers};

use crate::fault::{LoadFault, Why};
use grammar_settings::{Settings, SettingsFault};
use lkb_io::{Shelf, ShelfFault};
use std::alloc::Global;
use std::str;
use tdl_lexer::{LexFault, Token, tokens};
use tdl_reader::{ReadFault, Statement, read};

/// A fault of a file, or want of memory for its name.
pub fn found(alloc: Global, file: &str, at: u32, why: Why) -> LoadFault
    ensures { IsFaultBy (λ f. f ≡ fault_at file.now at why) result }
{
    match String::from_str(alloc, file) {
        Ok(file) => LoadFault::Found { file, at, why },
        Err(_) => LoadFault::NoMemory,
    }
}

// The fault of a shelf that gives no text.
fn shelf_fault(alloc: Global, file: &str, fault: ShelfFault) -> LoadFault
    ensures { IsFaultBy (IsShelfFault file.now fault) result }
{
    match fault {
        ShelfFault::Failed => found(alloc, file, 0, Why::Shelf),
        ShelfFault::TooLong => found(alloc, file, 0, Why::TooLong),
        ShelfFault::NoMemory => LoadFault::NoMemory,
    }
}

// The fault of a file without tokens.
fn lex_fault(alloc: Global, file: &str, fault: LexFault) -> LoadFault
    ensures { IsFaultBy (λ f. (fault ≢ LexFault.NoMemory) × (f ≡ fault_at file.now (place_of_lex fault) (Why.Lex fault))) result }
{
    let at = match fault {
        LexFault::NotUtf8 { at }
        | LexFault::BadChar { at }
        | LexFault::OpenString { at }
        | LexFault::OpenComment { at }
        | LexFault::OpenGroup { at } => at,
        LexFault::NoMemory => return LoadFault::NoMemory,
    };
    found(alloc, file, at, Why::Lex(fault))
}

// The fault of a file whose tokens are no statements.
fn read_fault(alloc: Global, file: &str, text: &[u8], fault: ReadFault) -> LoadFault
    requires { length text.now < 2 ^ 32 }
    ensures { IsFaultBy (λ f. (fault ≢ ReadFault.NoMemory) × (f ≡ fault_at file.now (place_of_read text.now fault) (Why.Read fault))) result }
{
    let at = match fault {
        ReadFault::Unexpected { at } | ReadFault::TooDeep { at } | ReadFault::BadAffix { at } => at,
        ReadFault::EndOfFile => text.len() as u32,
        ReadFault::NoMemory => return LoadFault::NoMemory,
    };
    found(alloc, file, at, Why::Read(fault))
}

// The tokens of a file's bytes.
fn file_tokens(alloc: Global, name: &str, bytes: &[u8]) -> Result<Vec<Token>, LoadFault>
    requires { length bytes.now < 2 ^ 32 }
    ensures found { IfOk result (λ v. Tokens bytes.now v.items None) }
    ensures fault { IfErr result (IsFaultBy (IsLexFault name.now bytes.now)) }
{
    match tokens(alloc, bytes) {
        Ok(tokens) => Ok(tokens),
        Err(fault) => Err(lex_fault(alloc, name, fault)),
    }
}

// The text of bytes that have tokens.
fn text_of<'a>(bytes: &'a [u8]) -> &'a str
    requires { (ts : List Token) × Tokens bytes.now ts None }
    ensures { result.now ≡ bytes.now }
{
    match str::from_utf8(bytes) {
        Ok(text) => text,
        Err(_) => unreachable!(),
    }
}

// The statements of a file's bytes.
fn file_statements(alloc: Global, name: &str, bytes: &[u8]) -> Result<Vec<Statement>, LoadFault>
    requires { length bytes.now < 2 ^ 32 }
    ensures found { IfOk result (λ v. SaysOf bytes.now (map statement_of v.items)) }
    ensures fault { IfErr result (IsFaultBy (IsFaultOfText name.now bytes.now)) }
{
    let tokens = file_tokens(alloc, name, bytes)?;
    match read(alloc, text_of(bytes), &tokens) {
        Ok(statements) => Ok(statements),
        Err(fault) => Err(read_fault(alloc, name, bytes, fault)),
    }
}

/// What a file says, read whole: its statements, or its first fault.
pub fn said<S: Shelf>(alloc: Global, shelf: &mut S, name: &str) -> Result<Vec<Statement>, LoadFault>
    ensures said { IfOk result (λ v. (fails : Name → Bool) → Says (S.files shelf.old) fails name.now (Ok (map statement_of v.items))) }
    ensures fault { IfErr result (IsFaultBy (λ f. (fails : Name → Bool) → Covers (S.faults shelf.old) (S.faults shelf.new) (S.asked shelf.new) fails → Says (S.files shelf.old) fails name.now (Err f))) }
    ensures same { S.files shelf.new ≡ S.files shelf.old }
    ensures no_fall { S.faults shelf.old ≤ S.faults shelf.new }
{
    match shelf.text(alloc, name) {
        Ok(text) => file_statements(alloc, name, &text),
        Err(fault) => Err(shelf_fault(alloc, name, fault)),
    }
}

// The settings that a settings file with this text gives.
fn file_settings(alloc: Global, name: &str, text: &[u8]) -> Result<Settings, LoadFault>
    requires { length text.now < 2 ^ 32 }
    ensures settings { IfOk result (λ s. settings_in text.now ≡ Ok (settings_of s)) }
    ensures fault { IfErr result (IsFaultBy (λ f. (line : ℕ) × (settings_in text.now ≡ Err line) × (f ≡ fault_at name.now line Why.Settings))) }
{
    match Settings::read(alloc, text) {
        Ok(settings) => Ok(settings),
        Err(SettingsFault::Line { line }) => Err(found(alloc, name, line, Why::Settings)),
        Err(SettingsFault::NoMemory) => Err(LoadFault::NoMemory),
    }
}

// The settings that the settings file of this name gives.
fn named_settings<S: Shelf>(alloc: Global, shelf: &mut S, name: &str) -> Result<Settings, LoadFault>
    ensures settled { IfOk result (λ s. (fails : Name → Bool) → IsSettled (S.files shelf.old) fails (Some name.now) (Ok (settings_of s))) }
    ensures fault { IfErr result (IsFaultBy (λ f. (fails : Name → Bool) → Covers (S.faults shelf.old) (S.faults shelf.new) (S.asked shelf.new) fails → IsSettled (S.files shelf.old) fails (Some name.now) (Err f))) }
    ensures same { S.files shelf.new ≡ S.files shelf.old }
    ensures no_fall { S.faults shelf.old ≤ S.faults shelf.new }
{
    match shelf.text(alloc, name) {
        Ok(text) => file_settings(alloc, name, &text),
        Err(fault) => Err(shelf_fault(alloc, name, fault)),
    }
}

/// The settings of the settings file, or the default ones where there is none.
pub fn read_settings<S: Shelf>(
    alloc: Global,
    shelf: &mut S,
    settings: Option<&str>,
) -> Result<Settings, LoadFault>
    ensures settled { IfOk result (λ s. (fails : Name → Bool) → IsSettled (S.files shelf.old) fails (option_map (λ n. n.now) settings.entry) (Ok (settings_of s))) }
    ensures fault { IfErr result (IsFaultBy (λ f. (fails : Name → Bool) → Covers (S.faults shelf.old) (S.faults shelf.new) (S.asked shelf.new) fails → IsSettled (S.files shelf.old) fails (option_map (λ n. n.now) settings.entry) (Err f))) }
    ensures same { S.files shelf.new ≡ S.files shelf.old }
    ensures no_fall { S.faults shelf.old ≤ S.faults shelf.new }
{
    match settings {
        Some(name) => named_settings(alloc, shelf, name),
        None => Ok(Settings::default_names(alloc)?),
    }
}
