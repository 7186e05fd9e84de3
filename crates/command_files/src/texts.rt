//! The texts of faults of files: each is one line of bytes.

ghost use Rattle.std.specs.Prelude.{◌≡◌, ◌++◌, ◌∷◌, [], codes, map, IfOk, OnOk};
ghost use Rattle.std.specs.String.{string_bytes};
ghost use Rattle.std.specs.Fmt.{decimal};
ghost use Rattle.command_files.specs.FaultTexts.{spaced, lex_fault_name, read_fault_name, type_fault_words, feature_name, expand_fault_words, why_words, has_place, place_text, cause_text, found_text, word_text};

use crate::NoMemory;
use crate::causes::cause;
use grammar_files::{ExpandFault, Why};
use itoa::Buffer;
use std::alloc::Global;
use tdl_lexer::LexFault;
use tdl_reader::ReadFault;
use type_hierarchy::TypeFault;

// Adds a blank and a word to a line.
fn add_word(line: &mut Vec<u8>, word: &str) -> Result<(), NoMemory>
    ensures { OnOk result (line.new.items ≡ line.old.items ++ 32 ∷ word.now) }
{
    line.push(b' ')?;
    line.extend_from_slice(word.as_bytes())?;
    Ok(())
}

// Adds these words to a line, each after a blank.
fn add_words(line: &mut Vec<u8>, words: &[&str]) -> Result<(), NoMemory>
    ensures { OnOk result (line.new.items ≡ line.old.items ++ spaced (map (λ w. w.now) words.now)) }
{
    for word in words {
        add_word(line, word)?;
    }
    Ok(())
}

// The name of a fault of tokens.
fn name_of_lex(fault: &LexFault) -> &'static str
    ensures { result.now ≡ lex_fault_name fault.now }
{
    match fault {
        LexFault::NotUtf8 { .. } => "NotUtf8",
        LexFault::BadChar { .. } => "BadChar",
        LexFault::OpenString { .. } => "OpenString",
        LexFault::OpenComment { .. } => "OpenComment",
        LexFault::OpenGroup { .. } => "OpenGroup",
        LexFault::NoMemory => "NoMemory",
    }
}

// The name of a fault of statements.
fn name_of_read(fault: &ReadFault) -> &'static str
    ensures { result.now ≡ read_fault_name fault.now }
{
    match fault {
        ReadFault::Unexpected { .. } => "Unexpected",
        ReadFault::EndOfFile => "EndOfFile",
        ReadFault::TooDeep { .. } => "TooDeep",
        ReadFault::BadAffix { .. } => "BadAffix",
        ReadFault::NoMemory => "NoMemory",
    }
}

// Adds the name of a fault of types and what it carries, each after a blank.
fn add_types(line: &mut Vec<u8>, fault: &TypeFault) -> Result<(), NoMemory>
    ensures { OnOk result (line.new.items ≡ line.old.items ++ spaced (type_fault_words fault.now)) }
{
    match fault {
        TypeFault::Duplicate { name } => add_words(line, &["Duplicate", name.as_str()]),
        TypeFault::Unknown { name, parent } => add_words(
            line,
            &["Unknown", name.as_str(), parent.as_str()],
        ),
        TypeFault::Cycle { name } => add_words(line, &["Cycle", name.as_str()]),
        TypeFault::Reserved { name } => add_words(line, &["Reserved", name.as_str()]),
        TypeFault::TooMany { count } => {
            let mut digits = Buffer::new();
            add_words(line, &["TooMany", digits.format(*count)])
        }
        TypeFault::NoMemory => add_words(line, &["NoMemory"]),
    }
}

// The name of a feature, in ASCII upper case.
fn feature_name(alloc: Global, feature: &str) -> Result<String, NoMemory>
    ensures { IfOk result (λ name. string_bytes name ≡ feature_name feature.now) }
{
    let mut name = String::from_str(alloc, feature)?;
    name.make_ascii_uppercase();
    Ok(name)
}

// Adds the name of a fault of expansion and what it carries, each after a blank.
fn add_expansion(alloc: Global, line: &mut Vec<u8>, fault: &ExpandFault) -> Result<(), NoMemory>
    ensures { OnOk result (line.new.items ≡ line.old.items ++ spaced (expand_fault_words fault.now)) }
{
    match fault {
        ExpandFault::UnknownName { name, .. } => add_words(line, &["UnknownName", name.as_str()]),
        ExpandFault::NoIntro { feature, .. } => {
            let feature = feature_name(alloc, feature.as_str())?;
            add_words(line, &["NoIntro", feature.as_str()])
        }
        ExpandFault::Intro { feature, a, b, .. } => {
            let feature = feature_name(alloc, feature.as_str())?;
            add_words(line, &["Intro", feature.as_str(), a.as_str(), b.as_str()])
        }
        ExpandFault::NoStructure { name, .. } => add_words(line, &["NoStructure", name.as_str()]),
        ExpandFault::NoMemory => add_words(line, &["NoMemory"]),
    }
}

// Adds the name of a cause and what it carries, each after a blank.
fn add_why(alloc: Global, line: &mut Vec<u8>, why: &Why) -> Result<(), NoMemory>
    ensures { OnOk result (line.new.items ≡ line.old.items ++ spaced (why_words why.now)) }
{
    match why {
        Why::Settings => add_words(line, &["Settings"]),
        Why::Shelf => add_words(line, &["Shelf"]),
        Why::TooLong => add_words(line, &["TooLong"]),
        Why::IncludeLoop => add_words(line, &["IncludeLoop"]),
        Why::TooManyFiles => add_words(line, &["TooManyFiles"]),
        Why::Lex(fault) => add_words(line, &[name_of_lex(fault)]),
        Why::Read(fault) => add_words(line, &[name_of_read(fault)]),
        Why::Environment => add_words(line, &["Environment"]),
        Why::Typing(fault) => add_types(line, fault),
        Why::TooManyTypes => add_words(line, &["TooManyTypes"]),
        Why::Expand(fault) => add_expansion(alloc, line, fault),
        Why::Arity => add_words(line, &["Arity"]),
        Why::Orthography => add_words(line, &["Orthography"]),
    }
}

/// Whether the cause says something of a place in the file.
pub fn has_place(why: &Why) -> bool
    ensures { result ≡ has_place why.now }
{
    match why {
        Why::Shelf | Why::TooLong | Why::IncludeLoop | Why::TooManyFiles => false,
        Why::Settings
        | Why::Lex(_)
        | Why::Read(_)
        | Why::Environment
        | Why::Typing(_)
        | Why::TooManyTypes
        | Why::Expand(_)
        | Why::Arity
        | Why::Orthography => true,
    }
}

// Adds `:` and a place to a line.
fn add_at(line: &mut Vec<u8>, at: u32) -> Result<(), NoMemory>
    ensures { OnOk result (line.new.items ≡ line.old.items ++ 58 ∷ decimal at) }
{
    let mut digits = Buffer::new();
    line.push(b':')?;
    line.extend_from_slice(digits.format(at).as_bytes())?;
    Ok(())
}

// Adds the place of a fault to a line, where its cause has one.
fn add_place(line: &mut Vec<u8>, at: u32, why: &Why) -> Result<(), NoMemory>
    ensures { OnOk result (line.new.items ≡ line.old.items ++ place_text why.now at) }
{
    if !has_place(why) {
        return Ok(());
    }
    add_at(line, at)
}

// Adds the end of a line that tells a cause.
fn add_cause(alloc: Global, line: &mut Vec<u8>, why: &Why) -> Result<(), NoMemory>
    ensures { OnOk result (line.new.items ≡ line.old.items ++ cause_text why.now) }
{
    line.push(b':')?;
    add_why(alloc, line, why)?;
    line.push(b'\n')?;
    Ok(())
}

// The beginning of a line that tells a fault of this file.
fn line_on(alloc: Global, file: &str) -> Result<Vec<u8>, NoMemory>
    ensures { IfOk result (λ line. line.items ≡ codes "lkb: " ++ file.now) }
{
    let mut line = Vec::from_slice(alloc, b"lkb: ")?;
    line.extend_from_slice(file.as_bytes())?;
    Ok(line)
}

/// The line that tells a fault of a grammar's files: the file, the place in it where the cause has one,
/// and the cause with the names that it carries.
pub fn found_line(alloc: Global, file: &str, at: u32, why: &Why) -> Result<Vec<u8>, NoMemory>
    ensures { IfOk result (λ line. line.items ≡ found_text (record { file = file.now; at = at; why = why.now })) }
{
    let mut line = line_on(alloc, file)?;
    add_place(&mut line, at, why)?;
    add_cause(alloc, &mut line, why)?;
    Ok(line)
}

/// The line that tells of a file, at this place in it, what one word names.
pub fn word_line(alloc: Global, file: &str, at: u32, word: &str) -> Result<Vec<u8>, NoMemory>
    ensures { IfOk result (λ line. line.items ≡ word_text file.now at word.now) }
{
    let mut line = line_on(alloc, file)?;
    add_at(&mut line, at)?;
    line.push(b':')?;
    add_word(&mut line, word)?;
    line.push(b'\n')?;
    Ok(line)
}
