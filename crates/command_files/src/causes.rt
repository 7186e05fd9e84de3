//! The causes of faults of files in plain words, one line each.

ghost use Rattle.std.specs.Prelude.{◌≡◌};
ghost use Rattle.command_files.specs.Causes.{lex_cause, read_cause, type_cause, expand_cause, cause_of, form_cause};

use grammar_files::{ExpandFault, Why};
use tdl_lexer::LexFault;
use tdl_reader::ReadFault;
use type_hierarchy::TypeFault;

// The cause of a fault of tokens.
fn lex_cause(fault: &LexFault) -> &'static str
    ensures { result.now ≡ lex_cause fault.now }
{
    match fault {
        LexFault::NotUtf8 { .. } => "a byte that isn't UTF-8",
        LexFault::BadChar { .. } => "a character that begins nothing of TDL",
        LexFault::OpenString { .. } => {
            "a string or docstring that doesn't end; its first quote is told"
        }
        LexFault::OpenComment { .. } => "`#|` without its end",
        LexFault::OpenGroup { .. } => {
            "a parenthesis of a spelling rule or letter set without its end"
        }
        LexFault::NoMemory => "memory was wanting",
    }
}

// The cause of a fault of statements.
fn read_cause(fault: &ReadFault) -> &'static str
    ensures { result.now ≡ read_cause fault.now }
{
    match fault {
        ReadFault::Unexpected { .. } => {
            "what stands there can't go on a statement: mostly an `&`, a comma or a full stop is missing before it"
        }
        ReadFault::EndOfFile => "the file ends inside a statement",
        ReadFault::TooDeep { .. } => "brackets more than 200 deep",
        ReadFault::BadAffix { .. } => {
            "a group or letter set out of form, or a set that isn't defined before in this file"
        }
        ReadFault::NoMemory => "memory was wanting",
    }
}

// The cause of a fault of types.
fn type_cause(fault: &TypeFault) -> &'static str
    ensures { result.now ≡ type_cause fault.now }
{
    match fault {
        TypeFault::Duplicate { .. } => "a type, or an instance of one status, is defined twice",
        TypeFault::Unknown { .. } => "a type has a supertype that isn't defined",
        TypeFault::Cycle { .. } => "a type is below itself",
        TypeFault::Reserved { .. } => "a type is called as the top type, or `glbtype` with digits",
        TypeFault::TooMany { .. } => "more than 16,384 types; their number is told",
        TypeFault::NoMemory => "memory was wanting",
    }
}

// The cause of a fault of expansion.
fn expand_cause(fault: &ExpandFault) -> &'static str
    ensures { result.now ≡ expand_cause fault.now }
{
    match fault {
        ExpandFault::UnknownName { .. } => {
            "a name that no type has; for a list, one of the types that lists are made of"
        }
        ExpandFault::NoIntro { .. } => {
            "the feature is misspelled, or no type writes it at the beginning of a path in its own body"
        }
        ExpandFault::Intro { .. } => {
            "several types write the feature, and none of them is above the others"
        }
        ExpandFault::NoStructure { .. } => {
            "two types at one path have no common subtype, or a path gets longer than `path-limit`, as where a type asks for itself below itself, or there are more paths than `node-limit`"
        }
        ExpandFault::NoMemory => "memory was wanting",
    }
}

/// The cause of a fault of files in plain words, in one line without its end.
pub fn cause(why: &Why) -> &'static str
    ensures { result.now ≡ cause_of why.now }
{
    match why {
        Why::Settings => {
            "a line of the settings is out of form: no such name, too few or too many values, or a value of another kind"
        }
        Why::Shelf => "there is no such file, it is a folder, or it can't be read",
        Why::TooLong => "a file of more than 67,108,864 bytes",
        Why::IncludeLoop => "a file includes one that is still being read",
        Why::TooManyFiles => "the 1,025th file",
        Why::Lex(fault) => lex_cause(fault),
        Why::Read(fault) => read_cause(fault),
        Why::Environment => {
            "`:begin` inside an environment, `:end` of none, an environment left open, `:+` on an instance, or a spelling rule on anything but a `lex-rule`"
        }
        Why::Typing(fault) => type_cause(fault),
        Why::TooManyTypes => "more than 65,535 types with the added ones; the top file is told",
        Why::Expand(fault) => expand_cause(fault),
        Why::Arity => {
            "the daughters of a rule aren't a closed list of 1 to 4, or those of a lexical rule not of 1"
        }
        Why::Orthography => "the words of an entry aren't a closed list of strings with a word",
    }
}

/// The cause of a statement that is no rule of `transfer`, in one line without its end.
pub fn form_cause() -> &'static str
    ensures { result.now ≡ form_cause }
{
    "the statement is no rule of `transfer`: it has no INPUT, a part that isn't one of the four or isn't a closed list, too many relations, or a relation out of form; or a rule before it has its name"
}
