//! Statements by what they define.

ghost use Rattle.std.specs.Prelude.{◌≡◌, MatchOption};
ghost use Rattle.tdl_reader.specs.Views.{statement_of, body_in};
ghost use Rattle.grammar_files.specs.Placings.{placed_of};
ghost use Rattle.grammar_files.specs.Statements.{is_status, is_of_types, is_of_instances, is_heeded, is_definition, name_of, place_of, body_of, defines_type, adds_to_type, defines_instance, DefinesNothing};

use crate::placed::Placed;
use tdl_reader::{Body, Statement, Status};

/// Whether two statuses are the same.
pub fn is_status(a: Status, b: Status) -> bool
    ensures { result ≡ is_status a b }
{
    a == b
}

/// Whether definitions of this status are those of types.
pub fn is_of_types(status: Status) -> bool
    ensures { result ≡ is_of_types status }
{
    match status {
        Status::TypeDef => true,
        Status::Entry | Status::LexRule | Status::Rule | Status::Root | Status::Other => false,
    }
}

/// Whether definitions of this status are those of entries, lexical rules, rules or roots.
pub fn is_of_instances(status: Status) -> bool
    ensures { result ≡ is_of_instances status }
{
    match status {
        Status::Entry | Status::LexRule | Status::Rule | Status::Root => true,
        Status::TypeDef | Status::Other => false,
    }
}

/// Whether definitions of this status are heeded: instances of another status than the four are passed over.
pub fn is_heeded(status: Status) -> bool
    ensures { result ≡ is_heeded status }
{
    !matches!(status, Status::Other)
}

/// Whether the statement is a definition or an addendum.
pub fn is_definition(statement: &Statement) -> bool
    ensures { result ≡ is_definition (statement_of statement.now) }
{
    matches!(statement, Statement::Define { .. } | Statement::Adds { .. })
}

/// The place of a statement's first token, in bytes of its file.
pub fn place_of(statement: &Statement) -> u32
    ensures { result ≡ place_of (statement_of statement.now) }
{
    match statement {
        Statement::Define { at, .. }
        | Statement::Adds { at, .. }
        | Statement::Begin { at, .. }
        | Statement::End { at, .. }
        | Statement::Include { at, .. }
        | Statement::Letters { at, .. } => *at,
    }
}

/// The name of a definition or an addendum; no name for any other statement.
pub fn name_of(placed: &Placed) -> &str
    ensures { result.now ≡ name_of (placed_of placed.now) }
{
    match &placed.statement {
        Statement::Define { name, .. } | Statement::Adds { name, .. } => name.as_str(),
        _ => "",
    }
}

/// The body of a definition or an addendum.
pub fn body_written(placed: &Placed) -> Option<&Body>
    ensures { MatchOption result (DefinesNothing (placed_of placed.now)) (λ b. body_in b.now ≡ body_of (placed_of placed.now)) }
{
    match &placed.statement {
        Statement::Define { body, .. } | Statement::Adds { body, .. } => Some(body),
        _ => None,
    }
}

/// Whether the statement defines a type.
pub fn defines_type(placed: &Placed) -> bool
    ensures { result ≡ defines_type (placed_of placed.now) }
{
    match &placed.statement {
        Statement::Define { .. } => is_of_types(placed.status),
        _ => false,
    }
}

/// Whether the statement is an addendum to a type.
pub fn adds_to_type(placed: &Placed) -> bool
    ensures { result ≡ adds_to_type (placed_of placed.now) }
{
    match &placed.statement {
        Statement::Adds { .. } => is_of_types(placed.status),
        _ => false,
    }
}

/// Whether the statement defines an entry, a lexical rule, a rule or a root.
pub fn defines_instance(placed: &Placed) -> bool
    ensures { result ≡ defines_instance (placed_of placed.now) }
{
    match &placed.statement {
        Statement::Define { .. } => is_of_instances(placed.status),
        _ => false,
    }
}
