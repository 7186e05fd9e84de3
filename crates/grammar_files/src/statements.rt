//! What statements do in their environments.

ghost use Rattle.std.specs.Prelude.{◌≡◌, ◌++◌, map, false, IfOk, IfSome, IfNone, OnOk, string_bytes};
ghost use Rattle.grammar_files.specs.Placings.{placed_of};
ghost use Rattle.tdl_reader.specs.Views.{statement_of};
ghost use Rattle.grammar_files.specs.Environments.{status_in, breaks, place_of, left_open, takes_affix, is_of_types, is_heeded, ends_wrongly, is_include, environment_after, is_definition, placed_under};
ghost use Rattle.grammar_files.specs.Included.{Includes};

use crate::Placed;
use crate::environment::Environment;
use crate::file_names::included_in;
use crate::placed_statements::{is_definition, is_heeded, is_of_types};
use grammar_settings::NoMemory;
use std::alloc::{AllocError, Global};
use tdl_reader::{Statement, Status};

/// What the definitions of an environment are.
pub(crate) fn status_in(environment: &Option<Environment>) -> Status
    ensures { result ≡ status_in environment.now }
{
    match environment {
        Some(environment) => environment.status,
        None => Status::TypeDef,
    }
}

fn takes_affix(status: Status) -> bool
    ensures { result ≡ takes_affix status }
{
    matches!(status, Status::LexRule | Status::Other)
}

// Whether `:end` ends no environment, or one of the other kind.
fn ends_wrongly(environment: &Option<Environment>, instance: bool) -> bool
    ensures { result ≡ ends_wrongly environment.now instance }
{
    match environment {
        Some(environment) if instance => is_of_types(environment.status),
        Some(environment) => !is_of_types(environment.status),
        None => true,
    }
}

/// Whether a statement breaks a rule of environments.
pub(crate) fn breaks(environment: &Option<Environment>, statement: &Statement) -> bool
    ensures { result ≡ breaks environment.now (statement_of statement.now) }
{
    match statement {
        Statement::Begin { .. } => environment.is_some(),
        Statement::End { instance, .. } => ends_wrongly(environment, *instance),
        Statement::Adds { .. } => !is_of_types(status_in(environment)),
        Statement::Define { affix, .. } => affix.is_some() && !takes_affix(status_in(environment)),
        Statement::Include { .. } | Statement::Letters { .. } => false,
    }
}

/// Where the environment was begun that is open, if the file of this number began it.
pub(crate) fn left_open(environment: &Option<Environment>, file: u32) -> Option<u32>
    ensures { result ≡ left_open file environment.now }
{
    match environment {
        Some(environment) if environment.file == file => Some(environment.at),
        _ => None,
    }
}

/// The file that a statement includes, if it is an include.
pub(crate) fn included(
    alloc: Global,
    name: &str,
    statement: &Statement,
) -> Result<Option<String>, AllocError>
    ensures some { IfOk result (λ o. IfSome o (λ file. Includes name.now (statement_of statement.now) (string_bytes file))) }
    ensures none { IfOk result (λ o. IfNone o (is_include (statement_of statement.now) ≡ false)) }
{
    match statement {
        Statement::Include { file, .. } => Ok(Some(included_in(alloc, name, file)?)),
        _ => Ok(None),
    }
}

/// The environment after a statement of the file of this number.
pub(crate) fn environment_after(
    environment: Option<Environment>,
    file: u32,
    statement: &Statement,
) -> Option<Environment>
    ensures { result ≡ environment_after file environment (statement_of statement.now) }
{
    match statement {
        Statement::Begin { status, at } => Some(Environment {
            status: *status,
            file,
            at: *at,
        }),
        Statement::End { .. } => None,
        _ => environment,
    }
}

/// Places a statement under a status, if it is a definition or an addendum that is heeded.
pub(crate) fn place(
    placed: &mut Vec<Placed>,
    statement: Statement,
    status: Status,
    file: u32,
) -> Result<(), NoMemory>
    ensures { OnOk result (map placed_of placed.new.items ≡ map placed_of placed.old.items ++ placed_under file status (statement_of statement)) }
{
    if is_definition(&statement) && is_heeded(status) {
        placed.push(Placed {
            statement,
            status,
            file,
        })?;
    }
    Ok(())
}
