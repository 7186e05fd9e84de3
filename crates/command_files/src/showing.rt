//! The lines that show a fault of files.

ghost use Rattle.std.specs.Prelude.{◌≡◌, ◌≤◌, ◌++◌, ◌⊎◌, ℕ, List, false, true, IfOk, IsErrOf};
ghost use Rattle.lkb_io.specs.Outside.{HasRisen};
ghost use Rattle.grammar_files.specs.Walks.{IsText, IsTooLong, fault_at};
ghost use Rattle.command_files.specs.FaultTexts.{has_place};
ghost use Rattle.command_files.specs.Causes.{cause_of};
ghost use Rattle.fault_places.specs.Places.{place_text, file_text};
ghost use Rattle.command_files.specs.Shown.{shelf_cause, shown_place, IsPlaceShown, IsShown, IsFollowed};

use crate::{cause, has_place};
use endings::Fault;
use fault_places::{Lack, file_line, line_begin, place_lines};
use grammar_files::Why;
use lkb_io::{Shelf, ShelfCause, ShelfFault};
use std::alloc::Global;

// Why a shelf failed, in plain words.
fn shelf_cause(cause: ShelfCause) -> &'static str
    ensures { result.now ≡ shelf_cause cause }
{
    match cause {
        ShelfCause::Missing => "there is no such file",
        ShelfCause::Folder => "it is a folder",
        ShelfCause::Unreadable => "it can't be read",
    }
}

// The line of a cause that says nothing of a place.
fn line_of(alloc: Global, file: &str, cause: &str) -> Result<Vec<u8>, Lack>
    ensures line { IfOk result (λ v. v.items ≡ file_text file.now cause.now) }
    ensures read { IsErrOf result Lack.Unread → ⊥ }
{
    match file_line(alloc, file, cause) {
        Ok(line) => Ok(line),
        Err(_) => Err(Lack::NoMemory),
    }
}

// The text of a file, read once more.
fn text_again<S: Shelf>(alloc: Global, shelf: &mut S, file: &str) -> Result<Vec<u8>, Lack>
    ensures text { IfOk result (λ v. IsText (S.files shelf.old) file.now v.items) }
    ensures read { IsErrOf result Lack.Unread → HasRisen (S.faults shelf.old) (S.faults shelf.new) ⊎ IsTooLong (S.files shelf.old) file.now }
    ensures same { S.files shelf.new ≡ S.files shelf.old }
    ensures no_fall { S.faults shelf.old ≤ S.faults shelf.new }
{
    match shelf.text(alloc, file) {
        Ok(text) => Ok(text),
        Err(ShelfFault::NoMemory) => Err(Lack::NoMemory),
        Err(_) => Err(Lack::Unread),
    }
}

// The place that is shown of a file with this text.
fn shown_place(why: &Why, text: &[u8], at: u32) -> usize
    ensures { result ≡ shown_place why.now text.now at }
{
    match why {
        Why::Settings => line_begin(text, at as usize),
        _ => at as usize,
    }
}

// The lines of a place of a text.
fn lines_of(alloc: Global, file: &str, text: &[u8], at: usize, cause: &str) -> Result<Vec<u8>, Lack>
    ensures lines { IfOk result (λ v. v.items ≡ place_text file.now text.now at cause.now) }
    ensures read { IsErrOf result Lack.Unread → ⊥ }
{
    match place_lines(alloc, file, text, at, cause) {
        Ok(lines) => Ok(lines),
        Err(_) => Err(Lack::NoMemory),
    }
}

/// The lines that show what this cause names at a place of a file, which is read once more.
pub fn place_shown<S: Shelf>(
    alloc: Global,
    shelf: &mut S,
    file: &str,
    at: u32,
    cause: &str,
) -> Result<Vec<u8>, Lack>
    ensures shown { IfOk result (λ v. IsPlaceShown (S.files shelf.old) file.now (λ text. at) cause.now v.items) }
    ensures read { IsErrOf result Lack.Unread → HasRisen (S.faults shelf.old) (S.faults shelf.new) ⊎ IsTooLong (S.files shelf.old) file.now }
    ensures same { S.files shelf.new ≡ S.files shelf.old }
    ensures no_fall { S.faults shelf.old ≤ S.faults shelf.new }
{
    let text = text_again(alloc, shelf, file)?;
    lines_of(alloc, file, &text, at as usize, cause)
}

// The lines that show the place of a fault.
fn why_shown<S: Shelf>(
    alloc: Global,
    shelf: &mut S,
    file: &str,
    at: u32,
    why: &Why,
) -> Result<Vec<u8>, Lack>
    ensures shown { IfOk result (λ v. IsPlaceShown (S.files shelf.old) file.now (λ text. shown_place why.now text at) (cause_of why.now) v.items) }
    ensures read { IsErrOf result Lack.Unread → HasRisen (S.faults shelf.old) (S.faults shelf.new) ⊎ IsTooLong (S.files shelf.old) file.now }
    ensures same { S.files shelf.new ≡ S.files shelf.old }
    ensures no_fall { S.faults shelf.old ≤ S.faults shelf.new }
{
    let text = text_again(alloc, shelf, file)?;
    lines_of(alloc, file, &text, shown_place(why, &text, at), cause(why))
}

/// The lines that show a fault of a file: its place, as the file is read once more; or the file and the cause, where that has no place. Why
/// the shelf failed is asked of the shelf, so this goes before the shelf is asked for another file.
///
/// `Unread` comes only where the shelf counted a fault in this call, or the file is longer than a text may be.
pub fn shown<S: Shelf>(
    alloc: Global,
    shelf: &mut S,
    file: &str,
    at: u32,
    why: &Why,
) -> Result<Vec<u8>, Lack>
    ensures shown { IfOk result (λ v. IsShown (S.files shelf.old) (fault_at file.now at why.now) v.items) }
    ensures read { IsErrOf result Lack.Unread → HasRisen (S.faults shelf.old) (S.faults shelf.new) ⊎ IsTooLong (S.files shelf.old) file.now }
    ensures still { has_place why.now ≡ false → shelf.new ≡ shelf.old }
    ensures same { S.files shelf.new ≡ S.files shelf.old }
    ensures no_fall { S.faults shelf.old ≤ S.faults shelf.new }
{
    if has_place(why) {
        return why_shown(alloc, shelf, file, at, why);
    }
    match why {
        Why::Shelf => line_of(alloc, file, shelf_cause(shelf.cause())),
        _ => line_of(alloc, file, cause(why)),
    }
}

// Adds lines to what is told, where memory isn't wanting for them.
fn add_lines(told: &mut Vec<u8>, lines: &[u8])
    ensures { (told.new.items ≡ told.old.items ++ lines.now) ⊎ (told.new.items ≡ told.old.items) }
{
    let _ = told.extend_from_slice(lines);
}

/// What is told of a fault, followed by these lines where memory isn't wanting for them.
pub fn followed(told: Fault, lines: &[u8]) -> Fault
    ensures { IsFollowed told lines.now result }
{
    match told {
        Fault::Files(text) => {
            let mut text = text;
            add_lines(&mut text, lines);
            Fault::Files(text)
        }
        other => other,
    }
}
