//! The rules of a run, from its files.

ghost use Rattle.std.specs.Prelude.{◌≡◌, ◌<◌, ◌≤◌, Bool, true, map, Ok, Option, option_map, IfOk, IfErr, codes};
ghost use Rattle.tdl_reader.specs.Views.{statement_of};
ghost use Rattle.grammar_settings.specs.Forms.{Name};
ghost use Rattle.grammar_settings.specs.SettingsViews.{settings_of};
ghost use Rattle.grammar_files.specs.Faults.{IsFaultBy};
ghost use Rattle.grammar_files.specs.declared.fault.Why.{Why};
ghost use Rattle.grammar_files.specs.Walks.{Says, IsSettled, fault_at, has_failed};
ghost use Rattle.endings.specs.Meanings.{shelves};
ghost use Rattle.endings.specs.Endings.{NotCome};
ghost use Rattle.transfer_rules.specs.Forms.{AreRules};
ghost use Rattle.command_files.specs.Shown.{AreLines, AreShown};
ghost use Rattle.transfer_commands.specs.Rewriters.{HasRewriter, skipped_by};
ghost use Rattle.transfer_commands.specs.Faults.{IsUnread, IsFormShown, form_text};
ghost use Rattle.transfer_commands.specs.Transferring.{transfer_meaning};
ghost use Rattle.transfer_commands.specs.Views.{rewriter_of};
ghost use Rattle.transfer_commands.specs.Inner.{IsTold, IsToldWith, AreShownOf, IsToldIn, IsOutOfForm};

use crate::answering::Transferrer;
use crate::serving::Transfer;
use crate::skipping::{Unskipped, skipped_rules};
use command_files::{fault_of, followed, form_cause, place_shown, shown, word_line};
use endings::{Fault, Stop};
use grammar_files::{LoadFault, Settings, Why, read_settings, said};
use lkb_io::Shelf;
use sieve::Guard;
use std::alloc::Global;
use tdl_reader::Statement;
use transfer_rules::{RulesFault, rules_of};

// What the settings and the file of rules say.
#[derive(Drop)]
struct Said {
    settings: Settings,
    statements: Vec<Statement>,
}

// What a statement outside the form of rules is to the run: it stands here in the file of this name.
fn form_fault(alloc: Global, name: &str, at: u32) -> Fault
    ensures { IsTold (form_text name.now at) result }
{
    match word_line(alloc, name, at, "Form") {
        Ok(text) => Fault::Files(text),
        Err(_) => Fault::Stopped(Stop::NoMemory),
    }
}

// The same, followed under the flag by the lines that show the statement, for which the file is read once more.
fn form_told<S: Shelf>(alloc: Global, shelf: &mut S, name: &str, at: u32, verbose: bool) -> Fault
    ensures { IsToldWith (form_text name.now at) (AreLines verbose (IsFormShown (S.files shelf.old) name.now at)) result }
{
    let told = form_fault(alloc, name, at);
    if !verbose {
        return told;
    }
    match place_shown(alloc, shelf, name, at, form_cause()) {
        Ok(lines) => followed(told, &lines),
        Err(_) => told,
    }
}

// The lines that show a fault; none where its file isn't read again, or memory is wanting for them. A fault of the shelf leaves the shelf as
// it is.
fn found_shown<S: Shelf>(alloc: Global, shelf: &mut S, file: &str, at: u32, why: &Why) -> Vec<u8>
    ensures shown { AreShown true (S.files shelf.old) (fault_at file.now at why.now) result.items }
    ensures still { why.now ≡ Why.Shelf → shelf.new ≡ shelf.old }
{
    match shown(alloc, shelf, file, at, why) {
        Ok(lines) => lines,
        Err(_) => Vec::new(alloc),
    }
}

// The lines that show this fault; want of memory has none.
fn details_of<S: Shelf>(alloc: Global, shelf: &mut S, fault: &LoadFault) -> Vec<u8>
    ensures shown { AreShownOf (S.files shelf.old) fault.now result.items }
    ensures still { IsFaultBy (λ f. f.why ≡ Why.Shelf → shelf.new ≡ shelf.old) fault.now }
{
    match fault {
        LoadFault::NoMemory => Vec::new(alloc),
        LoadFault::Found { file, at, why } => found_shown(alloc, shelf, file.as_str(), *at, why),
    }
}

// What a fault of files is to the run, followed under the flag by the lines that show it, for which its file is read once more.
fn told<S: Shelf>(alloc: Global, shelf: &mut S, fault: &LoadFault, verbose: bool) -> Fault
    ensures told { IsToldIn verbose (S.files shelf.old) fault.now result }
    ensures still { IsFaultBy (λ f. f.why ≡ Why.Shelf → shelf.new ≡ shelf.old) fault.now }
{
    let line = fault_of(alloc, fault);
    if !verbose {
        return line;
    }
    let details = details_of(alloc, shelf, fault);
    followed(line, &details)
}

// Reads the settings, and then the file of rules.
fn read_files<S: Shelf>(
    alloc: Global,
    shelf: &mut S,
    name: &str,
    settings: Option<&str>,
) -> Result<Said, LoadFault>
    ensures settled { IfOk result (λ s. (fails : Name → Bool) → IsSettled (S.files shelf.old) fails (option_map (λ n. n.now) settings.entry) (Ok (settings_of s.settings))) }
    ensures says { IfOk result (λ s. (fails : Name → Bool) → Says (S.files shelf.old) fails name.now (Ok (map statement_of s.statements.items))) }
    ensures fault { let fails = has_failed (S.faults shelf.old) (S.faults shelf.new) (S.asked shelf.new) in
        IfErr result (IsFaultBy (IsUnread name.now (option_map (λ n. n.now) settings.entry) (S.files shelf.old) fails)) }
    ensures same { S.files shelf.new ≡ S.files shelf.old }
{
    let settings = read_settings(alloc, shelf, settings)?;
    let statements = said(alloc, shelf, name)?;
    Ok(Said {
        settings,
        statements,
    })
}

// What answers lines by what was read of the command's files.
fn transferrer_of<S: Shelf>(
    alloc: Global,
    shelf: &mut S,
    command: &Transfer<'_>,
    said: &Said,
) -> Result<Transferrer, Fault>
    requires { 0 < command.now.workers }
    ensures rules { IfOk result (λ t. AreRules (map statement_of said.now.statements.items) (rewriter_of t).rules) }
    ensures skipped { IfOk result (λ t. (rewriter_of t).skipped ≡ skipped_by (settings_of said.now.settings).transfer_skip (rewriter_of t).rules) }
    ensures fault { IfErr result (IsOutOfForm command.now.verbose (S.files shelf.old) command.now.rules.now (map statement_of said.now.statements.items)) }
{
    match rules_of(alloc, &said.statements) {
        Ok(rules) => match skipped_rules(alloc, &rules, &said.settings.transfer_skip) {
            Ok(skipped) => {
                let guard = Guard::new(Unskipped { skipped });
                Ok(Transferrer {
                    rules,
                    guard,
                    workers: command.workers,
                })
            }
            Err(_) => Err(Fault::Stopped(Stop::NoMemory)),
        },
        Err(RulesFault::Form { at }) => Err(form_told(
            alloc,
            shelf,
            command.rules,
            at,
            command.verbose,
        )),
        Err(RulesFault::NoMemory) => Err(Fault::Stopped(Stop::NoMemory)),
    }
}

/// What answers the lines of a run: the rules of its file, under its settings; or the line that tells the first fault of these, a fault of the shelf
/// only where the shelf failed when it was asked for that file; or want of memory. Under the flag the line is followed by those that show the
/// fault, for which its file is read once more.
pub(crate) fn load<S: Shelf>(
    alloc: Global,
    shelf: &mut S,
    command: &Transfer<'_>,
) -> Result<Transferrer, Fault>
    requires { 0 < command.now.workers }
    ensures rewriter { let h = shelves S.files S.faults S.asked shelf.old shelf.new in
        IfOk result (λ t. HasRewriter h.files command.now.rules.now (option_map (λ s. s.now) command.now.settings) (rewriter_of t)) }
    ensures fault { let h = shelves S.files S.faults S.asked shelf.old shelf.new in
        IfErr result (NotCome (transfer_meaning command.now.rules.now (option_map (λ s. s.now) command.now.settings) command.now.verbose) h) }
{
    match read_files(alloc, shelf, command.rules, command.settings) {
        Ok(said) => transferrer_of(alloc, shelf, command, &said),
        Err(fault) => Err(told(alloc, shelf, &fault, command.verbose)),
    }
}
