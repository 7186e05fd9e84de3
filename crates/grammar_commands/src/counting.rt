//! The counts of a grammar, as the line of a report.
ghost use Rattle.std.specs.Prelude.{◌≡◌, ◌++◌, ◌∷◌, [], map, length, filter, IfOk};
ghost use Rattle.constraint_expand.specs.Books.{instance_of};
ghost use Rattle.grammar_files.specs.Statements.{is_status};
ghost use Rattle.grammar_commands.specs.Checks.{count_of, types_text, instances_text, check_line};

use crate::NoMemory;
use constraint_expand::{Book, Instance};
use std::alloc::Global;
use tdl_reader::Status;

// How many instances have this status.
fn count(instances: &[Instance], status: Status) -> usize
    ensures { result ≡ count_of status (map instance_of instances.now) }
{
    let mut found = 0;
    for instance in instances {
        if instance.status == status {
            found += 1;
        }
    }
    found
}

// `types W added A features F`.
fn types_text(alloc: Global, written: u32, added: u32, features: usize) -> Result<Vec<u8>, NoMemory>
    ensures { IfOk result (λ text. text.items ≡ types_text written added features) }
{
    let text = format!(in alloc; "types {written} added {added} features {features}")?;
    Ok(text.into_bytes())
}

// ` entries E lex-rules X rules Y roots Z`.
fn instances_text(
    alloc: Global,
    entries: usize,
    lexical_rules: usize,
    rules: usize,
    roots: usize,
) -> Result<Vec<u8>, NoMemory>
    ensures { IfOk result (λ text. text.items ≡ instances_text entries lexical_rules rules roots) }
{
    let text = format!(in alloc;
        " entries {entries} lex-rules {lexical_rules} rules {rules} roots {roots}"
    )?;
    Ok(text.into_bytes())
}

// Two texts as one line.
fn joined(mut line: Vec<u8>, more: &[u8]) -> Result<Vec<u8>, NoMemory>
    ensures { IfOk result (λ l. l.items ≡ (line.items ++ more.now) ++ 10 ∷ []) }
{
    line.extend_from_slice(more)?;
    line.push(b'\n')?;
    Ok(line)
}

// The line of a book's counts.
fn line_of(alloc: Global, book: &Book) -> Result<Vec<u8>, NoMemory>
    ensures { IfOk result (λ line. line.items ≡ check_line book.now) }
{
    let types = book.system.types().counts();
    let entries = count(&book.instances, Status::Entry);
    let lexical_rules = count(&book.instances, Status::LexRule);
    let rules = count(&book.instances, Status::Rule);
    let roots = count(&book.instances, Status::Root);
    let first = types_text(
        alloc,
        types.written,
        types.completed - types.written,
        book.feats.len(),
    )?;
    let more = instances_text(alloc, entries, lexical_rules, rules, roots)?;
    joined(first, &more)
}

/// `types W added A features F entries E lex-rules X rules Y roots Z`: how many types the grammar has, written with the top and
/// string types and added, how many features, and how many instances of each kind.
pub fn check_lines(alloc: Global, book: &Book) -> Result<Vec<Vec<u8>>, NoMemory>
    ensures { IfOk result (λ lines. map (λ l. l.items) lines.items ≡ check_line book.now ∷ []) }
{
    let mut lines = Vec::new(alloc);
    lines.push(line_of(alloc, book)?)?;
    Ok(lines)
}
