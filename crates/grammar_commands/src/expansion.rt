//! The structure of a type or an instance, as the lines of a report (Copestake 2002).
ghost use Rattle.std.specs.Prelude.{◌≡◌, map, option_map, length, All, IfOk, IfSome};
ghost use Rattle.std.specs.String.{string_bytes};
ghost use Rattle.type_hierarchy.specs.Table.{count_of};
ghost use Rattle.fs_graph.specs.Facts.{line_of, lines_of};
ghost use Rattle.fs_graph.specs.Text.{IsNamed, line_text};
ghost use Rattle.fs_graph.specs.GraphMap.{reader_of};
ghost use Rattle.fs_unify.specs.Entering.{IsGraphIn};
ghost use Rattle.constraint_expand.specs.Books.{instance_of};
ghost use Rattle.grammar_load.specs.Views.{grammar_of};
ghost use Rattle.grammar_commands.specs.Books.{IsSomeBook};
ghost use Rattle.grammar_commands.specs.Expansions.{called_of, is_called, instance_named, instance_of_name, structure_named, AreLinesOf, unknown_line, IsExpansion};

use crate::NoMemory;
use constraint_expand::Instance;
use endings::pieces::Report;
use fs_graph::{Graph, PathLine, PathList, print};
use grammar_load::Grammar;
use std::alloc::Global;
use tdl_reader::Status;
use type_hierarchy::Types;

// Whether an instance has this status and name.
fn is_called(instance: &Instance, called: &str, name: &str, status: Status) -> bool
    ensures { result ≡ is_called name.now status (record { status = instance.now.status; name = called.now }) }
{
    status == instance.status && name == called
}

// The place of the instance of this status and name.
fn instance_named(
    instances: &[Instance],
    names: &[String],
    name: &str,
    status: Status,
) -> Option<usize>
    requires { length names.now ≡ length instances.now }
    ensures { result ≡ instance_named (called_of (map instance_of instances.now) (map string_bytes names.now)) name.now status }
{
    for place in 0..instances.len() {
        if is_called(&instances[place], &names[place], name, status) {
            return Some(place);
        }
    }
    None
}

// The place of the instance of a name: an entry, else a lexical rule, else a rule, else a root.
fn instance_of_name(instances: &[Instance], names: &[String], name: &str) -> Option<usize>
    requires { length names.now ≡ length instances.now }
    ensures { result ≡ instance_of_name (called_of (map instance_of instances.now) (map string_bytes names.now)) name.now }
{
    if let Some(place) = instance_named(instances, names, name, Status::Entry) {
        return Some(place);
    }
    if let Some(place) = instance_named(instances, names, name, Status::LexRule) {
        return Some(place);
    }
    if let Some(place) = instance_named(instances, names, name, Status::Rule) {
        return Some(place);
    }
    instance_named(instances, names, name, Status::Root)
}

// The structure of the type or the instance of a name.
fn structure_named<'a>(grammar: &'a Grammar, name: &str) -> Option<&'a Graph>
    requires book { IsSomeBook grammar.now.book }
    requires named { length grammar.now.names.items ≡ length grammar.now.book.instances.items }
    ensures structure { option_map (λ g. g.now) result ≡ structure_named (grammar_of grammar.now) name.now }
    ensures within { IfSome result (λ g. IsGraphIn (count_of grammar.now.book.system.types) (length grammar.now.book.feats.items) g.now) }
{
    let book = &grammar.book;
    if let Some(ty) = book.system.types().find(name) {
        return Some(book.constraints[ty.0 as usize].graph());
    }
    let place = instance_of_name(&book.instances, &grammar.names, name)?;
    Some(&book.instances[place].structure)
}

// The text of one line of a structure.
fn line_text(
    alloc: Global,
    line: PathLine,
    types: &Types,
    feats: &[String],
) -> Result<Vec<u8>, NoMemory>
    requires { IsNamed (count_of types.now) (length feats.now) (line_of line) }
    ensures { IfOk result (λ text. text.items ≡ line_text types.now (map string_bytes feats.now) (line_of line)) }
{
    let lines = vec![in alloc; line]?;
    Ok(print(alloc, &PathList { lines }, types, feats)?)
}

// The texts of the lines of a structure.
fn line_texts(
    alloc: Global,
    list: PathList,
    types: &Types,
    feats: &[String],
) -> Result<Vec<Vec<u8>>, NoMemory>
    requires { All (IsNamed (count_of types.now) (length feats.now)) (lines_of list) }
    ensures { IfOk result (λ texts. map (λ t. t.items) texts.items ≡ map (line_text types.now (map string_bytes feats.now)) (lines_of list)) }
{
    let mut texts = Vec::new(alloc);
    for line in list.lines {
        texts.push(line_text(alloc, line, types, feats)?)?;
    }
    Ok(texts)
}

// The lines of a structure.
fn structure_lines(
    alloc: Global,
    graph: &Graph,
    types: &Types,
    feats: &[String],
) -> Result<Vec<Vec<u8>>, NoMemory>
    requires { IsGraphIn (count_of types.now) (length feats.now) graph.now }
    ensures { IfOk result (λ texts. AreLinesOf types.now (map string_bytes feats.now) (reader_of graph.now) (map (λ t. t.items) texts.items)) }
{
    graph.laws();
    let list = graph.paths(alloc)?;
    line_texts(alloc, list, types, feats)
}

// The line of a name that stands for nothing.
fn unknown_line(alloc: Global, name: &str) -> Result<Vec<u8>, NoMemory>
    ensures { IfOk result (λ line. line.items ≡ unknown_line name.now) }
{
    let mut line = Vec::from_slice(alloc, name.as_bytes())?;
    line.extend_from_slice(b" unknown\n")?;
    Ok(line)
}

/// The report on a name, which is looked up in ASCII lower case: among types, then entries, lexical rules, rules and
/// roots. It has a line for each node of the structure and for each further path to one, or tells that the name is
/// unknown.
pub fn report_on(alloc: Global, grammar: &Grammar, name: &str) -> Result<Report, NoMemory>
    requires book { IsSomeBook grammar.now.book }
    requires named { length grammar.now.names.items ≡ length grammar.now.book.instances.items }
    ensures { IfOk result (λ r. IsExpansion (grammar_of grammar.now) name.now (map (λ l. l.items) r.lines.items) r.refused) }
{
    let mut lower = String::from_str(alloc, name)?;
    lower.make_ascii_lowercase();
    match structure_named(grammar, &lower) {
        Some(graph) => Ok(Report {
            lines: structure_lines(
                alloc,
                graph,
                grammar.book.system.types(),
                &grammar.book.feats,
            )?,
            refused: false,
        }),
        None => Ok(Report {
            lines: vec![in alloc; unknown_line(alloc, &lower)?]?,
            refused: true,
        }),
    }
}
