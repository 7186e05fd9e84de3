//! The report lines of a packed forest.

ghost use Rattle.std.specs.Prelude.{◌≡◌, ◌++◌, ◌∷◌, [], ◌<◌, ◌+◌, ◌^◌, All, length, map, string_bytes, codes, IfOk, OnOk};
ghost use Rattle.std.specs.Fmt.{decimal};
ghost use Rattle.std.specs.List.{flat_map};
ghost use Rattle.type_hierarchy.specs.Table.{count_of};
ghost use Rattle.derivation.specs.Text.{name_of};
ghost use Rattle.fs_graph.specs.Text.{escaped, type_text};
ghost use Rattle.morph_analysis.specs.LatticeViews.{step_of};
ghost use Rattle.lexical_items.specs.Seen.{step_seen};
ghost use Rattle.item_reports.specs.Reports.{item_line};
ghost use Rattle.line_charts.specs.Texts.{span_text, unknown_line, number_text, maker_text, class_type_text, class_line, class_lines, chart_lines, is_refused};
ghost use Rattle.line_charts.specs.Answers.{Forest};
ghost use Rattle.line_charts.specs.Views.{chart_answer, class_of, maker_of, IsChartNamed, IsClassNamed, IsMakerNamed};

use crate::{ChartAnswer, Maker, NoMemory, ToldClass};
use derivation::write;
use item_reports::lines_of_refusal;
use itoa::Buffer;
use morph_analysis::Step;
use std::alloc::Global;
use type_hierarchy::{Ty, Types};

// `item N classes C`
fn count_line(alloc: Global, number: u64, classes: usize) -> Result<Vec<u8>, NoMemory>
    ensures { IfOk result (λ line. line.items ≡ item_line number (codes "classes " ++ decimal classes)) }
{
    let line = format!(in alloc; "item {number} classes {classes}\n")?;
    Ok(line.into_bytes())
}

// A number in decimal digits.
fn put_number(number: u64, into: &mut Vec<u8>) -> Result<(), NoMemory>
    ensures { OnOk result (into.new.items ≡ into.old.items ++ decimal number) }
{
    let mut buffer = Buffer::new();
    into.extend_from_slice(buffer.format(number).as_bytes())?;
    Ok(())
}

// `FROM:TO`
fn put_span(from: u32, to: u32, into: &mut Vec<u8>) -> Result<(), NoMemory>
    ensures { OnOk result (into.new.items ≡ into.old.items ++ span_text from to) }
{
    put_number(u64::from(from), into)?;
    into.push(b':')?;
    put_number(u64::from(to), into)
}

// `  unknown FROM:TO WORD`
fn unknown_line(alloc: Global, step: &Step) -> Result<Vec<u8>, NoMemory>
    ensures { IfOk result (λ line. line.items ≡ unknown_line (step_seen (step_of step.now))) }
{
    let mut line = Vec::new(alloc);
    line.extend_from_slice(b"  unknown ")?;
    put_span(step.from, step.to, &mut line)?;
    line.push(b' ')?;
    line.extend_from_slice(step.word.as_bytes())?;
    line.push(b'\n')?;
    Ok(line)
}

// A line for each of these words.
fn put_unknown_lines(
    alloc: Global,
    unknown: &[Step],
    lines: &mut Vec<Vec<u8>>,
) -> Result<(), NoMemory>
    ensures { OnOk result (map (λ l. l.items) lines.new.items ≡ map (λ l. l.items) lines.old.items ++ map unknown_line (map (λ s. step_seen (step_of s)) unknown.now)) }
{
    for step in unknown {
        lines.push(unknown_line(alloc, step)?)?;
    }
    Ok(())
}

// Each class by its number from 1 on, with a blank before it.
fn put_classes(classes: &[u32], into: &mut Vec<u8>) -> Result<(), NoMemory>
    ensures { OnOk result (into.new.items ≡ into.old.items ++ flat_map number_text classes.now) }
{
    for class in classes {
        into.push(b' ')?;
        put_number(u64::from(*class) + 1, into)?;
    }
    Ok(())
}

// ` (RULE`
fn put_opening(place: u32, names: &[String], into: &mut Vec<u8>) -> Result<(), NoMemory>
    requires { place < length names.now }
    ensures { OnOk result (into.new.items ≡ into.old.items ++ (32 ∷ 40 ∷ name_of (map string_bytes names.now) place)) }
{
    into.push(b' ')?;
    into.push(b'(')?;
    into.extend_from_slice(names[place as usize].as_bytes())?;
    Ok(())
}

// ` (RULE K K)`
fn put_rule(
    place: u32,
    classes: &[u32],
    names: &[String],
    into: &mut Vec<u8>,
) -> Result<(), NoMemory>
    requires { place < length names.now }
    ensures { OnOk result (into.new.items ≡ into.old.items ++ (32 ∷ 40 ∷ name_of (map string_bytes names.now) place ++ flat_map number_text classes.now ++ 41 ∷ [])) }
{
    put_opening(place, names, into)?;
    put_classes(classes, into)?;
    into.push(b')')?;
    Ok(())
}

// ` MAKER`
fn put_maker(
    maker: &Maker,
    names: &[String],
    nodes: bool,
    into: &mut Vec<u8>,
) -> Result<(), NoMemory>
    requires { IsMakerNamed (length names.now) (maker_of maker.now) }
    ensures { OnOk result (into.new.items ≡ into.old.items ++ maker_text (map string_bytes names.now) nodes (maker_of maker.now)) }
{
    match maker {
        Maker::Tree(tree) => {
            into.push(b' ')?;
            write(tree, names, nodes, into)?;
            Ok(())
        }
        Maker::Rule { place, classes } => put_rule(*place, classes, names, into),
    }
}

// Each with a blank before it.
fn put_makers(
    makers: &[Maker],
    names: &[String],
    nodes: bool,
    into: &mut Vec<u8>,
) -> Result<(), NoMemory>
    requires { All (IsMakerNamed (length names.now)) (map maker_of makers.now) }
    ensures { OnOk result (into.new.items ≡ into.old.items ++ flat_map (maker_text (map string_bytes names.now) nodes) (map maker_of makers.now)) }
{
    for maker in makers {
        put_maker(maker, names, nodes, into)?;
    }
    Ok(())
}

// A text with a backslash before each quote and each backslash.
fn put_escaped(text: &[u8], into: &mut Vec<u8>) -> Result<(), NoMemory>
    ensures { OnOk result (into.new.items ≡ into.old.items ++ flat_map escaped text.now) }
{
    for byte in text {
        if *byte == b'"' || *byte == b'\\' {
            into.push(b'\\')?;
        }
        into.push(*byte)?;
    }
    Ok(())
}

// The name of a type, a string between quotes.
fn put_type(ty: Ty, types: &Types, into: &mut Vec<u8>) -> Result<(), NoMemory>
    requires { ty.0 < count_of types.now }
    ensures { OnOk result (into.new.items ≡ into.old.items ++ type_text types.now ty.0) }
{
    let name = types.name(ty).as_bytes();
    if ty.0 < types.counts().completed {
        into.extend_from_slice(name)?;
        return Ok(());
    }
    into.push(b'"')?;
    put_escaped(name, into)?;
    into.push(b'"')?;
    Ok(())
}

// The type of a class, and a star where some root unifies with it.
fn put_class_type(class: &ToldClass, types: &Types, into: &mut Vec<u8>) -> Result<(), NoMemory>
    requires { (class_of class.now).ty < count_of types.now }
    ensures { OnOk result (into.new.items ≡ into.old.items ++ class_type_text types.now (class_of class.now)) }
{
    put_type(class.ty, types, into)?;
    if class.rooted {
        into.push(b'*')?;
    }
    Ok(())
}

// `  K FROM:TO TYPE MAKER ..`
fn put_class(
    place: usize,
    class: &ToldClass,
    types: &Types,
    names: &[String],
    nodes: bool,
    into: &mut Vec<u8>,
) -> Result<(), NoMemory>
    requires place { place + 1 < 2 ^ 64 }
    requires named { IsClassNamed types.now (length names.now) (class_of class.now) }
    ensures { OnOk result (into.new.items ≡ into.old.items ++ class_line types.now (map string_bytes names.now) nodes place (class_of class.now)) }
{
    into.extend_from_slice(b"  ")?;
    put_number(place as u64 + 1, into)?;
    into.push(b' ')?;
    put_span(class.from, class.to, into)?;
    into.push(b' ')?;
    put_class_type(class, types, into)?;
    put_makers(&class.makers, names, nodes, into)?;
    into.push(b'\n')?;
    Ok(())
}

// A line for each of these classes, numbered from 1 on.
fn put_class_lines(
    alloc: Global,
    classes: &[ToldClass],
    types: &Types,
    names: &[String],
    nodes: bool,
    lines: &mut Vec<Vec<u8>>,
) -> Result<(), NoMemory>
    requires { All (IsClassNamed types.now (length names.now)) (map class_of classes.now) }
    ensures { OnOk result (map (λ l. l.items) lines.new.items ≡ map (λ l. l.items) lines.old.items ++ class_lines types.now (map string_bytes names.now) nodes 0 (map class_of classes.now)) }
{
    for (place, class) in classes.iter().enumerate() {
        let mut line = Vec::new(alloc);
        put_class(place, class, types, names, nodes, &mut line)?;
        lines.push(line)?;
    }
    Ok(())
}

// The number of classes, the unknown words and the classes.
fn lines_of_forest(
    alloc: Global,
    number: u64,
    unknown: &[Step],
    classes: &[ToldClass],
    types: &Types,
    names: &[String],
    nodes: bool,
) -> Result<Vec<Vec<u8>>, NoMemory>
    requires { All (IsClassNamed types.now (length names.now)) (map class_of classes.now) }
    ensures { IfOk result (λ lines. map (λ l. l.items) lines.items
        ≡ chart_lines types.now (map string_bytes names.now) nodes number (Forest (map (λ s. step_seen (step_of s)) unknown.now) (map class_of classes.now))) }
{
    let mut lines = Vec::with_capacity(alloc, classes.len() + 1)?;
    lines.push(count_line(alloc, number, classes.len())?)?;
    put_unknown_lines(alloc, unknown, &mut lines)?;
    put_class_lines(alloc, classes, types, names, nodes, &mut lines)?;
    Ok(lines)
}

/// What is written of an answer to the line of this number, with the nodes of lexical trees where they are asked for: the limit that is broken, or
/// the number of classes, the unknown words, and a line for each class. Each line has its end.
pub fn lines_of_chart(
    alloc: Global,
    number: u64,
    answer: &ChartAnswer,
    types: &Types,
    names: &[String],
    nodes: bool,
) -> Result<Vec<Vec<u8>>, NoMemory>
    requires { IsChartNamed types.now (length names.now) (chart_answer answer.now) }
    ensures { IfOk result (λ lines. map (λ l. l.items) lines.items ≡ chart_lines types.now (map string_bytes names.now) nodes number (chart_answer answer.now)) }
{
    match answer {
        ChartAnswer::LexicalDepth => Ok(lines_of_refusal(alloc, number, "lexical-depth")?),
        ChartAnswer::UnaryChain => Ok(lines_of_refusal(alloc, number, "unary-chain")?),
        ChartAnswer::Edges => Ok(lines_of_refusal(alloc, number, "edges")?),
        ChartAnswer::Forest { unknown, classes } => {
            lines_of_forest(alloc, number, unknown, classes, types, names, nodes)
        }
    }
}

/// Whether an answer is a limit that is broken.
pub fn is_refused(answer: &ChartAnswer) -> bool
    ensures { result ≡ is_refused (chart_answer answer.now) }
{
    !matches!(answer, ChartAnswer::Forest { .. })
}
