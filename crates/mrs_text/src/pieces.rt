//! Pieces of the text in which no variable stands. Each function appends its piece; where memory is wanting a part of it may be there.

ghost use Rattle.std.specs.Prelude.{◌≡◌, ◌++◌, ◌∷◌, [], ◌&&◌, nat_lt, length, map, codes, OnOk};
ghost use Rattle.std.specs.Fmt.{decimal};
ghost use Rattle.std.specs.List.{flat_map, list_all};
ghost use Rattle.std.specs.String.{string_bytes};
ghost use Rattle.std.specs.Str.{chars};
ghost use Rattle.mrs_model.specs.Views.{property_of, variable_of};
ghost use Rattle.mrs_text.specs.Signs.{in_pred};
ghost use Rattle.mrs_text.specs.Written.{escaped, quoted, upper, pred_text, span_text, property_text, properties_text};

use itoa::Buffer;
use mrs_model::{Ep, Extent, NoMemory, Prop, Var, ends_name, first};

/// A number in decimal digits.
pub(crate) fn put_number(number: usize, into: &mut Vec<u8>) -> Result<(), NoMemory>
    ensures { OnOk result (into.new.items ≡ into.old.items ++ decimal number) }
{
    let mut buffer = Buffer::new();
    into.extend_from_slice(buffer.format(number).as_bytes())?;
    Ok(())
}

/// A name in upper case.
pub(crate) fn put_upper(name: &str, into: &mut Vec<u8>) -> Result<(), NoMemory>
    ensures { OnOk result (into.new.items ≡ into.old.items ++ upper name.now) }
{
    for byte in name.as_bytes() {
        into.push(byte.to_ascii_uppercase())?;
    }
    Ok(())
}

fn put_escaped(text: &str, into: &mut Vec<u8>) -> Result<(), NoMemory>
    ensures { OnOk result (into.new.items ≡ into.old.items ++ flat_map escaped text.now) }
{
    for byte in text.as_bytes() {
        if *byte == b'"' || *byte == b'\\' {
            into.push(b'\\')?;
        }
        into.push(*byte)?;
    }
    Ok(())
}

/// A text between quotes; a quote and a backslash in it have a backslash before them.
pub(crate) fn put_quoted(text: &str, into: &mut Vec<u8>) -> Result<(), NoMemory>
    ensures { OnOk result (into.new.items ≡ into.old.items ++ quoted text.now) }
{
    into.push(b'"')?;
    put_escaped(text, into)?;
    into.push(b'"')?;
    Ok(())
}

fn in_pred(c: char) -> bool
    ensures { result ≡ in_pred c }
{
    !ends_name(c) || c == ':'
}

fn are_in_pred(text: &str) -> bool
    ensures { result ≡ list_all in_pred (chars text.now) }
{
    let mut rest = text;
    while let Some((c, after)) = first(rest) {
        if !in_pred(c) {
            return false;
        }
        rest = after;
    }
    true
}

/// A predicate as it stands where it is a run of the characters of predicates, otherwise between quotes.
pub(crate) fn put_pred(pred: &str, into: &mut Vec<u8>) -> Result<(), NoMemory>
    ensures { OnOk result (into.new.items ≡ into.old.items ++ pred_text pred.now) }
{
    if !pred.is_empty() && are_in_pred(pred) {
        into.extend_from_slice(pred.as_bytes())?;
        return Ok(());
    }
    put_quoted(pred, into)
}

/// `<A:B>`, where there is a span.
pub(crate) fn put_span(span: Option<Extent>, into: &mut Vec<u8>) -> Result<(), NoMemory>
    ensures { OnOk result (into.new.items ≡ into.old.items ++ span_text span) }
{
    let Some(span) = span else {
        return Ok(());
    };
    into.push(b'<')?;
    put_number(span.from as usize, into)?;
    into.push(b':')?;
    put_number(span.to as usize, into)?;
    into.push(b'>')?;
    Ok(())
}

/// ` [ PRED<A:B> LBL: `
pub(crate) fn put_head(ep: &Ep, into: &mut Vec<u8>) -> Result<(), NoMemory>
    ensures { OnOk result (into.new.items ≡ into.old.items ++ ((codes " [ " ++ (pred_text (string_bytes ep.now.pred) ++ span_text ep.now.span)) ++ codes " LBL: ")) }
{
    into.extend_from_slice(b" [ ")?;
    put_pred(&ep.pred, into)?;
    put_span(ep.span, into)?;
    into.extend_from_slice(b" LBL: ")?;
    Ok(())
}

/// ` NAME: VALUE`
fn put_property(prop: &Prop, into: &mut Vec<u8>) -> Result<(), NoMemory>
    ensures { OnOk result (into.new.items ≡ into.old.items ++ property_text (property_of prop.now)) }
{
    into.push(b' ')?;
    put_upper(&prop.name, into)?;
    into.extend_from_slice(b": ")?;
    into.extend_from_slice(prop.value.as_bytes())?;
    Ok(())
}

fn put_all_properties(props: &[Prop], into: &mut Vec<u8>) -> Result<(), NoMemory>
    ensures { OnOk result (into.new.items ≡ into.old.items ++ flat_map property_text (map property_of props.now)) }
{
    for prop in props {
        put_property(prop, into)?;
    }
    Ok(())
}

/// ` [ SORT NAME: VALUE .. ]`, where there are properties.
pub(crate) fn put_properties(var: &Var, into: &mut Vec<u8>) -> Result<(), NoMemory>
    ensures { OnOk result (into.new.items ≡ into.old.items ++ properties_text (variable_of var.now) (variable_of var.now).props) }
{
    if var.props.is_empty() {
        return Ok(());
    }
    into.extend_from_slice(b" [ ")?;
    into.extend_from_slice(var.sort.as_bytes())?;
    put_all_properties(&var.props, into)?;
    into.extend_from_slice(b" ]")?;
    Ok(())
}

/// ` NAME: `
pub(crate) fn put_role_name(name: &str, into: &mut Vec<u8>) -> Result<(), NoMemory>
    ensures { OnOk result (into.new.items ≡ into.old.items ++ ((32 ∷ upper name.now) ++ 58 ∷ 32 ∷ [])) }
{
    into.push(b' ')?;
    put_upper(name, into)?;
    into.extend_from_slice(b": ")?;
    Ok(())
}

/// ` RELATION `
pub(crate) fn put_rel(rel: &str, into: &mut Vec<u8>) -> Result<(), NoMemory>
    ensures { OnOk result (into.new.items ≡ into.old.items ++ ((32 ∷ rel.now) ++ 32 ∷ [])) }
{
    into.push(b' ')?;
    into.extend_from_slice(rel.as_bytes())?;
    into.push(b' ')?;
    Ok(())
}
