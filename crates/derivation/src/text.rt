//! The text of a tree.
ghost use Rattle.std.specs.Prelude.{◌≡◌, ◌++◌, ◌∷◌, [], ◌<◌, length, map, replicate, OnOk, OnErr, All};
ghost use Rattle.std.specs.List.{flat_map, join_with_byte};
ghost use Rattle.std.specs.Fmt.{decimal};
ghost use Rattle.std.specs.String.{string_bytes};
ghost use Rattle.derivation.specs.Views.{derivation_of, in_order};
ghost use Rattle.derivation.specs.Text.{IsNamed, AreNamed, IsFront, text_of, daughters_text, name_of, escaped, words_text, nodes_text, openings};

use crate::{NoMemory, Tree};

/// Appends the text of a tree, with the name of each place, which `is_named` tests.
/// A lexical tree is `(RULE (.. (ENTRY "WORDS")))`, the outermost rule first, the words joined by one blank; a quote and a backslash
/// in words have a backslash before them. The innermost text is `(ENTRY "WORDS" FROM TO)` where `nodes` are asked for and the tree has some.
/// A phrase is `(RULE DAUGHTER1 DAUGHTER2)` with blanks between. Where memory is wanting `into` stays as it was.
pub fn write(tree: &Tree, names: &[String], nodes: bool, into: &mut Vec<u8>) -> Result<(), NoMemory>
    requires { IsNamed (length names.now) (derivation_of tree.now) }
    ensures ok { OnOk result (into.new.items ≡ into.old.items ++ text_of (map string_bytes names.now) nodes (derivation_of tree.now)) }
    ensures err { OnErr result (into.new.items ≡ into.old.items) }
{
    let before = into.len();
    let written = put_tree(tree, names, nodes, into);
    if written.is_err() {
        into.truncate(before);
    }
    written
}

#[cycle(texts)]
#[tactic(auto, using(crate::proofs::Fronts::front_beyond))]
fn put_tree(tree: &Tree, names: &[String], asked: bool, into: &mut Vec<u8>) -> Result<(), NoMemory>
    requires { IsNamed (length names.now) (derivation_of tree.now) }
    ensures ok { OnOk result (into.new.items ≡ into.old.items ++ text_of (map string_bytes names.now) asked (derivation_of tree.now)) }
    ensures err { OnErr result (IsFront into.old.items into.new.items) }
{
    match tree {
        Tree::Lexical {
            entry,
            rules,
            words,
            nodes,
        } => {
            put_rules(rules, names, into)?;
            put_name(*entry, names, into)?;
            put_words(words, into)?;
            put_nodes(asked, *nodes, into)?;
            close(rules.len() + 1, into)
        }
        Tree::Phrase {
            rule,
            daughters,
            ..
        } => {
            put_name(*rule, names, into)?;
            put_daughters(daughters, names, asked, into)?;
            close(1, into)
        }
    }
}

/// Each with a blank before it.
#[cycle(texts)]
#[tactic(auto, using(crate::proofs::Fronts::front_beyond))]
fn put_daughters(
    daughters: &[Tree],
    names: &[String],
    asked: bool,
    into: &mut Vec<u8>,
) -> Result<(), NoMemory>
    requires { AreNamed (length names.now) (in_order (map derivation_of daughters.now)) }
    ensures ok { OnOk result (into.new.items
        ≡ into.old.items ++ daughters_text (map string_bytes names.now) asked (in_order (map derivation_of daughters.now))) }
    ensures err { OnErr result (IsFront into.old.items into.new.items) }
{
    for daughter in daughters {
        into.push(b' ')?;
        put_tree(daughter, names, asked, into)?;
    }
    Ok(())
}

/// `(RULE ` for each, the outermost first.
#[tactic(auto, using(crate::proofs::Fronts::front_beyond))]
fn put_rules(rules: &[u32], names: &[String], into: &mut Vec<u8>) -> Result<(), NoMemory>
    requires { All (λ rule. rule < length names.now) rules.now }
    ensures ok { OnOk result (into.new.items ≡ into.old.items ++ openings (map string_bytes names.now) rules.now) }
    ensures err { OnErr result (IsFront into.old.items into.new.items) }
{
    for rule in rules.iter().rev() {
        put_name(*rule, names, into)?;
        into.push(b' ')?;
    }
    Ok(())
}

/// `(NAME`
fn put_name(place: u32, names: &[String], into: &mut Vec<u8>) -> Result<(), NoMemory>
    requires { place < length names.now }
    ensures ok { OnOk result (into.new.items ≡ into.old.items ++ (40 ∷ name_of (map string_bytes names.now) place)) }
    ensures err { OnErr result (IsFront into.old.items into.new.items) }
{
    into.push(b'(')?;
    into.extend_from_slice(names[place as usize].as_bytes())?;
    Ok(())
}

/// ` "WORDS"`
#[tactic(auto, using(crate::proofs::Fronts::front_beyond))]
fn put_words(words: &[String], into: &mut Vec<u8>) -> Result<(), NoMemory>
    ensures ok { OnOk result (into.new.items ≡ into.old.items ++ words_text (map string_bytes words.now)) }
    ensures err { OnErr result (IsFront into.old.items into.new.items) }
{
    into.extend_from_slice(b" \"")?;
    put_joined(words, into)?;
    into.push(b'"')?;
    Ok(())
}

/// The words with their escapes, joined by one blank.
#[tactic(auto, using(crate::proofs::Fronts::front_beyond))]
fn put_joined(words: &[String], into: &mut Vec<u8>) -> Result<(), NoMemory>
    ensures ok { OnOk result (into.new.items ≡ into.old.items ++ flat_map escaped (join_with_byte 32 (map string_bytes words.now))) }
    ensures err { OnErr result (IsFront into.old.items into.new.items) }
{
    let Some((word, more)) = words.split_first() else {
        return Ok(());
    };
    put_word(word, into)?;
    for word in more {
        into.push(b' ')?;
        put_word(word, into)?;
    }
    Ok(())
}

/// A word with its escapes.
fn put_word(word: &str, into: &mut Vec<u8>) -> Result<(), NoMemory>
    ensures ok { OnOk result (into.new.items ≡ into.old.items ++ flat_map escaped word.now) }
    ensures err { OnErr result (IsFront into.old.items into.new.items) }
{
    for byte in word.as_bytes() {
        if *byte == b'"' || *byte == b'\\' {
            into.push(b'\\')?;
        }
        into.push(*byte)?;
    }
    Ok(())
}

/// ` FROM TO`, where they are asked for and there are some
#[tactic(auto, using(crate::proofs::Fronts::front_beyond))]
fn put_nodes(asked: bool, nodes: Option<(u32, u32)>, into: &mut Vec<u8>) -> Result<(), NoMemory>
    ensures ok { OnOk result (into.new.items ≡ into.old.items ++ nodes_text asked nodes) }
    ensures err { OnErr result (IsFront into.old.items into.new.items) }
{
    if asked && let Some((from, to)) = nodes {
        put_node(from, into)?;
        put_node(to, into)?;
    }
    Ok(())
}

/// ` NODE`
#[tactic(auto, using(crate::proofs::Fronts::front_beyond))]
fn put_node(node: u32, into: &mut Vec<u8>) -> Result<(), NoMemory>
    ensures ok { OnOk result (into.new.items ≡ into.old.items ++ (32 ∷ decimal node)) }
    ensures err { OnErr result (IsFront into.old.items into.new.items) }
{
    into.push(b' ')?;
    put_number(node, into)
}

/// In decimal digits.
fn put_number(number: u32, into: &mut Vec<u8>) -> Result<(), NoMemory>
    ensures ok { OnOk result (into.new.items ≡ into.old.items ++ decimal number) }
    ensures err { OnErr result (IsFront into.old.items into.new.items) }
{
    if number >= 10 {
        put_number(number / 10, into)?;
    }
    into.push(b'0' + (number % 10) as u8)?;
    Ok(())
}

/// So many closing brackets.
fn close(count: usize, into: &mut Vec<u8>) -> Result<(), NoMemory>
    ensures ok { OnOk result (into.new.items ≡ into.old.items ++ replicate count 41) }
    ensures err { OnErr result (IsFront into.old.items into.new.items) }
{
    for _closed in 0..count {
        into.push(b')')?;
    }
    Ok(())
}
