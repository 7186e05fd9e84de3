//! The words of the strings of closed lists (DELPH-IN TDL: orthography).

ghost use Rattle.std.specs.Prelude.{◌≡◌, ◌<◌, ◌++◌, All, length, map, option_map, string_bytes, IfOk, OnOk, encode_utf8_all};
ghost use Rattle.std.specs.Str.{chars};
ghost use Rattle.type_hierarchy.specs.Table.{count_of};
ghost use Rattle.closed_lists.specs.Names.{names_of, words_in, IsReadable};
ghost use Rattle.closed_lists.specs.Strings.{words, string_of, words_of_string, AreWordsAt};
ghost use Rattle.closed_lists.specs.Inner.Spoken.{AreWordsOf};

use crate::lists::list_at;
use crate::names::ListNames;
use caseless::default_case_fold_str;
use fs_graph::{Feat, Graph, Node};
use lexicon::NoMemory;
use std::alloc::{AllocError, Global};
use type_hierarchy::{Ty, Types};

// The words of letters, which stand between white space.
fn words<'a>(alloc: Global, letters: &'a [char]) -> Result<Vec<&'a [char]>, AllocError>
    ensures { IfOk result (λ v. map (λ w. w.now) v.items ≡ words letters.now) }
{
    letters
        .split(|c| c.is_whitespace())
        .filter(|word| !word.is_empty())
        .collect(alloc)
}

// The text of letters.
fn text_of(alloc: Global, letters: &[char]) -> Result<String, NoMemory>
    ensures { IfOk result (λ s. string_bytes s ≡ encode_utf8_all letters.now) }
{
    let mut text = String::with_capacity(alloc, letters.len())?;
    for letter in letters {
        text.push(*letter)?;
    }
    Ok(text)
}

// Adds the texts of these words.
fn push_words(alloc: Global, out: &mut Vec<String>, words: &[&[char]]) -> Result<(), NoMemory>
    ensures { OnOk result (words_in out.new ≡ words_in out.old ++ map (λ w. encode_utf8_all w.now) words.now) }
{
    for word in words {
        out.push(text_of(alloc, word)?)?;
    }
    Ok(())
}

// The characters of a text.
fn chars_of(alloc: Global, text: &str) -> Result<Vec<char>, AllocError>
    ensures { IfOk result (λ v. v.items ≡ chars text.now) }
{
    text.chars().collect(alloc)
}

// Adds the words of a string: it is folded, and split at white space.
fn add_words(alloc: Global, out: &mut Vec<String>, text: &str) -> Result<(), NoMemory>
    ensures { OnOk result (words_in out.new ≡ words_in out.old ++ words_of_string text.now) }
{
    let folded = default_case_fold_str(alloc, text)?;
    let letters = chars_of(alloc, folded.as_str())?;
    let words = words(alloc, &letters)?;
    push_words(alloc, out, &words)?;
    Ok(())
}

// The string that a type is, where it is one.
fn string_of(types: &Types, t: Ty) -> Option<&str>
    requires { t.0 < count_of types.now }
    ensures { option_map (λ s. s.now) result ≡ string_of types.now t.0 }
{
    if t.0 < types.counts().completed {
        return None;
    }
    Some(types.name(t))
}

// The words of the strings of nodes, where each has one.
fn words_of(
    alloc: Global,
    types: &Types,
    graph: &Graph,
    nodes: &[Node],
) -> Result<Option<Vec<String>>, NoMemory>
    requires inside { All (λ n. n.0 < length graph.now.types) nodes.now }
    requires typed { All (λ t. t < count_of types.now) graph.now.types }
    ensures { IfOk result (λ o. AreWordsOf types.now graph.now (map (λ n. n.0) nodes.now) (option_map words_in o)) }
{
    let mut out = Vec::with_capacity(alloc, nodes.len())?;
    for node in nodes {
        let Some(text) = string_of(types, graph.ty(*node)) else {
            return Ok(None);
        };
        add_words(alloc, &mut out, text)?;
    }
    Ok(Some(out))
}

/// The folded words at a path from the root: those of the strings of a closed list, in order, each string split at white
/// space. `None` exactly where there is no such list, or no word.
pub fn words_at(
    alloc: Global,
    types: &Types,
    names: &ListNames,
    graph: &Graph,
    path: &[Option<Feat>],
    limit: u32,
) -> Result<Option<Vec<String>>, NoMemory>
    requires { IsReadable types.now (names_of names.now) limit graph.now }
    ensures { IfOk result (λ o. AreWordsAt types.now (names_of names.now) graph.now (map (option_map (λ f. f.0)) path.now) (option_map words_in o)) }
{
    graph.laws();
    let Some(nodes) = list_at(alloc, types, names, graph, path, limit)? else {
        return Ok(None);
    };
    let Some(words) = words_of(alloc, types, graph, &nodes)? else {
        return Ok(None);
    };
    if words.is_empty() {
        return Ok(None);
    }
    Ok(Some(words))
}
