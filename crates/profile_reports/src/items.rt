//! The items of a profile.
ghost use Rattle.std.specs.Prelude.{◌≡◌, ◌≤◌, length, map, All, IfOk};
ghost use Rattle.std.specs.Str.{chars, skip_leading_whitespace};
ghost use Rattle.lkb_io.specs.Lines.{lines_of};
ghost use Rattle.profile_reports.specs.Profiles.{items_of, item_of, written, trees_before};
ghost use Rattle.profile_reports.specs.Bounds.{IsWithin};
ghost use Rattle.profile_reports.specs.ItemsViews.{item_kept};

use crate::NoMemory;
use crate::heads::{after_blanks, chars_of, expected_of, run_and_rest, text_of};
use crate::items_lines::{first_line, is_passed, is_tree, tree_in};
use crate::profiles::ProfileItem;
use std::alloc::Global;
use std::str;

// The trees that stand in front of the first item of these bytes.
fn trees_before(alloc: Global, bytes: &[u8]) -> Result<Vec<Vec<u8>>, NoMemory>
    ensures { IfOk result (λ v. map (λ t. t.items) v.items ≡ trees_before (lines_of bytes.now)) }
{
    let mut trees = Vec::new(alloc);
    let mut rest = bytes;
    while !rest.is_empty() {
        let (line, after) = first_line(rest);
        if !is_passed(line) {
            if !is_tree(line) {
                return Ok(trees);
            }
            trees.push(Vec::from_slice(alloc, tree_in(line))?)?;
        }
        rest = after;
    }
    Ok(trees)
}

// The item that these characters write, with the trees that stand in front of the next item in the bytes after its line.
fn written(alloc: Global, letters: &[char], after: &[u8]) -> Result<ProfileItem, NoMemory>
    ensures { IfOk result (λ i. item_kept i ≡ written letters.now (trees_before (lines_of after.now))) }
{
    let (run, rest) = run_and_rest(letters);
    let word = text_of(alloc, run)?;
    let Some(expected) = expected_of(word.as_str()) else {
        return Ok(ProfileItem::NoItem);
    };
    let sentence = text_of(alloc, rest)?;
    let trees = trees_before(alloc, after)?;
    Ok(ProfileItem::Item {
        expected,
        sentence,
        trees,
    })
}

// The item of a line, with the trees that are written below it. (A bad item's trees aren't read.)
fn item_of(alloc: Global, line: &[u8], after: &[u8]) -> Result<ProfileItem, NoMemory>
    ensures { IfOk result (λ i. item_kept i ≡ item_of line.now (trees_before (lines_of after.now))) }
{
    if line.len() > 65_535 {
        return Ok(ProfileItem::TooLong);
    }
    let Ok(text) = str::from_utf8(line) else {
        return Ok(ProfileItem::NotUtf8);
    };
    let letters = chars_of(alloc, text)?;
    written(alloc, after_blanks(&letters), after)
}

// The items of a profile. Each line is looked at twice at most: an item's line once, and a tree's line once more for its item.
fn items_of(alloc: Global, text: &[u8]) -> Result<Vec<ProfileItem>, NoMemory>
    ensures { IfOk result (λ v. map item_kept v.items ≡ items_of text.now) }
{
    let mut items = Vec::new(alloc);
    let mut rest = text;
    while !rest.is_empty() {
        let (line, after) = first_line(rest);
        if !is_passed(line) && !is_tree(line) {
            items.push(item_of(alloc, line, after)?)?;
        }
        rest = after;
    }
    Ok(items)
}

/// The items of a profile. Its lines end with byte 10, the last one with or without; an empty line and one that begins with a semicolon
/// are passed over, and a line that begins with two blanks is a tree of the item above it. Every other line is an item: what is expected,
/// and the sentence.
pub fn profile(alloc: Global, text: &[u8]) -> Result<Vec<ProfileItem>, NoMemory>
    ensures items { IfOk result (λ v. map item_kept v.items ≡ items_of text.now) }
    ensures few { IfOk result (λ v. length v.items ≤ length text.now) }
    ensures within { IfOk result (λ v. All (λ i. IsWithin (length text.now) (item_kept i)) v.items) }
{
    items_of(alloc, text)
}
