//! The features of a path of names.

ghost use Rattle.std.specs.Prelude.{◌≡◌, ◌<◌, ◌^◌, length, map, option_map, IfOk, string_bytes};
ghost use Rattle.type_hierarchy.specs.Decls.{texts};
ghost use Rattle.constraint_expand.specs.Books.{feature_named};

use fs_graph::Feat;
use lexicon::NoMemory;
use std::alloc::Global;

// The feature of a name.
fn feature(feats: &[String], name: &String) -> Option<Feat>
    requires { length feats.now < 2 ^ 32 }
    ensures { option_map (λ f. f.0) result ≡ feature_named (texts feats.now) (string_bytes name.now) }
{
    for i in 0..feats.len() {
        if name.as_str() == feats[i].as_str() {
            return Some(Feat(i as u32));
        }
    }
    None
}

/// The features of names, where the grammar has them. More features than a `u32` can number count as want of memory.
pub fn features(
    alloc: Global,
    feats: &[String],
    names: &Vec<String>,
) -> Result<Vec<Option<Feat>>, NoMemory>
    ensures { IfOk result (λ found. map (option_map (λ f. f.0)) found.items ≡ map (feature_named (texts feats.now)) (texts names.now.items)) }
{
    if feats.len() > u32::MAX as usize {
        return Err(NoMemory);
    }
    let mut found = Vec::new(alloc);
    for name in names {
        found.push(feature(feats, name))?;
    }
    Ok(found)
}
