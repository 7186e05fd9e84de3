//! Cuts within cuts.

ghost use Rattle.std.specs.Prelude.{◌≡◌};
ghost use Rattle.std.specs.List.{list_all};
ghost use Rattle.fs_graph.specs.Facts.{path_of};
ghost use Rattle.fs_trim.specs.Cutting.{cut_of};
ghost use Rattle.tree_model.specs.Cuts.{has_feature};
ghost use Rattle.grammar_shapes.specs.Cutting.{cuts_no_more};

use fs_graph::Feat;
use fs_trim::Cut;

// Whether a feature is one of these.
fn has(feats: &[Feat], feat: Feat) -> bool
    ensures { result ≡ has_feature (path_of feats.now) feat.0 }
{
    feats.contains(&feat)
}

// Whether each of these features is one of others.
fn are_among(feats: &[Feat], others: &[Feat]) -> bool
    ensures { result ≡ list_all (has_feature (path_of others.now)) (path_of feats.now) }
{
    for feat in feats {
        if !has(others, *feat) {
            return false;
        }
    }
    true
}

// Whether all that the first cut cuts off, the second cuts off wherever it stands.
pub(crate) fn cuts_no_more(first: &Cut, second: &Cut) -> bool
    ensures { result ≡ cuts_no_more (cut_of first.now) (cut_of second.now) }
{
    are_among(&first.at_root, &second.anywhere) && are_among(&first.anywhere, &second.anywhere)
}
