//! What the packed forests of a grammar are told by.

use book_signs::SignBook;
use grammar_rules::LineShapes;

/// What the charts of a grammar are filled and told by: the structures of its instances, the shapes of these, and the names of features by
/// number, in which structures are written to be put in order. What the shapes remember enters into no answer.
#[derive(Clone, Copy)]
pub struct ChartGrammar<'a, 's> {
    pub signs: &'a SignBook<'a>,
    pub shapes: &'a LineShapes<'a, 's>,
    pub feats: &'a [String],
}
