//! What makes the members of packed classes.

ghost use Rattle.std.specs.Prelude.{◌≡◌, ◌<◌, ◌++◌, All, IfOk, IfSome, IsPermutation, List, ℕ, OnOk, length, map};
ghost use Rattle.std.specs.List.Sorted.{IsSortedBy};
ghost use Rattle.std.specs.Ordering.{is_lt};
ghost use Rattle.chart_model.specs.Calculus.{Along};
ghost use Rattle.chart_model.specs.Chart.{OfLeaf};
ghost use Rattle.chart_core.specs.Kept.{core_of, rows_in};
ghost use Rattle.chart_core.specs.View.{kind_of, list_of, one_of};
ghost use Rattle.tree_model.specs.Signs.{rule_system};
ghost use Rattle.book_signs.specs.Trees.{signs_of};
ghost use Rattle.line_charts.specs.Charts.{compare_makers};
ghost use Rattle.line_charts.specs.Views.{maker_of};
ghost use Rattle.line_charts.specs.Inner.Stages.{rule_place, IsNumber, IsRowMaker, IsTellable, IsTellableAt, IsMakerAt, AreRowMakers};
ghost use Rattle.line_charts.specs.Inner.Hosts.{trees_in};

use crate::makers::compare_makers;
use crate::{Maker, NoMemory};
use book_signs::SignBook;
use chart_core::{Daughters, Finished, Row, RowId, RowKind};
use chart_model::Shapes;
use lexical_items::LexTree;
use std::alloc::Global;

// Adds the number at a daughter, where there is one.
fn add_number(
    table: &[u32],
    daughter: Option<RowId>,
    numbers: &mut Vec<u32>,
) -> Result<(), NoMemory>
    requires { IfSome daughter (λ d. d.0 < length table.now) }
    ensures { OnOk result ((ds : List ℕ) → Along (IsNumber table.now) numbers.old.items ds → Along (IsNumber table.now) numbers.new.items (ds ++ one_of daughter)) }
{
    if let Some(row) = daughter {
        numbers.push(table[row.0 as usize])?;
    }
    Ok(())
}

// The numbers at these daughters, from the left.
fn numbers_at(alloc: Global, table: &[u32], daughters: &Daughters) -> Result<Vec<u32>, NoMemory>
    requires { All (λ d. d < length table.now) (list_of daughters.now) }
    ensures { IfOk result (λ ns. Along (IsNumber table.now) ns.items (list_of daughters.now)) }
{
    let mut numbers = Vec::new(alloc);
    add_number(table, daughters.a, &mut numbers)?;
    add_number(table, daughters.b, &mut numbers)?;
    add_number(table, daughters.c, &mut numbers)?;
    add_number(table, daughters.d, &mut numbers)?;
    Ok(numbers)
}

// The lexical tree of a leaf's name.
fn tree_named<T>(trees: &[LexTree<T>], name: u32) -> Result<Maker, NoMemory>
    requires { name < length trees.now }
    ensures { IfOk result (λ m. (place : ℕ → ℕ) (table ds : List ℕ) → IsRowMaker (trees_in trees.now) place table (OfLeaf name) ds (maker_of m)) }
{
    match trees[name as usize].tree.copy() {
        Ok(tree) => Ok(Maker::Tree(tree)),
        Err(_) => Err(NoMemory),
    }
}

// The place of a phrase rule's number.
fn place_of(signs: &SignBook<'_>, rule: u32) -> u32
    requires { rule < length (rule_system (signs_of signs.now)).rules }
    ensures { result ≡ rule_place (signs_of signs.now) rule }
{
    signs.phrase_rules()[rule as usize]
}

// What a row makes members by.
fn maker_at<T, S: Shapes>(
    alloc: Global,
    signs: &SignBook<'_>,
    trees: &[LexTree<T>],
    table: &[u32],
    row: &Row<S>,
) -> Result<Maker, NoMemory>
    requires { IsTellable (length trees.now) (length (rule_system (signs_of signs.now)).rules) (length table.now) (kind_of row.now.kind) (list_of row.now.daughters) }
    ensures { IfOk result (λ m. IsRowMaker (trees_in trees.now) (rule_place (signs_of signs.now)) table.now (kind_of row.now.kind) (list_of row.now.daughters) (maker_of m)) }
{
    match row.kind {
        RowKind::Leaf { name } => tree_named(trees, name),
        RowKind::Whole { rule } => {
            let classes = numbers_at(alloc, table, &row.daughters)?;
            Ok(Maker::Rule {
                place: place_of(signs, rule),
                classes,
            })
        }
        RowKind::Partial { .. } => unreachable!(),
    }
}

// What these rows make members by, in their order.
fn makers_at<T, S: Shapes>(
    alloc: Global,
    signs: &SignBook<'_>,
    trees: &[LexTree<T>],
    table: &[u32],
    finished: &Finished<S>,
    rows: &[RowId],
) -> Result<Vec<Maker>, NoMemory>
    requires { All (λ r. IsTellableAt (rows_in (core_of finished.now)) (length trees.now) (length (rule_system (signs_of signs.now)).rules) (length table.now) r.0) rows.now }
    ensures { IfOk result (λ ms. Along (IsMakerAt (rows_in (core_of finished.now)) (trees_in trees.now) (rule_place (signs_of signs.now)) table.now) (map (λ r. r.0) rows.now) (map maker_of ms.items)) }
{
    let mut makers = Vec::new(alloc);
    for row in rows {
        makers.push(maker_at(alloc, signs, trees, table, finished.row(*row))?)?;
    }
    Ok(makers)
}

// Puts makers in order.
fn sort_makers(makers: &mut Vec<Maker>)
    ensures moved { IsPermutation (map maker_of makers.old.items) (map maker_of makers.new.items) }
    ensures sorted { IsSortedBy (λ x y. is_lt (compare_makers x y)) (map maker_of makers.new.items) }
{
    makers.sort_unstable_by(|a, b| compare_makers(a, b));
}

/// What these rows make members by, in order.
pub(crate) fn makers_of<T, S: Shapes>(
    alloc: Global,
    signs: &SignBook<'_>,
    trees: &[LexTree<T>],
    table: &[u32],
    finished: &Finished<S>,
    rows: &[RowId],
) -> Result<Vec<Maker>, NoMemory>
    requires { All (λ r. IsTellableAt (rows_in (core_of finished.now)) (length trees.now) (length (rule_system (signs_of signs.now)).rules) (length table.now) r.0) rows.now }
    ensures { IfOk result (λ ms. AreRowMakers (rows_in (core_of finished.now)) (trees_in trees.now) (rule_place (signs_of signs.now)) table.now (map (λ r. r.0) rows.now) (map maker_of ms.items)) }
{
    let mut makers = makers_at(alloc, signs, trees, table, finished, rows)?;
    sort_makers(&mut makers);
    Ok(makers)
}
