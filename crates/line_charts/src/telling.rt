//! Packed classes as they are told.

ghost use Rattle.std.specs.Prelude.{◌≡◌, ◌<◌, All, IfOk, length, map};
ghost use Rattle.type_hierarchy.specs.Table.{count_of};
ghost use Rattle.chart_model.specs.Calculus.{Along};
ghost use Rattle.chart_core.specs.Kept.{core_of, rows_in};
ghost use Rattle.tree_model.specs.Signs.{rule_system};
ghost use Rattle.book_signs.specs.Trees.{signs_of};
ghost use Rattle.rule_trees.specs.Mothers.{IsShortIn};
ghost use Rattle.line_charts.specs.Views.{class_of};
ghost use Rattle.line_charts.specs.Inner.Hosts.{IsHostTellable, IsToldHost, key_of, trees_in};

use crate::hosts::Host;
use crate::making::makers_of;
use crate::rooted::is_rooted;
use crate::{NoMemory, ToldClass};
use book_signs::SignBook;
use chart_core::Finished;
use chart_model::Shapes;
use fs_graph::Node;
use fs_unify::Scratch;
use lexical_items::LexTree;
use std::alloc::Global;

// The class of a host as it is told.
fn told_class<T, S: Shapes>(
    alloc: Global,
    work: &mut Scratch,
    signs: &SignBook<'_>,
    trees: &[LexTree<T>],
    table: &[u32],
    finished: &Finished<S>,
    host: &Host<'_>,
) -> Result<ToldClass, NoMemory>
    requires short { IsShortIn signs.now (key_of host.now).graph }
    requires tellable { IsHostTellable (rows_in (core_of finished.now)) (length trees.now) (length (rule_system (signs_of signs.now)).rules) (length table.now) host.now }
    ensures told { IfOk result (λ told. IsToldHost (signs_of signs.now) (rows_in (core_of finished.now)) (trees_in trees.now) table.now host.now (class_of told)) }
    ensures typed { IfOk result (λ told. told.ty.0 < count_of signs.now.book.system.types) }
{
    let graph = host.key.graph;
    graph.laws();
    let rooted = is_rooted(alloc, work, signs, graph)?;
    let makers = makers_of(alloc, signs, trees, table, finished, &host.rows.makers)?;
    Ok(ToldClass {
        from: host.key.from,
        to: host.key.to,
        ty: graph.ty(Node(0)),
        rooted,
        makers,
    })
}

/// The classes of hosts as they are told, in their order.
pub(crate) fn told_classes<T, S: Shapes>(
    alloc: Global,
    work: &mut Scratch,
    signs: &SignBook<'_>,
    trees: &[LexTree<T>],
    table: &[u32],
    finished: &Finished<S>,
    hosts: &[Host<'_>],
) -> Result<Vec<ToldClass>, NoMemory>
    requires short { All (λ h. IsShortIn signs.now (key_of h).graph) hosts.now }
    requires tellable { All (IsHostTellable (rows_in (core_of finished.now)) (length trees.now) (length (rule_system (signs_of signs.now)).rules) (length table.now)) hosts.now }
    ensures told { IfOk result (λ classes. Along (IsToldHost (signs_of signs.now) (rows_in (core_of finished.now)) (trees_in trees.now) table.now) hosts.now (map class_of classes.items)) }
    ensures typed { IfOk result (λ classes. All (λ c. c.ty.0 < count_of signs.now.book.system.types) classes.items) }
{
    let mut classes = Vec::new(alloc);
    for host in hosts {
        classes.push(told_class(alloc, work, signs, trees, table, finished, host)?)?;
    }
    Ok(classes)
}
