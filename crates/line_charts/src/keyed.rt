//! The live hosts of a finished chart with their keys.

ghost use Rattle.std.specs.Prelude.{◌≡◌, All, IfOk, length, map, string_bytes};
ghost use Rattle.grammar_shapes.specs.Systems.{grammar_of};
ghost use Rattle.line_charts.specs.Inner.Keyed.{key_seen};
ghost use Rattle.line_charts.specs.Inner.Hosts.{HasShape};
ghost use Rattle.line_charts.specs.Inner.KeyedHosts.{AreBelonging, IsKeyOf, IsHostKeyed};

use crate::NoMemory;
use crate::hosts::Host;
use crate::keys::{ClassKey, class_key};
use chart_core::{Finished, RowId};
use chart_model::{Shapes, Span};
use grammar_shapes::{GrammarShapes, Place};
use packed_forests::ClassRows;
use std::alloc::Global;
use std::sync::Arc;

// The key of the class of a live host.
fn host_key<'f, S: Shapes<Shape = Arc<Place>, Cover = Span>>(
    alloc: Global,
    shapes: &GrammarShapes<'_>,
    feats: &[String],
    finished: &'f Finished<S>,
    host: RowId,
) -> Result<ClassKey<'f>, NoMemory>
    requires feats { length feats.now ≡ length (grammar_of shapes.now).introducers }
    requires belonging { AreBelonging shapes.now finished.now }
    requires host { HasShape finished.now host.0 }
    ensures { IfOk result (λ key. IsKeyOf shapes.now finished.now (grammar_of shapes.now).types (map string_bytes feats.now) host.0 (key_seen key)) }
{
    let row = finished.row(host);
    let Some(shape) = &row.shape else {
        unreachable!();
    };
    let place: &Place = shape;
    place.graph.laws();
    let key = class_key(
        alloc,
        row.cover.from,
        row.cover.to,
        row.level,
        &place.graph,
        shapes.types(),
        feats,
    )?;
    Ok(key)
}

/// The live hosts with their keys, as the classes stand.
pub(crate) fn keyed_hosts<'f, S: Shapes<Shape = Arc<Place>, Cover = Span>>(
    alloc: Global,
    shapes: &GrammarShapes<'_>,
    feats: &[String],
    finished: &'f Finished<S>,
    classes: Vec<ClassRows>,
) -> Result<Vec<Host<'f>>, NoMemory>
    requires feats { length feats.now ≡ length (grammar_of shapes.now).introducers }
    requires belonging { AreBelonging shapes.now finished.now }
    requires hosts { All (λ r. HasShape finished.now r.host.0) classes.items }
    ensures rows { IfOk result (λ hosts. map (λ h. h.rows) hosts.items ≡ classes.items) }
    ensures keyed { IfOk result (λ hosts. All (IsHostKeyed shapes.now finished.now (grammar_of shapes.now).types (map string_bytes feats.now)) hosts.items) }
{
    let Ok(mut hosts) = Vec::with_capacity(alloc, classes.len()) else {
        return Err(NoMemory);
    };
    for rows in classes {
        let key = host_key(alloc, shapes, feats, finished, rows.host)?;
        hosts.push(Host { rows, key })?;
    }
    Ok(hosts)
}
