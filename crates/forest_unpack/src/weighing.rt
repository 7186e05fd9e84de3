//! How many trees the groups of a chart hold at most.

ghost use Rattle.std.specs.Prelude.{◌<◌, length};
ghost use Rattle.chart_core.specs.Grammar.{grammar_of};
ghost use Rattle.chart_core.specs.Kept.{IsCore, core_of, rows_in};

use crate::NoMemory;
use crate::members::host_of;
use chart_core::{Daughters, Finished, RowId, RowKind};
use chart_model::Shapes;
use std::alloc::Global;

/// A row with its rank.
#[derive(Debug, Clone, Copy)]
pub struct Ranked {
    rank: u64,
    pub row: u64,
}

/// The rows by their ranks, those of daughters first.
pub fn by_rank(alloc: Global, ranks: &[u64]) -> Result<Vec<Ranked>, NoMemory> {
    let mut order = Vec::with_capacity(alloc, ranks.len())?;
    for at in 0..ranks.len() {
        let rank = ranks[at];
        let row = at as u64;
        order.push(Ranked { rank, row })?;
    }
    order.sort_unstable_by(|a, b| a.rank.cmp(&b.rank));
    Ok(order)
}

/// No trees yet, for as many hosts.
fn no_trees(alloc: Global, count: usize) -> Result<Vec<u64>, NoMemory> {
    let mut trees = Vec::with_capacity(alloc, count)?;
    for _ in 0..count {
        trees.push(0)?;
    }
    Ok(trees)
}

/// The number of trees of a host; 1 where there is none.
fn trees_at(trees: &[u64], host: Option<RowId>) -> u64 {
    match host {
        None => 1,
        Some(host) => match trees.get(host.0 as usize) {
            None => 0,
            Some(count) => *count,
        },
    }
}

/// How many trees a rule makes of these daughters, if it makes one of all that stand in their groups.
fn products(trees: &[u64], daughters: &Daughters) -> u64 {
    trees_at(trees, daughters.a)
        .saturating_mul(trees_at(trees, daughters.b))
        .saturating_mul(trees_at(trees, daughters.c))
        .saturating_mul(trees_at(trees, daughters.d))
}

/// Adds the trees of a row to those of its host; how many it has.
fn count_row<S: Shapes>(finished: &Finished<S>, row: RowId, trees: &mut Vec<u64>) -> u64
    requires core { (s : S) × IsCore (grammar_of S.Shapes S.Cover.Cover.own s) (core_of finished.now) }
    requires made { row.0 < length (rows_in (core_of finished.now)) }
{
    let there = finished.row(row);
    let more = match there.kind {
        RowKind::Leaf { .. } => 1,
        RowKind::Partial { .. } => return 0,
        RowKind::Whole { .. } => products(trees, &there.daughters),
    };
    let host = host_of(finished, row);
    if let Some(count) = trees.get_mut(host.0 as usize) {
        *count = (*count).saturating_add(more);
    }
    more
}

/// Whether the groups of a chart may hold more trees than a number. It is an estimate, by which it is chosen how lists are made: trees that have no full
/// structure are counted too.
pub fn is_large<S: Shapes>(
    alloc: Global,
    finished: &Finished<S>,
    ranks: &[u64],
    number: u64,
) -> Result<bool, NoMemory>
    requires { (s : S) × IsCore (grammar_of S.Shapes S.Cover.Cover.own s) (core_of finished.now) }
{
    let order = by_rank(alloc, ranks)?;
    let mut trees = no_trees(alloc, ranks.len())?;
    let mut sum = 0u64;
    for ranked in &order {
        if ranked.row < finished.rows() {
            let more = count_row(finished, RowId(ranked.row), &mut trees);
            sum = sum.saturating_add(more);
        }
        if sum > number {
            return Ok(true);
        }
    }
    Ok(false)
}
