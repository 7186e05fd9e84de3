//! The live hosts of a finished chart in the order of their keys, and their numbers.

ghost use Rattle.std.specs.Prelude.{◌≡◌, ◌<◌, All, IfOk, IsPermutation, length};
ghost use Rattle.std.specs.List.Sorted.{IsSortedBy};
ghost use Rattle.std.specs.Ordering.{is_lt};
ghost use Rattle.line_charts.specs.Keys.{compare_keys};
ghost use Rattle.line_charts.specs.Inner.Stages.{AreApart, AreNumbered};
ghost use Rattle.line_charts.specs.Inner.Hosts.{key_of, row_of};

use crate::NoMemory;
use crate::keys::{ClassKey, compare_keys};
use packed_forests::ClassRows;
use std::alloc::Global;

/// A live host with the rows that make the members of its class, and the key of the class.
#[derive(Drop)]
pub(crate) struct Host<'f> {
    pub(crate) rows: ClassRows,
    pub(crate) key: ClassKey<'f>,
}

/// Puts hosts in the order of their keys.
pub(crate) fn sort_hosts(hosts: &mut Vec<Host<'_>>)
    ensures moved { IsPermutation hosts.old.items hosts.new.items }
    ensures sorted { IsSortedBy (λ x y. is_lt (compare_keys (key_of x) (key_of y))) hosts.new.items }
{
    hosts.sort_unstable_by(|a, b| compare_keys(&a.key, &b.key));
}

// So many zeros.
fn zeros(alloc: Global, count: u64) -> Result<Vec<u32>, NoMemory>
    ensures { IfOk result (λ table. length table.items ≡ count) }
{
    let table = vec![in alloc; 0u32; count as usize]?;
    Ok(table)
}

// A place as a number. More than a `u32` can number count as want of memory.
fn number_of(place: usize) -> Result<u32, NoMemory>
    ensures { IfOk result (λ number. number ≡ place) }
{
    match u32::try_from(place) {
        Ok(number) => Ok(number),
        Err(_) => Err(NoMemory),
    }
}

/// A table with the number of each host at its row.
pub(crate) fn numbers_of(alloc: Global, hosts: &[Host<'_>], rows: u64) -> Result<Vec<u32>, NoMemory>
    requires within { All (λ h. row_of h < rows) hosts.now }
    requires apart { AreApart row_of hosts.now }
    ensures size { IfOk result (λ table. length table.items ≡ rows) }
    ensures numbered { IfOk result (λ table. AreNumbered row_of hosts.now table.items) }
{
    let mut table = zeros(alloc, rows)?;
    for i in 0..hosts.len() {
        let number = number_of(i)?;
        table[hosts[i].rows.host.0 as usize] = number;
    }
    Ok(table)
}
