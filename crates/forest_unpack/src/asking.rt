//! The hosts whose trees may be asked for.

ghost use Rattle.std.specs.Prelude.{◌≡◌, ◌<◌, length, map, IfOk, IsTrue, is_some, None, true, false};
ghost use Rattle.chart_core.specs.Kept.{core_of, rows_in};
ghost use Rattle.forest_unpack.specs.Keeping.{asked_of};
ghost use Rattle.forest_unpack.specs.Asking.{AreAsked};

use crate::collecting::Wanted;
use crate::{Fulls, NoMemory};
use chart_core::{Finished, Row, RowId};
use chart_model::Shapes;
use std::alloc::Global;

/// Whether a row is a live host whose cover is wanted.
fn is_wanted<S: Shapes, F: Fulls<Cover = S::Cover>>(fulls: &F, row: &Row<S>) -> bool
    ensures live { IsTrue result → (is_some row.now.shape ≡ true) × (row.now.into ≡ None) }
    ensures none { result ≡ false → is_some row.now.shape ≡ true → row.now.into ≡ None → (v : F.Value) → (F.wholes fulls.now).accepted v row.now.cover → ⊥ }
{
    row.shape.is_some() && row.into.is_none() && fulls.wants(&row.cover)
}

/// The live hosts whose covers are wanted, in order of number.
pub fn wanted_of<'w, S: Shapes, F: Fulls<Cover = S::Cover>>(
    alloc: Global,
    finished: &'w Finished<S>,
    fulls: &F,
) -> Result<Vec<Wanted<'w, F>>, NoMemory>
    ensures { IfOk result (λ wanted. AreAsked (F.wholes fulls.now) (rows_in (core_of finished.now)) (length (rows_in (core_of finished.now))) (map asked_of wanted.items)) }
{
    let mut wanted = Vec::new(alloc);
    for i in 0..finished.rows() {
        let row = finished.row(RowId(i));
        if is_wanted(fulls, row) {
            let cover = &row.cover;
            wanted.push(Wanted { host: i, cover })?;
        }
    }
    Ok(wanted)
}
