//! All scoped readings of an MRS.

ghost use Rattle.std.specs.Prelude.{◌≡◌, ◌≢◌, ◌<◌, ◌≤◌, ℕ, ◌↔◌, IfOk, IfErr, MatchOption, All, IsTrue, map, length, codes, false};
ghost use Rattle.mrs_model.specs.Meanings.{Meaning};
ghost use Rattle.mrs_model.specs.Valid.{IsValid};
ghost use Rattle.mrs_model.specs.Views.{meaning_of, hcon_of};
ghost use Rattle.scope_model.specs.Readings.{Plugged, IsReading};
ghost use Rattle.scope_model.specs.Answers.{AreReadings, AreAll, IsOver, IsQeq, IsFirstOther, IsScopeFault, Rises, frame, plugged_of};
ghost use Rattle.scope_resolve.specs.Inner.Nets.{IsLinked, IsNet, frame_in};
ghost use Rattle.scope_resolve.specs.Inner.Resolving.{IsOtherAt, AreMore};

use crate::building::parts_of;
use crate::nets::Net;
use crate::roots::fill_all;
use crate::tables::net_of;
use mrs_model::{Hcon, Mrs, NoMemory};
use mrs_text::numbers;
use scope_model::{Plugging, ScopeFault};
use std::alloc::Global;

fn is_qeq(hcon: &Hcon) -> bool
    ensures { IsTrue result ↔ IsQeq (hcon_of hcon.now) }
{
    hcon.rel.as_str() == "qeq"
}

// The place of the first constraint that isn't `qeq`.
fn first_other(hcons: &[Hcon]) -> Option<usize>
    ensures { MatchOption result (All IsQeq (map hcon_of hcons.now)) (λ k. IsOtherAt (map hcon_of hcons.now) k) }
{
    for k in 0..hcons.len() {
        if !is_qeq(&hcons[k]) {
            return Some(k);
        }
    }
    None
}

// Whether the labels are one more than the holes, as they are in each reading. Where they aren't, nothing is looked for.
fn has_room(net: &Net) -> bool
    requires { IsNet net.now }
    ensures { result ≡ false → (p : Plugged) → IsReading (frame_in net.now.parts) p → ⊥ }
{
    net.labels.len() == net.parts.openings.len() + 1
}

// The readings of a net in order, or none where there are more than `max`.
fn resolve_net(alloc: Global, net: &Net, max: u32) -> Result<Option<Vec<Plugging>>, NoMemory>
    requires { IsNet net.now }
    ensures { IfOk result (λ r. MatchOption r (AreMore (frame_in net.now.parts) max) (λ ps. AreReadings (frame_in net.now.parts) (map plugged_of ps.items) × (length ps.items ≤ max))) }
{
    let mut out = Vec::new(alloc);
    if !has_room(net) {
        return Ok(Some(out));
    }
    let done = fill_all(alloc, net, max, &mut out)?;
    out.sort()?;
    if !done {
        return Ok(None);
    }
    Ok(Some(out))
}

// The readings of an MRS in order, or none where there are more than `max`.
fn resolve(alloc: Global, mrs: &Mrs, max: u32) -> Result<Option<Vec<Plugging>>, NoMemory>
    requires { IsValid (meaning_of mrs.now) }
    ensures { IfOk result (λ r. MatchOption r (AreMore (frame (meaning_of mrs.now)) max) (λ ps. AreReadings (frame (meaning_of mrs.now)) (map plugged_of ps.items) × (length ps.items ≤ max))) }
{
    let numbers = numbers(alloc, mrs)?;
    let table: &[u32] = &numbers;
    let parts = parts_of(alloc, mrs, table)?;
    let found = net_of(alloc, parts)?;
    match found {
        Some(net) => {
            let readings = resolve_net(alloc, &net, max)?;
            Ok(readings)
        }
        None => Ok(Some(Vec::new(alloc))),
    }
}

// (a place past u32 has no room in the fault)
fn relation(place: usize) -> ScopeFault
    ensures { (m : Meaning) (max : ℕ) → IsFirstOther m place → IsScopeFault m max result }
{
    match u32::try_from(place) {
        Ok(place) => ScopeFault::Relation { place },
        Err(_) => ScopeFault::NoMemory,
    }
}

// The answer where each constraint is `qeq`.
fn resolved(alloc: Global, mrs: &Mrs, max: u32) -> Result<Vec<Plugging>, ScopeFault>
    requires valid { IsValid (meaning_of mrs.now) }
    requires qeqs { All IsQeq (meaning_of mrs.now).hcons }
    ensures ok { IfOk result (λ ps. AreAll (meaning_of mrs.now) max (map plugged_of ps.items)) }
    ensures fault { IfErr result (λ fault. IsScopeFault (meaning_of mrs.now) max fault) }
{
    match resolve(alloc, mrs, max) {
        Ok(Some(readings)) => Ok(readings),
        Ok(None) => Err(ScopeFault::ReadingLimit),
        Err(_) => Err(ScopeFault::NoMemory),
    }
}

/// All scoped readings of an MRS, each once, in order of their labels: the top hole's, then those of the holes in rising order.
/// `Relation` comes exactly where a constraint isn't `qeq`, otherwise `ReadingLimit` exactly where there are more than `max` readings.
pub fn scopes(alloc: Global, mrs: &Mrs, max: u32) -> Result<Vec<Plugging>, ScopeFault>
    requires { IsValid (meaning_of mrs.now) }
    ensures ok { IfOk result (λ ps. AreAll (meaning_of mrs.now) max (map plugged_of ps.items)) }
    ensures fault { IfErr result (λ fault. IsScopeFault (meaning_of mrs.now) max fault) }
{
    let hcons: &[Hcon] = &mrs.hcons;
    match first_other(hcons) {
        Some(place) => Err(relation(place)),
        None => resolved(alloc, mrs, max),
    }
}
