//! The elements of an MRS in one list.

ghost use Rattle.std.specs.Prelude.{◌≡◌, ◌++◌, map, IfOk, OnOk};
ghost use Rattle.std.specs.List.Sorted.{IsPermutation};
ghost use Rattle.mrs_model.specs.Views.{meaning_of};
ghost use Rattle.mrs_model.specs.Inner.Elements.{elements};
ghost use Rattle.mrs_model.specs.Inner.Items.{of_item, of_ep, of_hcon, of_icon};
ghost use Rattle.mrs_model.specs.Inner.State.{element_of, elements_of};

use crate::items::Item;
use crate::keyed::Keyed;
use crate::keys::key_of;
use crate::{Ep, Hcon, Icon, Mrs, NoMemory};
use std::alloc::Global;

fn keyed(item: Item<'_>) -> Keyed<'_>
    ensures { element_of result ≡ of_item item.entry }
{
    let key = key_of(item);
    Keyed {
        key,
        count: 1,
        item,
    }
}

fn push_eps<'a>(eps: &'a [Ep], into: &mut Vec<Keyed<'a>>) -> Result<(), NoMemory>
    ensures { OnOk result (elements_of into.new.items ≡ elements_of into.old.items ++ map of_ep eps.now) }
{
    for ep in eps {
        into.push(keyed(Item::Ep(ep)))?;
    }
    Ok(())
}

fn push_hcons<'a>(hcons: &'a [Hcon], into: &mut Vec<Keyed<'a>>) -> Result<(), NoMemory>
    ensures { OnOk result (elements_of into.new.items ≡ elements_of into.old.items ++ map of_hcon hcons.now) }
{
    for hcon in hcons {
        into.push(keyed(Item::Hcon(hcon)))?;
    }
    Ok(())
}

fn push_icons<'a>(icons: &'a [Icon], into: &mut Vec<Keyed<'a>>) -> Result<(), NoMemory>
    ensures { OnOk result (elements_of into.new.items ≡ elements_of into.old.items ++ map of_icon icons.now) }
{
    for icon in icons {
        into.push(keyed(Item::Icon(icon)))?;
    }
    Ok(())
}

/// The elements of an MRS: its elementary predications, its handle constraints and its individual constraints.
pub(crate) fn elements_of<'a>(alloc: Global, mrs: &'a Mrs) -> Result<Vec<Keyed<'a>>, NoMemory>
    ensures { IfOk result (λ v. elements_of v.items ≡ elements (meaning_of mrs.now)) }
{
    let mut into = Vec::new(alloc);
    push_eps(&mrs.eps, &mut into)?;
    push_hcons(&mrs.hcons, &mut into)?;
    push_icons(&mrs.icons, &mut into)?;
    Ok(into)
}

// How many elements have a key; any number is right, since it only decides in which order elements are taken.
fn count_of(items: &[Keyed<'_>], key: u64) -> usize {
    let mut count = 0usize;
    for item in items {
        if item.key == key {
            count = count.saturating_add(1);
        }
    }
    count
}

fn counted<'a>(alloc: Global, items: &[Keyed<'a>]) -> Result<Vec<Keyed<'a>>, NoMemory>
    ensures { IfOk result (λ v. elements_of v.items ≡ elements_of items.now) }
{
    let mut out = Vec::with_capacity(alloc, items.len())?;
    for item in items {
        let count = count_of(items, item.key);
        out.push(Keyed {
            key: item.key,
            count,
            item: item.item,
        })?;
    }
    Ok(out)
}

/// The elements with the rarest keys first: they leave the least choice, and bind the variables of the others.
pub(crate) fn rarest_first<'a>(
    alloc: Global,
    items: &[Keyed<'a>],
) -> Result<Vec<Keyed<'a>>, NoMemory>
    ensures { IfOk result (λ v. IsPermutation (elements_of items.now) (elements_of v.items)) }
{
    let mut out = counted(alloc, items)?;
    out.sort_unstable_by_key(|k| k.count);
    Ok(out)
}
