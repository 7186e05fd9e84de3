//! Which lexical rule may apply to what which gives.

ghost use Rattle.std.specs.Prelude.{◌≡◌, ◌<◌, length, IfOk, OnOk};
ghost use Rattle.lexical_items.specs.Seen.{ForbidsNone};
ghost use Rattle.lexical_items.specs.Inner.Feeding.{IsHarmless, ForbidsAtMost};

use crate::trees::rule_place;
use crate::{LexicalFulls, NoMemory};
use morph_analysis::Feeds;
use std::alloc::Global;

// Forbids a rule below another, unless it may apply.
fn note(feeds: &mut Feeds, inner: u32, outer: u32, yes: bool)
    requires inner { inner < feeds.old.rules }
    requires outer { outer < feeds.old.rules }
    ensures { ForbidsAtMost inner outer yes feeds.old feeds.new }
{
    if yes {
        return;
    }
    feeds.forbid_rule(inner, outer);
}

// Forbids the rules that never apply to what a rule gives.
fn forbid_after<F: LexicalFulls>(
    alloc: Global,
    fulls: &F,
    work: &mut F::Work,
    inner: u32,
    count: u32,
    feeds: &mut Feeds,
) -> Result<(), NoMemory>
    requires inner { inner < length (F.rules_of fulls.now) }
    requires count { count ≡ length (F.rules_of fulls.now) }
    requires harmless { IsHarmless (F.signs fulls.now) (F.rules_of fulls.now) feeds.old }
    ensures { OnOk result (IsHarmless (F.signs fulls.now) (F.rules_of fulls.now) feeds.new) }
{
    let place = rule_place(fulls, inner);
    for outer in 0..count {
        let next = rule_place(fulls, outer);
        let yes = fulls.may_follow(alloc, work, place, next)?;
        note(feeds, inner, outer, yes);
    }
    Ok(())
}

/// Which lexical rule may apply to what which gives; made once for a grammar. No chain is forbidden that has a full
/// structure. More rules than a `u32` can number count as want of memory.
pub fn feeds_of<F: LexicalFulls>(
    alloc: Global,
    fulls: &F,
    work: &mut F::Work,
) -> Result<Feeds, NoMemory>
    ensures { IfOk result (ForbidsNone (F.signs fulls.now) (F.entries_of fulls.now) (F.rules_of fulls.now)) }
{
    let Ok(count) = u32::try_from(fulls.rules().len()) else {
        return Err(NoMemory);
    };
    let mut feeds = Feeds::make(alloc, count, 0)?;
    for inner in 0..count {
        forbid_after(alloc, fulls, work, inner, count, &mut feeds)?;
    }
    Ok(feeds)
}
