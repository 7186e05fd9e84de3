//! Stems under the rules that they have.

ghost use Rattle.std.specs.Prelude.{◌≡◌, ◌++◌, map, OnOk, string_bytes};
ghost use Rattle.spelling_rules.specs.Inner.Keeping.{stem_under};
ghost use Rattle.spelling_rules.specs.Views.{stems_in};

use crate::rules::Stem;
use lexicon::NoMemory;

/// Adds stems, each with the number of the rule that has them.
pub(crate) fn add_under(out: &mut Vec<Stem>, rule: u32, stems: &[String]) -> Result<(), NoMemory>
    ensures { OnOk result (stems_in out.new ≡ stems_in out.old ++ map (stem_under rule) (map string_bytes stems.now)) }
{
    for stem in stems {
        out.push(Stem {
            rule,
            stem: stem.clone()?,
        })?;
    }
    Ok(())
}
