//! What the settings of a grammar say of MRSs, by the types and features that it has.

ghost use Rattle.std.specs.Prelude.{◌≡◌, map, IfOk};
ghost use Rattle.type_hierarchy.specs.Decls.{texts};
ghost use Rattle.grammar_settings.specs.SettingsViews.{settings_of};
ghost use Rattle.mrs_places.specs.Paths.{feature_of, paths_of};
ghost use Rattle.mrs_places.specs.Settled.{c_cont_said, paths_said};

use crate::names::{copies, feat, feats_of, sorts_of, type_of};
use crate::{MrsFeat, MrsPaths, NoMemory};
use grammar_settings::Settings;
use std::alloc::Global;
use type_hierarchy::Types;

/// Where the MRS of a structure stands, by a grammar's settings: each feature with its name, and with its number where the grammar has
/// it; likewise types. `feats` has the names of the grammar's features by number. More of them than a `u32` can number count as want
/// of memory.
pub fn mrs_paths(
    alloc: Global,
    settings: &Settings,
    types: &Types,
    feats: &[String],
) -> Result<MrsPaths, NoMemory>
    ensures { IfOk result (λ p. paths_of p ≡ paths_said types.now (texts feats.now) (settings_of settings.now)) }
{
    if feats.len() > u32::MAX as usize {
        return Err(NoMemory);
    }
    Ok(MrsPaths {
        mrs_path: feats_of(alloc, feats, &settings.mrs_path)?,
        ltop_path: feats_of(alloc, feats, &settings.ltop_path)?,
        index_path: feats_of(alloc, feats, &settings.index_path)?,
        string_type: settings.string_type.clone()?,
        cons: type_of(types, &settings.cons_type),
        null: type_of(types, &settings.null_type),
        first: feat(feats, &settings.first)?,
        rest: feat(feats, &settings.rest)?,
        diff_list: feat(feats, &settings.diff_list)?,
        diff_last: feat(feats, &settings.diff_last)?,
        rels: feat(feats, &settings.rels)?,
        hcons: feat(feats, &settings.hcons)?,
        pred: feat(feats, &settings.pred)?,
        lbl: feat(feats, &settings.lbl)?,
        harg: feat(feats, &settings.harg)?,
        larg: feat(feats, &settings.larg)?,
        icons: feat(feats, &settings.icons)?,
        iarg1: feat(feats, &settings.iarg1)?,
        iarg2: feat(feats, &settings.iarg2)?,
        cfrom: feat(feats, &settings.cfrom)?,
        cto: feat(feats, &settings.cto)?,
        skip_roles: feats_of(alloc, feats, &settings.skip_roles)?,
        skip_properties: feats_of(alloc, feats, &settings.skip_properties)?,
        sorts: sorts_of(alloc, types, &settings.sort)?,
        feats: copies(alloc, feats)?,
    })
}

/// Where the relations that a rule contributes itself stand in its structure, by a grammar's settings: each feature of the path with its
/// name, and with its number where the grammar has it. `feats` has the names of the grammar's features by number. More of them than a
/// `u32` can number count as want of memory.
pub fn c_cont_path(
    alloc: Global,
    settings: &Settings,
    feats: &[String],
) -> Result<Vec<MrsFeat>, NoMemory>
    ensures { IfOk result (λ path. map feature_of path.items ≡ c_cont_said (texts feats.now) (settings_of settings.now)) }
{
    if feats.len() > u32::MAX as usize {
        return Err(NoMemory);
    }
    feats_of(alloc, feats, &settings.c_cont_path)
}
