//! The settings that the entries of a settings file make.

ghost use Rattle.std.specs.Prelude.{◌≡◌, ◌≤◌, List, [], map, IfOk, Option, option_map, string_bytes, codes};
ghost use Rattle.grammar_settings.specs.Forms.{name_of, path_of, most_paths};
ghost use Rattle.grammar_settings.specs.Kept.{words_in, entries_in, words_at};
ghost use Rattle.grammar_settings.specs.SettingsFiles.{entries_of};
ghost use Rattle.grammar_settings.specs.Settled.{given, word_or, path_or, words_or, limit_or, paths_of, file_of, sorts_of, sort_in, default_sorts, settings_by};
ghost use Rattle.grammar_settings.specs.SettingsViews.{settings_of, names_in, sort_of};
ghost use Rattle.grammar_settings.specs.Groups.{AreTypeNames, AreListFeatures, AreGrammarPaths, AreMrsPaths, AreRelationFeatures, AreSkips};

use crate::NoMemory;
use crate::forms::{MOST_FEATURES, MOST_PATHS, limit_in, name_of, path_of, spelled};
use crate::lines::Entry;
use crate::settings::{Settings, SortLine};
use std::alloc::Global;

#[derive(Drop)]
struct TypeNames {
    top_type: String,
    string_type: String,
    list_type: String,
    cons_type: String,
    null_type: String,
}

#[derive(Drop)]
struct ListFeatures {
    first: String,
    rest: String,
    diff_list: String,
    diff_last: String,
}

#[derive(Drop)]
struct GrammarPaths {
    orth_path: Vec<String>,
    args_path: Vec<String>,
    daughter_features: Vec<String>,
    restrictors: Vec<String>,
    path_limit: u32,
    node_limit: u32,
    check_paths: Vec<Vec<String>>,
    irregular_file: Option<String>,
}

#[derive(Drop)]
struct MrsPaths {
    mrs_path: Vec<String>,
    c_cont_path: Vec<String>,
    ltop_path: Vec<String>,
    index_path: Vec<String>,
    rels: String,
    hcons: String,
}

#[derive(Drop)]
struct RelationFeatures {
    pred: String,
    lbl: String,
    harg: String,
    larg: String,
    icons: String,
    iarg1: String,
    iarg2: String,
    cfrom: String,
    cto: String,
}

#[derive(Drop)]
struct Skips {
    skip_roles: Vec<String>,
    skip_properties: Vec<String>,
    sort: Vec<SortLine>,
    transfer_skip: Vec<String>,
}

// The values of a name's last line.
fn given<'a>(entries: &'a [Entry], name: &str) -> Option<&'a [Vec<char>]>
    ensures { option_map words_at result ≡ given name.now (entries_in entries.now) }
{
    let mut last = None;
    for entry in entries {
        if entry.name.as_str() == name {
            last = Some(entry.values.as_slice());
        }
    }
    last
}

// The value of a name that has one, or its default.
fn word_or(alloc: Global, entries: &[Entry], name: &str, default: &str) -> Result<String, NoMemory>
    ensures { IfOk result (λ s. string_bytes s ≡ word_or default.now (given name.now (entries_in entries.now))) }
{
    match given(entries, name) {
        Some([value, ..]) => Ok(name_of(alloc, value)?),
        _ => Ok(String::from_str(alloc, default)?),
    }
}

// These names as they are.
fn defaults(alloc: Global, names: &[&str]) -> Result<Vec<String>, NoMemory>
    ensures { IfOk result (λ v. names_in v ≡ map (λ n. n.now) names.now) }
{
    let mut out = Vec::new(alloc);
    for name in names {
        out.push(String::from_str(alloc, name)?)?;
    }
    Ok(out)
}

// The path of a name that has one, or its default.
fn path_or(
    alloc: Global,
    entries: &[Entry],
    name: &str,
    default: &[&str],
) -> Result<Vec<String>, NoMemory>
    ensures { IfOk result (λ v. names_in v ≡ path_or (map (λ n. n.now) default.now) (given name.now (entries_in entries.now))) }
{
    match given(entries, name) {
        Some([value, ..]) => Ok(path_of(alloc, value)?),
        _ => defaults(alloc, default),
    }
}

// The features of a name, or its default.
fn words_or(
    alloc: Global,
    entries: &[Entry],
    name: &str,
    default: &[&str],
) -> Result<Vec<String>, NoMemory>
    ensures { IfOk result (λ v. names_in v ≡ words_or (map (λ n. n.now) default.now) (given name.now (entries_in entries.now))) }
{
    match given(entries, name) {
        Some(values) => names(alloc, values),
        None => defaults(alloc, default),
    }
}

// These words, each in ASCII lower case.
fn names(alloc: Global, words: &[Vec<char>]) -> Result<Vec<String>, NoMemory>
    ensures { IfOk result (λ v. names_in v ≡ map name_of (words_in words.now)) }
{
    let mut out = Vec::new(alloc);
    for word in words {
        out.push(name_of(alloc, word)?)?;
    }
    Ok(out)
}

// The limit of a name that has one, or its default.
fn limit_or(entries: &[Entry], name: &str, most: u32, default: u32) -> u32
    requires { most ≤ most_paths }
    ensures { result ≡ limit_or most default (given name.now (entries_in entries.now)) }
{
    match given(entries, name) {
        Some([value, ..]) => limit_in(value, most).unwrap_or(default),
        _ => default,
    }
}

// The paths of a name.
fn paths_of(alloc: Global, entries: &[Entry], name: &str) -> Result<Vec<Vec<String>>, NoMemory>
    ensures { IfOk result (λ v. map names_in v.items ≡ paths_of (given name.now (entries_in entries.now))) }
{
    match given(entries, name) {
        Some(values) => paths(alloc, values),
        None => Ok(Vec::new(alloc)),
    }
}

// The paths that these words write.
fn paths(alloc: Global, words: &[Vec<char>]) -> Result<Vec<Vec<String>>, NoMemory>
    ensures { IfOk result (λ v. map names_in v.items ≡ map path_of (words_in words.now)) }
{
    let mut out = Vec::new(alloc);
    for word in words {
        out.push(path_of(alloc, word)?)?;
    }
    Ok(out)
}

// The file of a name that has one.
fn file_of(alloc: Global, entries: &[Entry], name: &str) -> Result<Option<String>, NoMemory>
    ensures { IfOk result (λ o. option_map string_bytes o ≡ file_of (given name.now (entries_in entries.now))) }
{
    match given(entries, name) {
        Some([value, ..]) => Ok(Some(spelled(alloc, value)?)),
        _ => Ok(None),
    }
}

// A sort by its type and letters.
fn sort_line(alloc: Global, ty: &str, letters: &str) -> Result<SortLine, NoMemory>
    ensures { IfOk result (λ s. sort_of s ≡ record { ty = ty.now; letters = letters.now }) }
{
    let ty = String::from_str(alloc, ty)?;
    let letters = String::from_str(alloc, letters)?;
    Ok(SortLine { ty, letters })
}

// The sorts where no line gives any.
fn default_sorts(alloc: Global) -> Result<Vec<SortLine>, NoMemory>
    ensures { IfOk result (λ v. map sort_of v.items ≡ default_sorts) }
{
    let mut out = Vec::new(alloc);
    out.push(sort_line(alloc, "handle", "h")?)?;
    out.push(sort_line(alloc, "event", "e")?)?;
    out.push(sort_line(alloc, "ref-ind", "x")?)?;
    out.push(sort_line(alloc, "individual", "i")?)?;
    Ok(out)
}

// The sort that a line gives.
fn sort_in(alloc: Global, values: &[Vec<char>]) -> Result<SortLine, NoMemory>
    ensures { IfOk result (λ s. sort_of s ≡ sort_in (words_in values.now)) }
{
    match values {
        [ty, letters, ..] => {
            let ty = name_of(alloc, ty)?;
            let letters = spelled(alloc, letters)?;
            Ok(SortLine { ty, letters })
        }
        _ => sort_line(alloc, "", ""),
    }
}

// The sorts of the lines that give any.
fn written_sorts(alloc: Global, entries: &[Entry]) -> Result<Vec<SortLine>, NoMemory>
    ensures { IfOk result (λ v. map sort_of v.items ≡ map (λ e. sort_in e.values) (entries_of (codes "sort") (entries_in entries.now))) }
{
    let mut out = Vec::new(alloc);
    for entry in entries {
        if entry.name.as_str() == "sort" {
            out.push(sort_in(alloc, &entry.values)?)?;
        }
    }
    Ok(out)
}

// The sorts of the lines, or the default ones where no line gives any.
fn sorts_of(alloc: Global, entries: &[Entry]) -> Result<Vec<SortLine>, NoMemory>
    ensures { IfOk result (λ v. map sort_of v.items ≡ sorts_of (entries_of (codes "sort") (entries_in entries.now))) }
{
    let sorts = written_sorts(alloc, entries)?;
    if sorts.is_empty() {
        return default_sorts(alloc);
    }
    Ok(sorts)
}

fn type_names(alloc: Global, entries: &[Entry]) -> Result<TypeNames, NoMemory>
    ensures { IfOk result (AreTypeNames (entries_in entries.now)) }
{
    let top_type = word_or(alloc, entries, "top-type", "*top*")?;
    let string_type = word_or(alloc, entries, "string-type", "string")?;
    let list_type = word_or(alloc, entries, "list-type", "list")?;
    let cons_type = word_or(alloc, entries, "cons-type", "cons")?;
    let null_type = word_or(alloc, entries, "null-type", "null")?;
    Ok(TypeNames {
        top_type,
        string_type,
        list_type,
        cons_type,
        null_type,
    })
}

fn list_features(alloc: Global, entries: &[Entry]) -> Result<ListFeatures, NoMemory>
    ensures { IfOk result (AreListFeatures (entries_in entries.now)) }
{
    let first = word_or(alloc, entries, "first", "first")?;
    let rest = word_or(alloc, entries, "rest", "rest")?;
    let diff_list = word_or(alloc, entries, "diff-list", "list")?;
    let diff_last = word_or(alloc, entries, "diff-last", "last")?;
    Ok(ListFeatures {
        first,
        rest,
        diff_list,
        diff_last,
    })
}

fn grammar_paths(alloc: Global, entries: &[Entry]) -> Result<GrammarPaths, NoMemory>
    ensures { IfOk result (AreGrammarPaths (entries_in entries.now)) }
{
    let orth_path = path_or(alloc, entries, "orth-path", &["stem"])?;
    let args_path = path_or(alloc, entries, "args-path", &["args"])?;
    let daughter_features = words_or(alloc, entries, "daughter-features", &["args"])?;
    let restrictors = words_or(alloc, entries, "restrictors", &["cont", "c-cont", "stem"])?;
    let path_limit = limit_or(entries, "path-limit", MOST_FEATURES, 255);
    let node_limit = limit_or(entries, "node-limit", MOST_PATHS, 100_000);
    let check_paths = paths_of(alloc, entries, "check-paths")?;
    let irregular_file = file_of(alloc, entries, "irregular-file")?;
    Ok(GrammarPaths {
        orth_path,
        args_path,
        daughter_features,
        restrictors,
        path_limit,
        node_limit,
        check_paths,
        irregular_file,
    })
}

fn mrs_paths(alloc: Global, entries: &[Entry]) -> Result<MrsPaths, NoMemory>
    ensures { IfOk result (AreMrsPaths (entries_in entries.now)) }
{
    let mrs_path = path_or(alloc, entries, "mrs-path", &["synsem", "local", "cont"])?;
    let c_cont_path = path_or(alloc, entries, "c-cont-path", &["c-cont"])?;
    let ltop_path = path_or(alloc, entries, "ltop-path", &["hook", "ltop"])?;
    let index_path = path_or(alloc, entries, "index-path", &["hook", "index"])?;
    let rels = word_or(alloc, entries, "rels", "rels")?;
    let hcons = word_or(alloc, entries, "hcons", "hcons")?;
    Ok(MrsPaths {
        mrs_path,
        c_cont_path,
        ltop_path,
        index_path,
        rels,
        hcons,
    })
}

fn relation_features(alloc: Global, entries: &[Entry]) -> Result<RelationFeatures, NoMemory>
    ensures { IfOk result (AreRelationFeatures (entries_in entries.now)) }
{
    let pred = word_or(alloc, entries, "pred", "pred")?;
    let lbl = word_or(alloc, entries, "lbl", "lbl")?;
    let harg = word_or(alloc, entries, "harg", "harg")?;
    let larg = word_or(alloc, entries, "larg", "larg")?;
    let icons = word_or(alloc, entries, "icons", "icons")?;
    let iarg1 = word_or(alloc, entries, "iarg1", "iarg1")?;
    let iarg2 = word_or(alloc, entries, "iarg2", "iarg2")?;
    let cfrom = word_or(alloc, entries, "cfrom", "cfrom")?;
    let cto = word_or(alloc, entries, "cto", "cto")?;
    Ok(RelationFeatures {
        pred,
        lbl,
        harg,
        larg,
        icons,
        iarg1,
        iarg2,
        cfrom,
        cto,
    })
}

fn skipped_names(alloc: Global, entries: &[Entry]) -> Result<Skips, NoMemory>
    ensures { IfOk result (AreSkips (entries_in entries.now)) }
{
    let skip_roles = words_or(
        alloc,
        entries,
        "skip-roles",
        &["lnk", "wlink", "cfrom", "cto"],
    )?;
    let skip_properties = words_or(alloc, entries, "skip-properties", &["instloc"])?;
    let sort = sorts_of(alloc, entries)?;
    let transfer_skip = words_or(alloc, entries, "transfer-skip", &[])?;
    Ok(Skips {
        skip_roles,
        skip_properties,
        sort,
        transfer_skip,
    })
}

/// The settings that entries make: a name has the values of its last line, and its default where it has no line.
pub(crate) fn settings_by(alloc: Global, entries: &[Entry]) -> Result<Settings, NoMemory>
    ensures { IfOk result (λ s. settings_of s ≡ settings_by (entries_in entries.now)) }
{
    let types = type_names(alloc, entries)?;
    let lists = list_features(alloc, entries)?;
    let paths = grammar_paths(alloc, entries)?;
    let mrs = mrs_paths(alloc, entries)?;
    let relations = relation_features(alloc, entries)?;
    let skipped = skipped_names(alloc, entries)?;
    Ok(Settings {
        top_type: types.top_type,
        string_type: types.string_type,
        list_type: types.list_type,
        cons_type: types.cons_type,
        null_type: types.null_type,
        first: lists.first,
        rest: lists.rest,
        diff_list: lists.diff_list,
        diff_last: lists.diff_last,
        orth_path: paths.orth_path,
        args_path: paths.args_path,
        daughter_features: paths.daughter_features,
        restrictors: paths.restrictors,
        path_limit: paths.path_limit,
        node_limit: paths.node_limit,
        check_paths: paths.check_paths,
        irregular_file: paths.irregular_file,
        mrs_path: mrs.mrs_path,
        c_cont_path: mrs.c_cont_path,
        ltop_path: mrs.ltop_path,
        index_path: mrs.index_path,
        rels: mrs.rels,
        hcons: mrs.hcons,
        pred: relations.pred,
        lbl: relations.lbl,
        harg: relations.harg,
        larg: relations.larg,
        icons: relations.icons,
        iarg1: relations.iarg1,
        iarg2: relations.iarg2,
        cfrom: relations.cfrom,
        cto: relations.cto,
        skip_roles: skipped.skip_roles,
        skip_properties: skipped.skip_properties,
        sort: skipped.sort,
        transfer_skip: skipped.transfer_skip,
    })
}
