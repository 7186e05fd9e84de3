//! The grammar of a workload.
ghost use Rattle.std.specs.Prelude.{◌≡◌, map, IfOk};
ghost use Rattle.self_tests.specs.Grammar.{grammar};
ghost use Rattle.self_tests.specs.Made.{file_of, files};

use crate::NoMemory;
use crate::workload::WorkFile;
use std::alloc::Global;

const GRAMMAR: &[u8] = b"\
    string := *top*.\n\
    list := *top*.\n\
    cons := list & [ FIRST *top*, REST list ].\n\
    null := list.\n\
    sign := *top* & [ STEM list, ARGS list ].\n\
    np := sign.\n\
    vp := sign.\n\
    pp := sign.\n\
    p := sign.\n\
    v := sign.\n\
    s := sign.\n\
    :begin :instance :status lex-entry.\n\
    n0 := np & [ STEM < \"n0\" > ].\n\
    n1 := np & [ STEM < \"n1\" > ].\n\
    n2 := np & [ STEM < \"n2\" > ].\n\
    n3 := np & [ STEM < \"n3\" > ].\n\
    n4 := np & [ STEM < \"n4\" > ].\n\
    n5 := np & [ STEM < \"n5\" > ].\n\
    n6 := np & [ STEM < \"n6\" > ].\n\
    n7 := np & [ STEM < \"n7\" > ].\n\
    n8 := np & [ STEM < \"n8\" > ].\n\
    n9 := np & [ STEM < \"n9\" > ].\n\
    v0 := v & [ STEM < \"v0\" > ].\n\
    v1 := v & [ STEM < \"v1\" > ].\n\
    v2 := v & [ STEM < \"v2\" > ].\n\
    v3 := v & [ STEM < \"v3\" > ].\n\
    v4 := v & [ STEM < \"v4\" > ].\n\
    p0 := p & [ STEM < \"p0\" > ].\n\
    p1 := p & [ STEM < \"p1\" > ].\n\
    p2 := p & [ STEM < \"p2\" > ].\n\
    p3 := p & [ STEM < \"p3\" > ].\n\
    p4 := p & [ STEM < \"p4\" > ].\n\
    :end :instance.\n\
    :begin :instance :status rule.\n\
    s_r := s & [ ARGS < np, vp > ].\n\
    vp_r := vp & [ ARGS < v, np > ].\n\
    vp_m := vp & [ ARGS < vp, pp > ].\n\
    np_m := np & [ ARGS < np, pp > ].\n\
    pp_r := pp & [ ARGS < p, np > ].\n\
    :end :instance.\n\
    :begin :instance :status root.\n\
    root := s.\n\
    :end :instance.\n\
";

// The bytes of the grammar.
fn text(alloc: Global) -> Result<Vec<u8>, NoMemory>
    ensures { IfOk result (λ text. text.items ≡ grammar) }
{
    let text = Vec::from_slice(alloc, GRAMMAR)?;
    Ok(text)
}

/// The files of a workload: the one grammar.
pub(crate) fn files(alloc: Global) -> Result<Vec<WorkFile>, NoMemory>
    ensures { IfOk result (λ made. map file_of made.items ≡ files) }
{
    let name = String::from_str(alloc, "g.tdl")?;
    let text = text(alloc)?;
    let mut files = Vec::with_capacity(alloc, 1)?;
    files.push(WorkFile { name, text })?;
    Ok(files)
}
