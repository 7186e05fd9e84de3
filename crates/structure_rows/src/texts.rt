//! Structures as texts: the lines of their paths, with strokes between.

use crate::names::name_of;
use fs_graph::{Feat, Graph, PathLine};
use std::alloc::{AllocError, Global};
use type_hierarchy::{Ty, Types};

// The text of a structure. A line is `PATH TYPE`, or `PATH = FIRSTPATH` where the path leads to a node that has an earlier
// one; a string stands between quotes.
pub fn shown(alloc: Global, types: &Types, graph: &Graph) -> Result<String, AllocError> {
    let mut out = String::new(alloc);
    let Ok(list) = graph.paths(alloc) else {
        return Ok(out);
    };
    for (place, line) in list.lines.iter().enumerate() {
        if place > 0 {
            out.push_str(" / ")?;
        }
        push_line(&mut out, types, line)?;
    }
    Ok(out)
}

fn push_line(out: &mut String, types: &Types, line: &PathLine) -> Result<(), AllocError> {
    push_path(out, &line.path)?;
    match &line.same_as {
        Some(path) => {
            out.push_str(" = ")?;
            push_path(out, path)
        }
        None => push_type(out, types, line.ty),
    }
}

fn push_path(out: &mut String, path: &[Feat]) -> Result<(), AllocError> {
    if path.is_empty() {
        return out.push('.');
    }
    for feat in path {
        out.push('.')?;
        out.push_str(name_of(*feat))?;
    }
    Ok(())
}

// A blank and the name of a type, `?` where it has none.
pub fn push_type(out: &mut String, types: &Types, ty: Ty) -> Result<(), AllocError> {
    let counts = types.counts();
    if ty.0 >= counts.all {
        return out.push_str(" ?");
    }
    let quote = if ty.0 < counts.completed { "" } else { "\"" };
    out.push(' ')?;
    out.push_str(quote)?;
    out.push_str(types.name(ty))?;
    out.push_str(quote)
}
