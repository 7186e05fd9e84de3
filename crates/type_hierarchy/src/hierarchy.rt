//! Written types and their order.

ghost use Rattle.std.specs.Prelude.{◌≡◌, ◌≢◌, ℕ, ◌<◌, length, IsTrue, IfOk, IfErr, OnOk, All, false, slice_index_or, []};
ghost use Rattle.type_hierarchy.specs.Bits.{has_bit, IsRow};
ghost use Rattle.type_hierarchy.specs.Decls.{decls_of};
ghost use Rattle.type_hierarchy.specs.Faults.{IsFaultOf, IsFaultless, is_glb_name};
ghost use Rattle.type_hierarchy.specs.Table.{TypeTable, IsHierarchyOf, set_of, has_member};
ghost use Rattle.type_hierarchy.specs.Inner.Tables.{row_items};
ghost use Rattle.type_hierarchy.specs.Laws.{IsHierarchy};

use crate::columns::transpose;
use crate::decl::{Decl, TypeFault};
use crate::faults::{first_cycle, first_reserved};
use crate::rows::rows_of;
use crate::{bits, names, parents};
use std::alloc::{AllocError, Global};
use std::marker::Model;

/// At most so many types are written.
pub const MOST_TYPES: usize = 16_384;

/// Written types by number, with the top type first, then the string type where it isn't written, and
/// then the written ones in their order. Each stands for the set of the types at or below it (Copestake 2002).
#[derive(Drop)]
pub struct Hierarchy {
    pub(crate) names: Vec<String>,
    pub(crate) rows: Vec<Vec<u64>>,
    pub(crate) string_type: u32,
}

impl Model for Hierarchy {
    ghost use Rattle.type_hierarchy.specs.Table.{TypeTable};

    ghost Value = { TypeTable };

    ghost use Rattle.type_hierarchy.specs.Inner.Tables.{hierarchy_table, IsHierarchyInside};

    ghost view = { λ h. hierarchy_table h.names.items h.rows.items h.string_type };

    ghost invariant = { λ h. IsHierarchyInside h.names.items h.rows.items h.string_type };
}

impl Hierarchy {
    /// Numbers the declared types and orders them. `top` and `text` name the top type and the string type.
    ///
    /// A type without parents stands below the top type, and so does the string type where it isn't
    /// declared. Faults are looked for in the order of `TypeFault`, and within a cause in the order of writing.
    pub fn build(
        alloc: Global,
        decls: &[Decl],
        top: &str,
        text: &str,
    ) -> Result<Hierarchy, TypeFault>
        requires apart { top.now ≢ text.now }
        requires top_unreserved { is_glb_name top.now ≡ false }
        requires text_unreserved { is_glb_name text.now ≡ false }
        ensures hierarchy { IfOk result (IsHierarchyOf top.now text.now (decls_of decls.now)) }
        ensures faultless { OnOk result (IsFaultless top.now text.now (decls_of decls.now)) }
        ensures fault { IfErr result (IsFaultOf top.now text.now (decls_of decls.now)) }
    {
        let names = names::numbered(alloc, decls, top, text)?;
        let parents = parents::parents_of(alloc, &names, decls, top, text)?;
        let undeclared = names.len() - decls.len();
        if let Some(t) = first_cycle(alloc, &parents, undeclared)? {
            return Err(TypeFault::Cycle {
                name: decls[t - undeclared].name.clone()?,
            });
        }
        if let Some(i) = first_reserved(decls, top) {
            return Err(TypeFault::Reserved {
                name: decls[i].name.clone()?,
            });
        }
        if decls.len() > MOST_TYPES {
            return Err(TypeFault::TooMany {
                count: decls.len().min(u32::MAX as usize) as u32,
            });
        }
        let rows = rows_of(alloc, &parents)?;
        let string_type = parents::number_of(&names, text) as u32;
        Ok(Hierarchy {
            names: names::list_of(alloc, names)?,
            rows,
            string_type,
        })
    }

    /// How many types there are.
    pub fn count(&self) -> u32
        ensures count { result ≡ self.now.written }
        ensures laws { IsHierarchy self.now }
    {
        self.rows.len() as u32
    }

    /// Whether type `a` is at or below type `b`.
    pub fn below(&self, a: u32, b: u32) -> bool
        requires a_in { a < self.now.written }
        requires b_in { b < self.now.written }
        ensures { result ≡ has_member (set_of self.now b) a }
    {
        bits::has(&self.rows[b as usize], a)
    }

    /// The types at or below type `t`, as words of bits.
    pub fn row(&self, t: u32) -> &[u64]
        requires { t < self.now.written }
        ensures row { IsRow self.now.written result.now }
        ensures members { (x : ℕ) → x < self.now.written → has_bit result.now x ≡ has_member (set_of self.now t) x }
    {
        &self.rows[t as usize]
    }

    /// By number, the types at or above each one, as words of bits.
    pub fn rows_above(&self, alloc: Global) -> Result<Vec<Vec<u64>>, AllocError>
        ensures rows { IfOk result (λ rows. All (λ row. IsRow self.now.written row.items) rows.items) }
        ensures size { IfOk result (λ rows. length rows.items ≡ self.now.written) }
        ensures members { IfOk result (λ rows. (t : ℕ) → t < self.now.written → (u : ℕ) → u < self.now.written → has_bit (row_items rows.items t) u ≡ has_member (set_of self.now u) t) }
    {
        let rows = transpose(alloc, &self.rows, self.count())?;
        Ok(rows)
    }
}
