//! A system of homogeneous equations over columns with signs and caps.

ghost use Rattle.std.specs.Prelude.{◌≡◌, ◌↔◌, ◌+◌, ◌+ℤ◌, ◌-◌, ◌*◌, ◌/◌, ◌%◌, ◌<◌, ◌≤◌, [], None, ℤ, pos, length, take, drop, IsTrue, IfOk, slice_index_or, All};
ghost use Rattle.std.specs.List.{AllZip, AllByRecursion};
ghost use Rattle.int_vector.specs.Vectors.{norm, dot, largest};
ghost use Rattle.int_vector.specs.Operations.{add};
ghost use Rattle.lift_core.specs.ToolSystems.{width, IsSign, AreCaps, IsToolSystem, HasRoomForX0, built_system};
ghost use Rattle.lift_core.specs.Systems.{row, ObeysSigns, ObeysCaps};
ghost use Rattle.lift_core.specs.Columns.{HasSign, IsCapped};
ghost use Rattle.int_vector.specs.Range.{InRange};
ghost use Rattle.lift_core.specs.Inside.Capped.{capped_from};
ghost use Rattle.lift_core.specs.Inside.Written.{x0_of};

use crate::Tool;
use crate::capped::CappedColumns;
use int_vector::dot;
use std::alloc::{AllocError, Global};
use std::marker::Model;

/// A system of homogeneous equations over the n columns of the user's, then the slack columns, then, for `zsolve`
/// alone, the column that stands for the right sides.
///
/// It has 1 to 64 columns of the user's, at most 129 columns, at most 64 equations, entries from -(2^63-1) to 2^63-1,
/// and for each column a sign: 1 (at least 0), -1 (at most 0) or 2 (free), as in a sign file of 4ti2. A column of the
/// user's may have a cap, which bounds the absolute value; a slack has none, and the last column of `zsolve` has sign 1
/// and cap 1. The rows lie one after another in one region.
#[derive(Drop)]
pub struct System {
    tool: Tool,
    n: u32,
    count: u32,
    cells: Vec<i64>,
    signs: Vec<i8>,
    caps: Vec<Option<u64>>,
    capped: CappedColumns,
}

impl Model for System {
    ghost use Rattle.std.specs.Prelude.{◌≡◌, ◌*◌, length};
    ghost use Rattle.lift_core.specs.Systems.{ToolSystem};
    ghost use Rattle.lift_core.specs.ToolSystems.{IsToolSystem, built_system};
    ghost use Rattle.lift_core.specs.Inside.Capped.{capped_from};

    ghost Value = { ToolSystem };

    ghost view = { λ s. built_system s.tool s.n s.signs.items s.caps.items s.count s.cells.items };

    ghost invariant = { λ s. IsToolSystem
        (built_system s.tool s.n s.signs.items s.caps.items s.count s.cells.items)
        × (length s.cells.items ≡ s.count * length s.signs.items)
        × (s.capped ≡ capped_from 0 s.caps.items) };
}

impl System {
    /// The tool that the system is for.
    pub fn tool(&self) -> Tool
        ensures { result ≡ self.now.tool }
    {
        self.tool
    }

    /// The number of the user's columns.
    pub fn n(&self) -> u32
        ensures n { result ≡ self.now.n }
        ensures some { 1 ≤ result }
        ensures most { result ≤ 64 }
    {
        self.n
    }

    /// The number of all columns.
    pub fn width(&self) -> u32
        ensures width { result ≡ width self.now.equations }
        ensures columns { self.now.n ≤ result }
        ensures some { 1 ≤ result }
        ensures most { result ≤ 129 }
    {
        self.signs.len() as u32
    }

    /// The number of equations.
    #[tactic(auto, using(crate::proofs::Cells::row_laws))]
    pub fn count(&self) -> u32
        ensures count { result ≡ length self.now.equations.rows }
        ensures most { result ≤ 64 }
    {
        self.count
    }

    /// What is true of each system, for the proofs of callers: the limits, the widths of the rows, the range of the
    /// entries, the signs and the caps.
    pub fn keeps(&self)
        ensures { IsToolSystem self.now }
    {
        let _ = &self.tool;
    }

    /// The sign of column j, numbered from 1: 1 for at least 0, -1 for at most 0, 2 for any number.
    pub fn sign(&self, j: u32) -> i8
        requires { (1 ≤ j) × (j ≤ width self.now.equations) }
        ensures sign { result ≡ slice_index_or self.now.equations.signs (j - 1) (pos 0) }
        ensures known { IsSign result }
    {
        self.signs[j as usize - 1]
    }

    /// The greatest absolute value in column j, numbered from 1, where it has one.
    pub fn cap(&self, j: u32) -> Option<u64>
        requires { (1 ≤ j) × (j ≤ width self.now.equations) }
        ensures { result ≡ slice_index_or self.now.equations.caps (j - 1) None }
    {
        self.caps[j as usize - 1]
    }

    /// Row k, numbered from 1, with an entry for each column.
    pub fn row(&self, k: u32) -> &[i64]
        requires { (1 ≤ k) × (k ≤ length self.now.equations.rows) }
        ensures row { result.now ≡ row self.now.equations k }
        ensures width { length result.now ≡ width self.now.equations }
        ensures range { All InRange result.now }
    {
        self.row_at(k as usize - 1)
    }

    // The row at a place, numbered from 0.
    #[tactic(auto, using(crate::proofs::Cells::row_laws))]
    fn row_at(&self, place: usize) -> &[i64]
        requires { place < length self.now.equations.rows }
        ensures row { result.now ≡ slice_index_or self.now.equations.rows place [] }
        ensures width { length result.now ≡ width self.now.equations }
        ensures range { All InRange result.now }
    {
        let width = self.signs.len();
        let start = place * width;
        &self.cells[start..start + width]
    }

    /// Whether v obeys the signs and the caps.
    pub fn obeys(&self, v: &[i64]) -> bool
        requires { length v.now ≡ width self.now.equations }
        ensures { IsTrue result
            ↔ (ObeysSigns self.now.equations v.now × ObeysCaps self.now.equations v.now) }
    {
        has_signs(&self.signs, v) && self.obeys_caps(v)
    }

    /// Whether v obeys the caps.
    pub fn obeys_caps(&self, v: &[i64]) -> bool
        requires { length v.now ≡ width self.now.equations }
        ensures { IsTrue result ↔ ObeysCaps self.now.equations v.now }
    {
        has_caps(&self.caps, v)
    }

    /// Whether the sum of two vectors obeys the caps.
    ///
    /// It takes no sum of vectors, and looks at the columns that have a cap alone.
    pub fn sum_obeys_caps(&self, u: &[i64], v: &[i64]) -> bool
        requires first { length u.now ≡ width self.now.equations }
        requires second { length v.now ≡ width self.now.equations }
        ensures { IsTrue result ↔ ObeysCaps self.now.equations (add u.now v.now) }
    {
        sum_has_caps(self.capped.places(), &self.caps, u, v)
    }

    /// Whether each of the rows 1 to k times v is 0. It does not ask for signs and caps.
    pub fn solves(&self, k: u32, v: &[i64]) -> bool
        requires rows { k ≤ length self.now.equations.rows }
        requires width { length v.now ≡ width self.now.equations }
        requires norm { norm v.now ≤ largest }
        ensures { IsTrue result
            ↔ AllByRecursion (λ r. dot r v.now ≡ pos 0) (take k self.now.equations.rows) }
    {
        for i in 0..k {
            if dot(self.row(i + 1), v) != Some(0) {
                return false;
            }
        }
        true
    }

    /// The entry of v in the column that stands for the right sides; 0 where the tool has no such column.
    #[tactic(auto, using(crate::proofs::Stages::row_parts))]
    pub fn home(&self, v: &[i64]) -> i64
        requires { length v.now ≡ width self.now.equations }
        ensures { result ≡ x0_of self.now.tool v.now }
    {
        match self.tool {
            Tool::Zsolve => v[self.signs.len() - 1],
            _ => 0,
        }
    }

    /// The entries of v in the user's columns.
    pub fn written<'a>(&self, v: &'a [i64]) -> &'a [i64]
        requires { length v.now ≡ width self.now.equations }
        ensures { result.now ≡ take self.now.n v.now }
    {
        &v[..self.n as usize]
    }

    /// The system with these equations, whose coefficients stand in `rows` one equation after another, and with a sign
    /// and a cap, or none, for each column. It takes the vectors over, and no memory.
    pub fn build(
        tool: Tool,
        n: u32,
        width: u32,
        rows: Vec<i64>,
        signs: Vec<i8>,
        caps: Vec<Option<u64>>,
    ) -> System
        requires columns { (1 ≤ n) × (n ≤ 64) × (n ≤ width) × (width ≤ 129) }
        requires lengths { (length signs.items ≡ width) × (length rows.items % width ≡ 0)
            × (length rows.items ≤ 64 * width) }
        requires range { All InRange rows.items }
        requires signs { All IsSign signs.items }
        requires caps { (length caps.items ≡ width) × AreCaps tool n caps.items }
        requires x0 { HasRoomForX0 tool n signs.items }
        ensures { result
            ≡ built_system tool n signs.items caps.items (length rows.items / width) rows.items }
    {
        System {
            tool,
            n,
            count: (rows.len() / width as usize) as u32,
            capped: CappedColumns::of(&caps),
            cells: rows,
            signs,
            caps,
        }
    }

    /// An equal system in memory of its own.
    pub fn copy(&self, alloc: Global) -> Result<System, AllocError>
        ensures { IfOk result (λ s. s ≡ self.now) }
    {
        Ok(System {
            tool: self.tool,
            n: self.n,
            count: self.count,
            cells: Vec::from_slice(alloc, &self.cells)?,
            signs: Vec::from_slice(alloc, &self.signs)?,
            caps: Vec::from_slice(alloc, &self.caps)?,
            capped: CappedColumns::of(&self.caps),
        })
    }

    /// Whether both systems are equal.
    pub fn same(&self, other: &System) -> bool
        ensures { IsTrue result ↔ (self.now ≡ other.now) }
    {
        self.same_columns(other) && self.same_rows(other)
    }

    fn same_columns(&self, other: &System) -> bool
        ensures { IsTrue result ↔ ((self.now.tool ≡ other.now.tool) × (self.now.n ≡ other.now.n)
            × (self.now.equations.signs ≡ other.now.equations.signs)
            × (self.now.equations.caps ≡ other.now.equations.caps)) }
    {
        self.tool == other.tool
            && self.n == other.n
            && same_signs(&self.signs, &other.signs)
            && same_caps(&self.caps, &other.caps)
    }

    fn same_rows(&self, other: &System) -> bool
        requires { self.now.equations.signs ≡ other.now.equations.signs }
        ensures { IsTrue result ↔ (self.now.equations.rows ≡ other.now.equations.rows) }
    {
        int_vector::same(&self.cells, &other.cells)
    }
}

// Whether each entry has its sign.
fn has_signs(signs: &[i8], v: &[i64]) -> bool
    requires { length signs.now ≡ length v.now }
    ensures { IsTrue result ↔ AllZip HasSign signs.now v.now }
{
    for i in 0..signs.len() {
        let x = v[i];
        let fits = match signs[i] {
            1 => x >= 0,
            -1 => x <= 0,
            _ => true,
        };
        if !fits {
            return false;
        }
    }
    true
}

// Whether the signs are the same.
fn same_signs(signs: &[i8], others: &[i8]) -> bool
    ensures { IsTrue result ↔ (signs.now ≡ others.now) }
{
    signs == others
}

// Whether the caps are the same.
fn same_caps(caps: &[Option<u64>], others: &[Option<u64>]) -> bool
    ensures { IsTrue result ↔ (caps.now ≡ others.now) }
{
    caps == others
}

// Whether the absolute value is at most the cap, where there is one.
fn is_capped(cap: Option<u64>, x: i64) -> bool
    ensures { IsTrue result ↔ IsCapped cap x }
{
    match cap {
        Some(most) => x.unsigned_abs() <= most,
        None => true,
    }
}

// Whether each entry is within its cap.
fn has_caps(caps: &[Option<u64>], v: &[i64]) -> bool
    requires { length caps.now ≡ length v.now }
    ensures { IsTrue result ↔ AllZip IsCapped caps.now v.now }
{
    for i in 0..caps.len() {
        if !is_capped(caps[i], v[i]) {
            return false;
        }
    }
    true
}

// Whether the sum of two entries is within the cap.
fn is_sum_capped(cap: Option<u64>, x: i64, y: i64) -> bool
    ensures { IsTrue result ↔ IsCapped cap (x +ℤ y) }
{
    // The sum always has room in 128 bits.
    match cap {
        Some(most) => (x as i128 + y as i128).unsigned_abs() <= most as u128,
        None => true,
    }
}

// Whether each entry of the sum of two vectors is within its cap; those places alone have one.
fn sum_has_caps(places: &[u8], caps: &[Option<u64>], u: &[i64], v: &[i64]) -> bool
    requires places { places.now ≡ capped_from 0 caps.now }
    requires first { length u.now ≡ length caps.now }
    requires second { length v.now ≡ length caps.now }
    ensures { IsTrue result ↔ AllZip IsCapped caps.now (add u.now v.now) }
{
    for place in places {
        let j = *place as usize;
        if !is_sum_capped(caps[j], u[j], v[j]) {
            return false;
        }
    }
    true
}
