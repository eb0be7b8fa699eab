//! Rows of one width in one region of memory, with a reserved spare.
//!
//! A pool is seen as its width, its list of rows and its spare, the number of rows that it has room for. `reserve` is
//! the only call that takes memory: all that is written after it, as far as the spare goes, cannot fail.
#![tactic(auto)]

ghost use Rattle.std.specs.Prelude.{◌≡◌, ◌+◌, ◌-◌, ◌<◌, ◌≤◌, ◌^◌, ◌++◌, ◌∷◌, [], All, length, take, slice_index_or, IsOk, OnOk, OnErr, vec_len, vec_capacity};
ghost use Rattle.int_vector.specs.Range.{InRange};

use std::alloc::{AllocError, Global};
use std::marker::Model;

/// The greatest width of a pool, in entries.
pub const MAX_WIDTH: u32 = 130;

/// The place of a row in its pool, from 0.
#[derive(Clone, Copy, Debug, PartialEq, Eq)]
pub struct RowId(pub u32);

/// Rows of one width, each entry from -(2^63-1) to 2^63-1, one after another in one region of memory.
#[derive(Drop)]
pub struct Pool {
    width: u32,
    count: u32,
    spare: u32,
    cells: Vec<i64>,
}

impl Model for Pool {
    ghost use Rattle.std.specs.Prelude.{vec_capacity};
    ghost use Rattle.row_pool.specs.Rows.{PoolValue, IsPool, rows_of};

    ghost Value = { PoolValue };

    ghost view = { λ p. record { width = p.width; rows = rows_of p.count p.width p.cells.items; spare = p.spare } };

    ghost invariant = { λ p. IsPool p.width p.count p.spare (vec_capacity p.cells) p.cells.items };
}

impl Pool {
    /// A pool without rows and without spare, for rows of `width` entries.
    pub fn new(alloc: Global, width: u32) -> Pool
        requires { width ≤ MAX_WIDTH }
        ensures { (result.width ≡ width) × (result.rows ≡ []) × (result.spare ≡ 0) }
    {
        Pool {
            width,
            count: 0,
            spare: 0,
            cells: Vec::new(alloc),
        }
    }

    /// Makes room for `rows` rows more. Where the region grows it doubles, if memory is there for that, so that the
    /// time for all moves of rows is in proportion to the number of rows.
    ///
    /// After an error the pool is as before.
    #[tactic(auto, using(crate::proofs::Rows::row_laws))]
    pub fn reserve(&mut self, rows: u32) -> Result<(), AllocError>
        requires { length self.old.rows + rows < 2 ^ 32 }
        ensures same { (self.new.width ≡ self.old.width) × (self.new.rows ≡ self.old.rows) }
        ensures ok { OnOk result (rows ≤ self.new.spare) }
        ensures err { OnErr result (self.new.spare ≡ self.old.spare) }
        ensures kept { self.old.spare ≤ self.new.spare }
        ensures succeeds { rows ≤ self.old.spare → IsOk result }
    {
        if rows <= self.spare {
            return Ok(());
        }
        grow(&mut self.cells, rows as usize * self.width as usize)?;
        self.spare = rows;
        Ok(())
    }

    /// Appends a row, and answers its place.
    #[tactic(auto, using(crate::proofs::Rows::row_laws))]
    pub fn push(&mut self, row: &[i64]) -> RowId
        requires room { 1 ≤ self.old.spare }
        requires width { length row.now ≡ self.old.width }
        requires range { All InRange row.now }
        ensures width { self.new.width ≡ self.old.width }
        ensures rows { self.new.rows ≡ self.old.rows ++ row.now ∷ [] }
        ensures spare { self.new.spare + 1 ≡ self.old.spare }
        ensures place { result.0 ≡ length self.old.rows }
    {
        let Ok(()) = self.cells.extend_from_slice(row) else {
            unreachable!()
        };
        let place = self.count;
        self.count += 1;
        self.spare -= 1;
        RowId(place)
    }

    /// The row at a place.
    #[tactic(auto, using(crate::proofs::Rows::row_laws))]
    pub fn row(&self, id: RowId) -> &[i64]
        requires { id.0 < length self.now.rows }
        ensures row { result.now ≡ slice_index_or self.now.rows id.0 [] }
        ensures width { length result.now ≡ self.now.width }
        ensures range { All InRange result.now }
    {
        let width = self.width as usize;
        let start = id.0 as usize * width;
        &self.cells[start..start + width]
    }

    /// Keeps the first `len` rows. The room of the others goes to the spare.
    #[tactic(auto, using(crate::proofs::Rows::cut_laws))]
    pub fn truncate(&mut self, len: u32)
        requires { len ≤ length self.old.rows }
        ensures width { self.new.width ≡ self.old.width }
        ensures rows { self.new.rows ≡ take len self.old.rows }
        ensures spare { self.new.spare ≡ self.old.spare + (length self.old.rows - len) }
    {
        self.cells.truncate(len as usize * self.width as usize);
        self.spare += self.count - len;
        self.count = len;
    }

    /// Keeps no row. The room of all goes to the spare.
    pub fn clear(&mut self)
        ensures { (self.new.width ≡ self.old.width) × (self.new.rows ≡ [])
            × (self.new.spare ≡ self.old.spare + length self.old.rows) }
    {
        self.truncate(0);
    }

    /// Appends the rows of another pool, in order.
    #[tactic(auto, using(crate::proofs::Rows::join_laws))]
    pub fn append_from(&mut self, other: &Pool)
        requires width { self.old.width ≡ other.now.width }
        requires room { length other.now.rows ≤ self.old.spare }
        ensures width { self.new.width ≡ self.old.width }
        ensures rows { self.new.rows ≡ self.old.rows ++ other.now.rows }
        ensures spare { self.new.spare + length other.now.rows ≡ self.old.spare }
    {
        let Ok(()) = self.cells.extend_from_slice(&other.cells) else {
            unreachable!()
        };
        self.count += other.count;
        self.spare -= other.count;
    }

    /// The number of rows.
    #[tactic(auto, using(crate::proofs::Rows::row_laws))]
    pub fn len(&self) -> u32
        ensures { result ≡ length self.now.rows }
    {
        self.count
    }

    /// The number of rows that there is room for.
    pub fn spare(&self) -> u32
        ensures { result ≡ self.now.spare }
    {
        self.spare
    }

    /// The number of entries of each row.
    pub fn width(&self) -> u32
        ensures { result ≡ self.now.width }
    {
        self.width
    }
}

/// Makes room for `wanted` cells more.
fn grow(cells: &mut Vec<i64>, wanted: usize) -> Result<(), AllocError>
    ensures items { cells.new.items ≡ cells.old.items }
    ensures ok { OnOk result (vec_len cells.new + wanted ≤ vec_capacity cells.new) }
    ensures capacity { vec_capacity cells.old ≤ vec_capacity cells.new }
{
    // `Vec::reserve` asks for twice the capacity, if that is more. Where that is refused, less may still be there.
    if cells.reserve(wanted).is_err() {
        cells.reserve_exact(wanted)?;
    }
    Ok(())
}
