//! The tree: where rows are filed, how one below a vector is found, and how the last rows are taken out again.

ghost use Rattle.std.specs.Prelude.{◌≡◌, ◌+◌, ◌<◌, ◌≤◌, ◌^◌, ◌++◌, ◌∷◌, [], length, take, slice_index_or, OnOk, OnErr, MatchOption};
ghost use Rattle.std.specs.List.{Contains};
ghost use Rattle.int_vector.specs.Vectors.{◌⊑◌};
ghost use Rattle.row_pool.specs.Rows.{PoolValue};
ghost use Rattle.reduce_tree.specs.Items.{size_of};
ghost use Rattle.reduce_tree.specs.Inside.Bounds.{word_of};

use crate::bounds::{Bounds, Word};
use crate::index::Index;
use crate::items::{FiledBy, Key, key_of, part_of, size_of};
use crate::signature::signature;
use int_vector::Visits;
use row_pool::{Pool, RowId};
use std::alloc::{AllocError, Global};
use std::marker::Model;

/// A place that was inserted, with what is filed of the row there.
#[derive(Clone, Copy)]
pub struct Filed {
    pub place: u32,
    /// The number of the row's bucket.
    pub bucket: u32,
    /// The size of the row's last entry.
    pub size: u32,
    pub key: Key,
    /// The row's signature.
    pub bits: u128,
}

impl Filed {
    /// What a search asks of the row.
    pub fn word(&self) -> Word
        ensures { result ≡ word_of self.now }
    {
        Word {
            bits: self.bits,
            size: self.size,
            place: self.place,
        }
    }
}

/// Places of rows of a pool, filed so that one below a vector is found without a look at each row.
///
/// The rows stay in the pool. A call is given a pool that the tree fits: at each place that was inserted it has a row of
/// which what is filed is true, as a pool has whose rows there are still the same.
#[derive(Drop)]
pub struct Tree {
    alloc: Global,
    width: u32,
    by: FiledBy,
    /// For how many thresholds each item has marks.
    levels: u32,
    /// What was inserted, in order.
    filed: Vec<Filed>,
    /// The same by keys.
    index: Index,
}

impl Model for Tree {
    ghost use Rattle.reduce_tree.specs.Tree.{TreeValue};
    ghost use Rattle.reduce_tree.specs.Inside.Filing.{IsTree};

    ghost Value = { TreeValue };

    ghost view = { λ t. record { width = t.width; levels = t.levels; filed = t.filed.items } };

    ghost invariant = { λ t. IsTree t.width t.levels t.filed.items t.index };
}

impl Tree {
    ghost use Rattle.reduce_tree.specs.Tree.{Fits, places_of, AreNotBelow, AreNotBelowBefore};

    /// A tree without rows, for rows of `width` entries.
    pub fn new(alloc: Global, width: u32) -> Tree
        requires { width ≤ 130 }
        ensures width { result.width ≡ width }
        ensures filed { result.filed ≡ [] }
    {
        Tree::filed_by(alloc, width, FiledBy::FirstColumns)
    }

    /// The same, whose rows are filed by the columns of one side. How many rows a search looks at depends on that, and
    /// nothing else does.
    pub fn filed_by(alloc: Global, width: u32, by: FiledBy) -> Tree
        requires { width ≤ 130 }
        ensures width { result.width ≡ width }
        ensures filed { result.filed ≡ [] }
    {
        Tree {
            alloc,
            width,
            by,
            // As many marks for each of the `2 * width` items as 128 bits have room for.
            levels: (64 / width.max(1)).clamp(1, 16),
            filed: Vec::new(alloc),
            index: Index::new(alloc),
        }
    }

    /// The number of places that were inserted and not taken out again.
    pub fn len(&self) -> u32
        ensures { result ≡ length (places_of self.now) }
    {
        self.filed.len() as u32
    }

    /// Files the row at a place of the pool. An error says that memory is not enough, or that the tree already has
    /// 2^32-1 places. After it the tree is as before.
    pub fn insert(&mut self, pool: &Pool, id: RowId) -> Result<(), AllocError>
        requires fits { Fits self.old pool.now }
        requires place { id.0 < length pool.now.rows }
        ensures places { OnOk result (places_of self.new ≡ places_of self.old ++ id.0 ∷ []) }
        ensures fits { OnOk result (Fits self.new pool.now) }
        ensures width { OnOk result (self.new.width ≡ self.old.width) }
        ensures err { OnErr result (self.new ≡ self.old) }
    {
        if self.filed.len() >= u32::MAX as usize {
            return Err(AllocError);
        }
        let row = pool.row(id);
        let bits = signature(row, self.levels as usize);
        let key = key_of(row, self.by, self.levels as usize, bits);
        let bucket = self.index.bucket_for(self.alloc, &key)?;
        self.filed.reserve(1)?;
        let filed = file(row, id.0, bucket, key, bits);
        self.index.buckets[bucket as usize].push(filed)?;
        self.filed.push_reserved(filed);
        Ok(())
    }

    /// The place of an inserted row that is below z, and `None` exactly where no inserted row is.
    ///
    /// Counts a visit for each row that is compared with z. How many those are, no clause says.
    pub fn find_below(&self, pool: &Pool, z: &[i64], visits: &mut Visits) -> Option<RowId>
        requires fits { Fits self.now pool.now }
        requires width { length z.now ≡ pool.now.width }
        ensures { MatchOption result (AreNotBelow (places_of self.now) pool.now.rows z.now)
            (λ id. Contains (places_of self.now) id.0
            × (slice_index_or pool.now.rows id.0 [] ⊑ z.now)) }
    {
        self.find_below_before(pool, z, pool.len(), visits)
    }

    /// The same among the inserted rows that stand before the place `end`: the place of one that is below z, and `None`
    /// exactly where none of those is.
    pub fn find_below_before(
        &self,
        pool: &Pool,
        z: &[i64],
        end: u32,
        visits: &mut Visits,
    ) -> Option<RowId>
        requires fits { Fits self.now pool.now }
        requires width { length z.now ≡ pool.now.width }
        ensures { MatchOption result
            (AreNotBelowBefore end (places_of self.now) pool.now.rows z.now)
            (λ id. Contains (places_of self.now) id.0 × (id.0 < end)
            × (slice_index_or pool.now.rows id.0 [] ⊑ z.now)) }
    {
        let bits = signature(z, self.levels as usize);
        let bounds = Bounds {
            // Each row has class 127.
            classes: bits | 1_u128 << 127,
            outside: !bits,
            size: size_of(z),
            end,
        };
        // A row below z has the last entry 0, or one with the sign of z's.
        if let Some(id) = self.index.find_below(0, pool, z, &bounds, visits) {
            return Some(id);
        }
        let part = part_of(z);
        if part == 0 {
            return None;
        }
        self.index
            .find_below(u32::from(part), pool, z, &bounds, visits)
    }

    /// Keeps the first `len` places. The tree still fits each pool that it fitted.
    pub fn truncate(&mut self, len: u32)
        requires { len ≤ length (places_of self.old) }
        ensures places { places_of self.new ≡ take len (places_of self.old) }
        ensures width { self.new.width ≡ self.old.width }
        ensures fits { (pool : PoolValue) → Fits self.old pool → Fits self.new pool }
    {
        while self.filed.len() > len as usize {
            let Some(filed) = self.filed.pop() else {
                return;
            };
            let bucket = &mut self.index.buckets[filed.bucket as usize];
            bucket.pop();
        }
    }
}

/// A place with what is filed of the row there.
fn file(row: &[i64], place: u32, bucket: u32, key: Key, bits: u128) -> Filed
    ensures place { result.place ≡ place }
    ensures bucket { result.bucket ≡ bucket }
    ensures key { result.key ≡ key }
    ensures size { result.size ≡ size_of row.now }
    ensures bits { result.bits ≡ bits }
{
    Filed {
        place,
        bucket,
        size: size_of(row),
        key,
        bits,
    }
}
