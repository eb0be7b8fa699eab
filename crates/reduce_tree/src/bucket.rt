//! A bucket: rows that are filed alike, with words that are true of groups of neighbours.

ghost use Rattle.std.specs.Prelude.{◌≡◌, ◌⊎◌, ◌%◌, ◌+◌, ◌-◌, ◌<◌, ◌≤◌, ◌^◌, ◌++◌, ◌∷◌, ℕ, [], length, take, drop, slice_index_or, MatchOption, OnOk, OnErr, IsTrue, ◌↔◌, vec_len, vec_capacity};
ghost use Rattle.std.specs.List.{AllByRecursion};
ghost use Rattle.reduce_tree.specs.Inside.Bounds.{Covers};
ghost use Rattle.reduce_tree.specs.Inside.Buckets.{nothing_filed, AreCommon, IsRuledOut, IsMarked, AreNoneBelow, IsBelowAt, IsSetOfApart};
ghost use Rattle.int_vector.specs.Vectors.{◌⊑◌};

use crate::bounds::{Bounds, Word};
use crate::tree::Filed;
use int_vector::{Visits, below};
use row_pool::{Pool, RowId};
use std::alloc::{AllocError, Global};
use std::marker::Model;

/// Filed rows in the order in which they came.
///
/// `eights` and `blocks` have a word for each whole group of 8 and of 64 neighbours. A search passes over a group where
/// its word rules out that a row of it is looked for. Most buckets are short, and have no word.
#[derive(Drop)]
pub struct Bucket {
    rows: Vec<Filed>,
    eights: Vec<Word>,
    blocks: Vec<Word>,
}

impl Model for Bucket {
    ghost use Rattle.std.specs.Prelude.{List};
    ghost use Rattle.reduce_tree.specs.declared.tree.Filed.{Filed};
    ghost use Rattle.reduce_tree.specs.Inside.Buckets.{IsBucket};

    ghost Value = { List Filed };

    ghost view = { λ b. b.rows.items };

    ghost invariant = { λ b. IsBucket b.rows.items b.eights.items b.blocks.items };
}

impl Bucket {
    /// A bucket without rows.
    pub fn new(alloc: Global) -> Bucket
        ensures { result ≡ [] }
    {
        Bucket {
            rows: Vec::new(alloc),
            eights: Vec::new(alloc),
            blocks: Vec::new(alloc),
        }
    }

    /// Files one row more. After an error the bucket is as before.
    pub fn push(&mut self, filed: Filed) -> Result<(), AllocError>
        requires { length self.old + 1 < 2 ^ 32 }
        ensures ok { OnOk result (self.new ≡ self.old ++ filed ∷ []) }
        ensures err { OnErr result (self.new ≡ self.old) }
    {
        let count = self.rows.len() + 1;
        self.rows.reserve(1)?;
        make_room(&mut self.eights, 8, count)?;
        make_room(&mut self.blocks, 64, count)?;
        self.rows.push_reserved(filed);
        add_word(&mut self.eights, 8, &self.rows);
        add_word(&mut self.blocks, 64, &self.rows);
        Ok(())
    }

    /// Takes the last row away.
    pub fn pop(&mut self)
        requires { 0 < length self.old }
        ensures { self.new ≡ take (length self.old - 1) self.old }
    {
        let count = self.rows.len() - 1;
        self.rows.truncate(count);
        self.eights.truncate(count / 8);
        self.blocks.truncate(count / 64);
    }

    /// The place of a row that is below z and stands before the end.
    ///
    /// Counts a visit for each row that is compared with z. The rows after the last whole eight are
    /// looked at one by one.
    pub fn find_below(
        &self,
        pool: &Pool,
        z: &[i64],
        bounds: &Bounds,
        visits: &mut Visits,
    ) -> Option<RowId>
        requires marked { AllByRecursion (IsMarked pool.now.rows z.now bounds.now) self.now }
        requires width { pool.now.width ≡ length z.now }
        ensures { MatchOption result
            (AreNoneBelow self.now pool.now.rows z.now bounds.now (length self.now))
            (λ id. IsBelowAt self.now pool.now.rows z.now bounds.now id.0) }
    {
        let whole = self.eights.len();
        let mut eight = 0;
        while eight < whole {
            if eight % 8 == 0 && rules_out(&self.blocks, eight / 8, bounds) {
                eight += 8;
                continue;
            }
            if !rules_out(&self.eights, eight, bounds) {
                let rows = &self.rows[8 * eight..8 * eight + 8];
                if let Some(id) = find_in_eight(rows, pool, z, bounds, visits) {
                    return Some(id);
                }
            }
            eight += 1;
        }
        find_among(&self.rows[8 * whole..], pool, z, bounds, visits)
    }
}

/// The place of one of at most eight rows that is below z and stands before the end.
///
/// All are asked for their bits first. Most have some outside, and only the others are looked at.
fn find_in_eight(
    rows: &[Filed],
    pool: &Pool,
    z: &[i64],
    bounds: &Bounds,
    visits: &mut Visits,
) -> Option<RowId>
    requires few { length rows.now ≤ 8 }
    requires marked { AllByRecursion (IsMarked pool.now.rows z.now bounds.now) rows.now }
    requires width { pool.now.width ≡ length z.now }
    ensures { MatchOption result
        (AreNoneBelow rows.now pool.now.rows z.now bounds.now (length rows.now))
        (λ id. IsBelowAt rows.now pool.now.rows z.now bounds.now id.0) }
{
    let mut rest = set_of_apart(rows, bounds.outside);
    while rest != 0 {
        let k = rest.trailing_zeros() as usize;
        rest &= !(1_u8 << k);
        if is_found(&rows[k], pool, z, bounds, visits) {
            return Some(RowId(rows[k].place));
        }
    }
    None
}

/// The set of the numbers of those of at most eight rows that have none of the bits outside.
fn set_of_apart(rows: &[Filed], outside: u128) -> u8
    requires { length rows.now ≤ 8 }
    ensures { IsSetOfApart rows.now outside (length rows.now) result }
{
    // There is no branch for a row, so that the machine asks all of them side by side.
    let mut set = 0;
    for k in 0..rows.len() {
        let is_apart = rows[k].bits & outside == 0;
        set |= u8::from(is_apart) << k;
    }
    set
}

/// The place of one of these rows that is below z and stands before the end.
fn find_among(
    rows: &[Filed],
    pool: &Pool,
    z: &[i64],
    bounds: &Bounds,
    visits: &mut Visits,
) -> Option<RowId>
    requires marked { AllByRecursion (IsMarked pool.now.rows z.now bounds.now) rows.now }
    requires width { pool.now.width ≡ length z.now }
    ensures { MatchOption result
        (AreNoneBelow rows.now pool.now.rows z.now bounds.now (length rows.now))
        (λ id. IsBelowAt rows.now pool.now.rows z.now bounds.now id.0) }
{
    for filed in rows {
        if is_found(filed, pool, z, bounds, visits) {
            return Some(RowId(filed.place));
        }
    }
    None
}

/// Whether the row is below z and stands before the end.
///
/// Counts a visit where it is compared with z.
fn is_found(filed: &Filed, pool: &Pool, z: &[i64], bounds: &Bounds, visits: &mut Visits) -> bool
    requires marked { IsMarked pool.now.rows z.now bounds.now filed.now }
    requires width { pool.now.width ≡ length z.now }
    ensures { IsTrue result ↔ (filed.now.place < bounds.now.end)
        × (slice_index_or pool.now.rows filed.now.place [] ⊑ z.now) }
{
    if !bounds.admit(&filed.word()) {
        return false;
    }
    visits.add();
    below(pool.row(RowId(filed.place)), z)
}

/// Whether there is a word for the group of this number, and it rules out that a row of it is looked for.
fn rules_out(words: &[Word], group: usize, bounds: &Bounds) -> bool
    ensures { IsTrue result ↔ IsRuledOut words.now group bounds.now }
{
    group < words.len() && !bounds.admit(&words[group])
}

/// Makes room for one word more, where a group of `size` neighbours is whole once there are `count` rows.
fn make_room(words: &mut Vec<Word>, size: usize, count: usize) -> Result<(), AllocError>
    requires { 0 < size }
    ensures same { words.new.items ≡ words.old.items }
    ensures room { OnOk result (count % size ≡ 0 → vec_len words.new < vec_capacity words.new) }
{
    if count % size == 0 {
        words.reserve(1)?;
    }
    Ok(())
}

/// Adds the word of the last group of `size` neighbours, where the last row makes it whole.
fn add_word(words: &mut Vec<Word>, size: usize, rows: &[Filed])
    requires size { (size ≡ 8) ⊎ (size ≡ 64) }
    requires some { 0 < length rows.now }
    requires room { length rows.now % size ≡ 0 → vec_len words.old < vec_capacity words.old }
    requires before { AreCommon size words.old.items (take (length rows.now - 1) rows.now) }
    ensures { AreCommon size words.new.items rows.now }
{
    if rows.len() % size == 0 {
        words.push_reserved(common(&rows[rows.len() - size..]));
    }
}

/// A word that is true of each of these rows.
fn common(rows: &[Filed]) -> Word
    ensures { (k : ℕ) → k < length rows.now
        → Covers result (slice_index_or rows.now k nothing_filed) }
{
    let mut word = Word {
        bits: u128::MAX,
        size: u32::MAX,
        place: u32::MAX,
    };
    for filed in rows {
        word.bits &= filed.bits;
        word.size = word.size.min(filed.size);
        word.place = word.place.min(filed.place);
    }
    word
}
