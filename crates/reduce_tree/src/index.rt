//! The index of a tree: three tiers that lead from a key to the bucket of its rows, and the search down these tiers.

ghost use Rattle.std.specs.Prelude.{◌≡◌, ◌<◌, ◌≤◌, ℕ, [], length, slice_index_or, IfOk, OnOk, MatchOption};
ghost use Rattle.reduce_tree.specs.Inside.Filing.{LeadsToBucket, KeepsIndex, bucket_at, bucket_count};
ghost use Rattle.reduce_tree.specs.Inside.Searches.{AreAllMarked, HasNoneUnderThird, HasNoneUnderSecond, HasNoneUnderFirst, IsBelowIn};

use crate::bounds::Bounds;
use crate::bucket::Bucket;
use crate::items::Key;
use crate::tier::{Tier, lowest, without};
use int_vector::Visits;
use row_pool::{Pool, RowId};
use std::alloc::{AllocError, Global};

/// Three tiers and the buckets. The kids of the first tier are branches of the second, those of the second are branches
/// of the third, and those of the third are buckets.
#[derive(Drop)]
pub struct Index {
    pub first: Tier,
    pub second: Tier,
    pub third: Tier,
    pub buckets: Vec<Bucket>,
}

impl Index {
    /// An index without buckets.
    pub fn new(alloc: Global) -> Index
        ensures { bucket_count result ≡ 0 }
    {
        Index {
            first: Tier::new(alloc),
            second: Tier::new(alloc),
            third: Tier::new(alloc),
            buckets: Vec::new(alloc),
        }
    }

    /// The number of the bucket of a key, which is made where it is not there. After an error, too, all buckets are as
    /// they were, and each key leads where it led.
    pub fn bucket_for(&mut self, alloc: Global, key: &Key) -> Result<u32, AllocError>
        requires first { key.now.first < 128 }
        requires second { key.now.second < 128 }
        requires third { key.now.third < 128 }
        ensures kept { KeepsIndex self.old self.new }
        ensures leads { IfOk result (λ b. LeadsToBucket self.new key.now b) }
        ensures there { IfOk result (λ b. b < bucket_count self.new) }
    {
        let second = self.first.step(u32::from(key.part), key.first)?;
        let third = self.second.step(second, key.second)?;
        let bucket = self.third.step(third, key.third)?;
        grow(alloc, &mut self.buckets, bucket)?;
        Ok(bucket)
    }

    /// The place of a row beneath a branch of the first tier that is below z and stands before the end.
    pub fn find_below(
        &self,
        branch: u32,
        pool: &Pool,
        z: &[i64],
        bounds: &Bounds,
        visits: &mut Visits,
    ) -> Option<RowId>
        requires marked { AreAllMarked self.now pool.now.rows z.now bounds.now }
        requires width { pool.now.width ≡ length z.now }
        ensures { MatchOption result
            (HasNoneUnderFirst self.now pool.now.rows z.now bounds.now branch)
            (λ id. IsBelowIn self.now pool.now.rows z.now bounds.now id.0) }
    {
        let mut rest = self.first.classes(branch) & bounds.classes;
        while rest != 0 {
            let class = lowest(rest);
            rest = without(rest, class);
            let Some(kid) = self.first.kid(branch, class) else {
                continue;
            };
            if let Some(id) = self.find_under_second(kid, pool, z, bounds, visits) {
                return Some(id);
            }
        }
        None
    }

    /// The same beneath a branch of the second tier.
    fn find_under_second(
        &self,
        branch: u32,
        pool: &Pool,
        z: &[i64],
        bounds: &Bounds,
        visits: &mut Visits,
    ) -> Option<RowId>
        requires marked { AreAllMarked self.now pool.now.rows z.now bounds.now }
        requires width { pool.now.width ≡ length z.now }
        ensures { MatchOption result
            (HasNoneUnderSecond self.now pool.now.rows z.now bounds.now branch)
            (λ id. IsBelowIn self.now pool.now.rows z.now bounds.now id.0) }
    {
        let mut rest = self.second.classes(branch) & bounds.classes;
        while rest != 0 {
            let class = lowest(rest);
            rest = without(rest, class);
            let Some(kid) = self.second.kid(branch, class) else {
                continue;
            };
            if let Some(id) = self.find_under_third(kid, pool, z, bounds, visits) {
                return Some(id);
            }
        }
        None
    }

    /// The same beneath a branch of the third tier.
    fn find_under_third(
        &self,
        branch: u32,
        pool: &Pool,
        z: &[i64],
        bounds: &Bounds,
        visits: &mut Visits,
    ) -> Option<RowId>
        requires marked { AreAllMarked self.now pool.now.rows z.now bounds.now }
        requires width { pool.now.width ≡ length z.now }
        ensures { MatchOption result
            (HasNoneUnderThird self.now pool.now.rows z.now bounds.now branch)
            (λ id. IsBelowIn self.now pool.now.rows z.now bounds.now id.0) }
    {
        let mut rest = self.third.classes(branch) & bounds.classes;
        while rest != 0 {
            let class = lowest(rest);
            rest = without(rest, class);
            let Some(kid) = self.third.kid(branch, class) else {
                continue;
            };
            if kid as usize >= self.buckets.len() {
                continue;
            }
            let bucket = &self.buckets[kid as usize];
            if let Some(id) = bucket.find_below(pool, z, bounds, visits) {
                return Some(id);
            }
        }
        None
    }
}

/// Makes buckets until this one is there.
fn grow(alloc: Global, buckets: &mut Vec<Bucket>, bucket: u32) -> Result<(), AllocError>
    ensures kept { (b : ℕ)
        → slice_index_or buckets.new.items b [] ≡ slice_index_or buckets.old.items b [] }
    ensures count { length buckets.old.items ≤ length buckets.new.items }
    ensures there { OnOk result (bucket < length buckets.new.items) }
{
    while buckets.len() <= bucket as usize {
        buckets.push(Bucket::new(alloc))?;
    }
    Ok(())
}
