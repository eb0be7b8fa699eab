//! The tables of the sieve: lines of bits over all listed rows of one sign of the last entry, 64 rows at a time.

ghost use Rattle.std.specs.Prelude.{◌≡◌, ◌+◌, ◌*◌, ◌/◌, ◌<◌, ◌≤◌, ◌++◌, ◌∷◌, [], ℤ, List, length, true, false, OnOk, IfOk};
ghost use Rattle.lift_core.specs.Systems.{LinearSystem};
ghost use Rattle.lift_core.specs.Stages.{stage_norm};
ghost use Rattle.stage_store.specs.Classes.{row_at};
ghost use Rattle.stage_store.specs.Lines.{AreClear, AreInside};
ghost use Rattle.stage_store.specs.Levels.{AreTrue, BarsLine, ReachesLine};
ghost use Rattle.stage_store.specs.Sieve.{AreGroups, IsSized, AreSized, IsDead};

use crate::lines::Lines;
use std::alloc::{AllocError, Global};

/// Lines over 64 rows: for each level of each item which rows bar it, and which reach it.
#[derive(Drop)]
pub struct Group {
    pub bars: Lines,
    pub reached: Lines,
    /// No row has a norm below this one.
    pub least: u64,
    /// No row has a norm above this one.
    pub most: u64,
}

/// The listed rows of one sign of the last entry, by their places, and lines over each 64 of them.
#[derive(Drop)]
pub struct Table {
    pub ids: Vec<u32>,
    pub groups: Vec<Group>,
}

impl Group {
    /// So many lines of each kind, without a bit that is set.
    fn new(alloc: Global, count: usize) -> Result<Group, AllocError>
        ensures sized { IfOk result (IsSized count) }
        ensures bars { IfOk result (λ g. AreClear g.bars) }
        ensures reached { IfOk result (λ g. AreClear g.reached) }
    {
        Ok(Group {
            bars: Lines::new(alloc, count)?,
            reached: Lines::new(alloc, count)?,
            least: u64::MAX,
            most: 0,
        })
    }

    /// The rows that make no irreducible sum with the one for which these lines are read.
    pub fn dead(&self, bar_reads: &[usize], reach_reads: &[usize]) -> u64
        requires bars { AreInside (length self.now.bars) bar_reads.now }
        requires reached { AreInside (length self.now.reached) reach_reads.now }
        ensures { IsDead self.now bar_reads.now reach_reads.now result }
    {
        let barred = self.bars.any(bar_reads);
        if barred == u64::MAX {
            return barred;
        }
        barred | self.reached.any(reach_reads)
    }
}

/// The first bits of a word, so many of them.
fn first_bits(count: usize) -> u64 {
    if count < 64 {
        !(u64::MAX << count)
    } else {
        u64::MAX
    }
}

impl Table {
    /// A table without rows.
    pub fn new(alloc: Global) -> Table
        ensures ids { result.ids.items ≡ [] }
        ensures groups { result.groups.items ≡ [] }
    {
        Table {
            ids: Vec::new(alloc),
            groups: Vec::new(alloc),
        }
    }

    /// How many groups there are.
    pub fn groups(&self) -> usize
        ensures { result ≡ length self.now.groups.items }
    {
        self.groups.len()
    }

    /// The rows of a group that have no bit in the lines that are read.
    pub fn left_in(
        &self,
        count: usize,
        group: usize,
        bar_reads: &[usize],
        reach_reads: &[usize],
    ) -> u64
        requires group { group < length self.now.groups.items }
        requires sized { AreSized count self.now.groups.items }
        requires bars { AreInside count bar_reads.now }
        requires reached { AreInside count reach_reads.now }
    {
        let dead = self.groups[group].dead(bar_reads, reach_reads);
        !dead & first_bits(self.ids.len().saturating_sub(group.saturating_mul(64)))
    }

    /// The rows of a group that reach an item at a level.
    pub fn reached_line(&self, group: usize, item: usize, level: u8) -> u64 {
        match self.groups.get(group) {
            Some(group) => group
                .reached
                .line(item.saturating_mul(8).saturating_add(level as usize)),
            None => 0,
        }
    }

    /// Makes room for one row more in the last group.
    fn open_group(&mut self, alloc: Global, count: usize) -> Result<(), AllocError>
        requires count { length self.old.groups.items ≡ (length self.old.ids.items + 63) / 64 }
        requires sized { AreSized count self.old.groups.items }
        ensures ids { self.new.ids ≡ self.old.ids }
        ensures count { OnOk result (length self.new.groups.items
            ≡ length self.old.ids.items / 64 + 1) }
        ensures sized { OnOk result (AreSized count self.new.groups.items) }
        ensures groups { OnOk result ((S : LinearSystem) (listed : List (List ℤ))
            → AreGroups S listed self.old.ids.items self.old.groups.items
            → AreGroups S listed self.old.ids.items self.new.groups.items) }
    {
        if self.ids.len() % 64 == 0 {
            self.groups.push(Group::new(alloc, count)?)?;
        }
        Ok(())
    }

    /// Takes in a row, with its norm and what it bars and reaches.
    pub fn push(
        &mut self,
        alloc: Global,
        i: u32,
        norm: u64,
        bars: &[u8],
        reached: &[u8],
    ) -> Result<(), AllocError>
        requires few { length bars.now ≤ 260 }
        requires lengths { length bars.now ≡ length reached.now }
        requires count { length self.old.groups.items ≡ (length self.old.ids.items + 63) / 64 }
        requires sized { AreSized (8 * length bars.now) self.old.groups.items }
        ensures ids { OnOk result (self.new.ids.items ≡ self.old.ids.items ++ i ∷ []) }
        ensures count { OnOk result (length self.new.groups.items
            ≡ (length self.new.ids.items + 63) / 64) }
        ensures sized { OnOk result (AreSized (8 * length bars.now) self.new.groups.items) }
        ensures groups { OnOk result ((S : LinearSystem) (listed : List (List ℤ))
            → AreGroups S listed self.old.ids.items self.old.groups.items
            → norm ≡ stage_norm (row_at listed i)
            → AreTrue (BarsLine S listed (row_at listed i)) true bars.now
            → AreTrue (ReachesLine (row_at listed i)) false reached.now
            → AreGroups S listed self.new.ids.items self.new.groups.items) }
    {
        let place = self.ids.len();
        self.open_group(alloc, 8 * bars.len())?;
        self.ids.push(i)?;
        let group = &mut self.groups[place / 64];
        group.bars.mark(true, bars, place % 64);
        group.reached.mark(false, reached, place % 64);
        group.least = group.least.min(norm);
        group.most = group.most.max(norm);
        Ok(())
    }
}
