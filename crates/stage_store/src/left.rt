//! Which rows of a table are left for a new row, so that no search is made for the sake of a few. No clause rests on it.

ghost use Rattle.std.specs.Prelude.{◌*◌, length};
ghost use Rattle.stage_store.specs.Lines.{AreInside};
ghost use Rattle.stage_store.specs.Sieve.{AreSized};

use crate::table::Table;
use std::alloc::{AllocError, Global};

/// For so many rows a search is made: it takes longer than a pair or two.
const WORTH: u64 = 4;

/// The rows of a group that are left, a bit each.
#[derive(Clone, Copy, Drop)]
struct LeftIn {
    group: usize,
    rows: u64,
}

/// The rows of a table that are left, by groups that have some.
#[derive(Drop)]
pub struct Left {
    parts: Vec<LeftIn>,
}

impl Left {
    /// None are left.
    pub fn new(alloc: Global) -> Left {
        Left {
            parts: Vec::new(alloc),
        }
    }

    /// Notes the rows that have no bit in the lines that are read, and answers how many they are.
    pub fn fill(
        &mut self,
        table: &Table,
        count: usize,
        bar_reads: &[usize],
        reach_reads: &[usize],
    ) -> Result<u64, AllocError>
        requires sized { AreSized count table.now.groups.items }
        requires bars { AreInside count bar_reads.now }
        requires reached { AreInside count reach_reads.now }
    {
        self.parts.truncate(0);
        let mut left: u64 = 0;
        for group in 0..table.groups() {
            let rows = table.left_in(count, group, bar_reads, reach_reads);
            left = left.saturating_add(u64::from(rows.count_ones()));
            self.put(group, rows)?;
        }
        Ok(left)
    }

    /// Notes the rows of a group that are left, if there are any.
    fn put(&mut self, group: usize, rows: u64) -> Result<(), AllocError> {
        if rows == 0 {
            return Ok(());
        }
        self.parts.push(LeftIn { group, rows })?;
        Ok(())
    }

    /// Whether so many of the rows reach an item that a search is worth it.
    pub fn wants(&self, table: &Table, item: usize) -> bool {
        let mut rows: u64 = 0;
        for part in &self.parts {
            let word = part.rows & table.reached_line(part.group, item, 0);
            rows = rows.saturating_add(u64::from(word.count_ones()));
            if rows >= WORTH {
                return true;
            }
        }
        false
    }

    /// Takes out the rows that reach an item at a level.
    pub fn take_out(&mut self, table: &Table, item: usize, level: u8) {
        if level > 7 {
            return;
        }
        for k in 0..self.parts.len() {
            let part = self.parts[k];
            self.parts[k].rows = part.rows & !table.reached_line(part.group, item, level);
        }
        self.parts.retain(|part| part.rows != 0);
    }
}
