//! What is asked of a row that is to be sifted.

ghost use Rattle.std.specs.Prelude.{◌≡◌, ◌+◌, ◌*◌, ◌<◌, ◌≤◌, length, slice_index_or, true, false, IfOk, OnOk};
ghost use Rattle.lift_core.specs.ToolSystems.{width};
ghost use Rattle.stage_store.specs.Indexed.{HoldsRows};
ghost use Rattle.stage_store.specs.Classes.{row_at};
ghost use Rattle.stage_store.specs.Levels.{AreTrue, BarsLine, ReachesLine};
ghost use Rattle.stage_store.specs.Mirror.{IsTurnedLevels};
ghost use Rattle.stage_store.specs.Sieve.{AreSized, IsRoom, AreAsked};

use crate::left::Left;
use crate::lines::take_said;
use crate::marks::{fill_bars, fill_reached, lower_bars};
use crate::mirror::fill_turned;
use crate::table::Table;
use lift_core::System;
use reduce_tree::Tree;
use row_pool::{Pool, RowId};
use std::alloc::{AllocError, Global};

/// Room for what is asked of a row: from which level on it bars each item, how many levels of each it reaches, and the
/// lines that are read for it.
#[derive(Drop)]
pub struct Room {
    pub probe: Vec<i64>,
    pub bars: Vec<u8>,
    pub reached: Vec<u8>,
    /// From which level on the row's negative bars each item.
    pub turned: Vec<u8>,
    /// Where rows that bar what this one reaches have a bit.
    pub bar_reads: Vec<usize>,
    /// Where rows that reach what this one bars have a bit.
    pub reach_reads: Vec<usize>,
    /// The rows that are left after that.
    left: Left,
}

impl Room {
    /// Room for what is asked of a row with so many entries before its last.
    pub fn new(alloc: Global, width: usize) -> Result<Room, AllocError>
        requires { width ≤ 129 }
        ensures probe { IfOk result (λ r. length r.probe.items ≡ width + 1) }
        ensures bars { IfOk result (λ r. length r.bars.items ≡ 2 * width) }
        ensures reached { IfOk result (λ r. length r.reached.items ≡ 2 * width) }
        ensures turned { IfOk result (λ r. length r.turned.items ≡ 2 * width) }
    {
        Ok(Room {
            probe: vec![in alloc; 0; width + 1]?,
            bars: vec![in alloc; 0; 2 * width]?,
            reached: vec![in alloc; 0; 2 * width]?,
            turned: vec![in alloc; 0; 2 * width]?,
            bar_reads: Vec::new(alloc),
            reach_reads: Vec::new(alloc),
            left: Left::new(alloc),
        })
    }

    /// Asks a row that is to be sifted with a table. Rows near it are looked for only where more pairs are left without
    /// them than the row has entries, and only at items that some of the rows that are left reach.
    pub fn ask(
        &mut self,
        system: &System,
        listed: &Pool,
        tree: &Tree,
        i: u32,
        table: &Table,
    ) -> Result<(), AllocError>
        requires indexed { HoldsRows tree.now listed.now }
        requires width { listed.now.width ≡ width system.now.equations + 1 }
        requires row { i < length listed.now.rows }
        requires sized { AreSized (16 * width system.now.equations) table.now.groups.items }
        requires room { IsRoom system.now.equations self.old }
        ensures room { IsRoom system.now.equations self.new }
        ensures asked { OnOk result (AreAsked system.now.equations listed.now.rows
            (row_at listed.now.rows i) self.new) }
    {
        let row = listed.row(RowId(i));
        fill_bars(system, listed, row, &mut self.bars);
        fill_reached(row, &mut self.reached);
        take_said(false, &self.reached, &mut self.bar_reads)?;
        take_said(true, &self.bars, &mut self.reach_reads)?;
        let width = system.width();
        let count = 16 * width as usize;
        let left = self
            .left
            .fill(table, count, &self.bar_reads, &self.reach_reads)?;
        if left <= u64::from(width) {
            return Ok(());
        }
        lower_bars(
            system,
            listed,
            tree,
            row,
            table,
            &mut self.left,
            &mut self.probe,
            &mut self.bars,
        );
        take_said(true, &self.bars, &mut self.reach_reads)
    }

    /// Writes what the negative of the row that was asked bars, and what it reaches.
    pub fn turn(&mut self, system: &System, listed: &Pool, negative: u32)
        requires width { listed.now.width ≡ width system.now.equations + 1 }
        requires row { negative < length listed.now.rows }
        requires room { IsRoom system.now.equations self.old }
        ensures room { IsRoom system.now.equations self.new }
        ensures turned { IsTurnedLevels self.old.bars.items self.new.turned.items }
        ensures reached { AreTrue (ReachesLine (row_at listed.now.rows negative)) false
            self.new.reached.items }
    {
        fill_turned(&self.bars, &mut self.turned);
        fill_reached(listed.row(RowId(negative)), &mut self.reached);
    }
}
