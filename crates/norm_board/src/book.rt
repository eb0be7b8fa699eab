//! The irreducible sums of some blocks of one norm.

ghost use Rattle.std.specs.Prelude.{◌≡◌, ◌+◌, ◌<◌, ◌≤◌, ◌++◌, ◌∷◌, [], true, false, length, OnOk, OnErr};
ghost use Rattle.lift_core.specs.ToolSystems.{width};
ghost use Rattle.norm_board.specs.Books.{IsAlike, IsSame};
ghost use Rattle.norm_board.specs.Blocks.{Sums, IsBlockOf};

use crate::block::Block;
use crate::runs::Runs;
use crate::scratch::Scratch;
use row_pool::Pool;
use stage_store::Stage;
use std::alloc::{AllocError, Global};
use std::marker::Model;
use std::snapshot::Snapshot;

/// The numbers of the blocks, and their irreducible sums: a vector is among the rows exactly where it is such a sum. That this
/// is so is a part of the type. The stage is a snapshot, which takes no bytes.
#[derive(Drop)]
pub struct Book {
    stage: Snapshot<Stage>,
    norm: u64,
    blocks: Runs,
    rows: Pool,
    room: bool,
}

impl Model for Book {
    ghost use Rattle.norm_board.specs.Books.{BookValue};
    ghost use Rattle.norm_board.specs.Inside.Fields.{BookOk};

    ghost Value = { BookValue };

    ghost view = { λ b. record {
      stage = b.stage.value;
      norm = b.norm;
      blocks = b.blocks.numbers;
      rows = b.rows.rows;
      room = b.room;
    } };

    ghost invariant = { λ b. BookOk b.stage.value b.norm b.blocks b.rows b.room };
}

impl Book {
    /// A book without blocks. Takes no memory.
    pub fn new(alloc: Global, stage: &Stage, norm: u64) -> Book
        requires small { norm ≤ 9223372036854775807 }
        ensures stage { (result.stage ≡ stage.now) × (result.norm ≡ norm) }
        ensures empty { (result.blocks ≡ []) × (result.rows ≡ []) × (result.room ≡ false) }
    {
        Book {
            stage: Snapshot::of(stage),
            norm,
            blocks: Runs::new(alloc),
            rows: Pool::new(alloc, stage.system().width() + 1),
            room: false,
        }
    }

    /// The sums, in any order. One may stand there more than once.
    pub fn rows(&self) -> &Pool
        ensures rows { result.now.rows ≡ self.now.rows }
        ensures width { result.now.width ≡ width self.now.stage.system.equations + 1 }
        ensures narrow { result.now.width ≤ 130 }
        ensures sums { Sums self.now.stage self.now.norm self.now.blocks self.now.rows }
    {
        &self.rows
    }

    /// Makes room for one block.
    pub fn ready(&mut self) -> Result<(), AllocError>
        ensures same { IsSame self.new self.old }
        ensures room { OnOk result (self.new.room ≡ true) }
        ensures err { OnErr result (self.new.room ≡ self.old.room) }
    {
        if self.rows.len() > u32::MAX - 257 {
            return Err(AllocError);
        }
        self.blocks.reserve()?;
        self.rows.reserve(256)?;
        self.room = true;
        Ok(())
    }

    /// Adds a block and its sums. Takes no memory.
    pub fn add(&mut self, stage: &Stage, scratch: &mut Scratch, block: Block)
        requires stage { self.old.stage ≡ stage.now }
        requires room { self.old.room ≡ true }
        requires block { IsBlockOf self.old.stage self.old.norm block }
        requires scratch { scratch.old ≡ width stage.now.system.equations + 1 }
        ensures alike { IsAlike self.new self.old }
        ensures blocks { self.new.blocks ≡ self.old.blocks ++ block.number ∷ [] }
        ensures room { self.new.room ≡ false }
        ensures scratch { scratch.new ≡ scratch.old }
    {
        stage.gather(
            self.norm,
            block.first,
            block.count,
            &mut scratch.hints,
            &mut scratch.sum,
            &mut self.rows,
        );
        self.blocks.push(block.number);
        self.room = false;
    }

    /// Takes the other's blocks and rows over.
    pub fn take_in(&mut self, other: &mut Book) -> Result<(), AllocError>
        requires { IsAlike self.old other.old }
        ensures alike { IsAlike self.new self.old × IsAlike other.new other.old }
        ensures ok { OnOk result
            ((self.new.blocks ≡ self.old.blocks ++ other.old.blocks) × (other.new.blocks ≡ [])
            × (other.new.rows ≡ [])) }
        ensures err { OnErr result (IsSame self.new self.old × IsSame other.new other.old) }
        ensures room { (self.new.room ≡ true → self.old.room ≡ true)
            × (other.new.room ≡ true → other.old.room ≡ true) }
    {
        if self.rows.len() > u32::MAX - other.rows.len() {
            return Err(AllocError);
        }
        self.rows.reserve(other.rows.len())?;
        self.blocks.reserve_for(&other.blocks)?;
        self.blocks.append(&mut other.blocks);
        self.rows.append_from(&other.rows);
        other.rows.clear();
        self.room = false;
        other.room = false;
        Ok(())
    }
}
