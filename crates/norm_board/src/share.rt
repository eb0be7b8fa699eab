//! What one worker has worked out and not put yet, and the book while a pass holds it.

ghost use Rattle.std.specs.Prelude.{◌≡◌, ◌+◌, ◌<◌, ◌≤◌, ◌++◌, ◌∷◌, ℕ, [], true, length, OnOk, OnErr};
ghost use Rattle.lift_core.specs.ToolSystems.{width};
ghost use Rattle.lift_core.specs.Times.{times};
ghost use Rattle.norm_board.specs.Books.{IsAlike, IsSame};
ghost use Rattle.norm_board.specs.Blocks.{Sums, IsBlockOf};

use crate::block::Block;
use crate::book::Book;
use crate::scratch::{Scratch, make_scratch};
use row_pool::Pool;
use stage_store::Stage;
use std::alloc::{AllocError, Global};
use std::marker::{Model, PhantomData};

/// The irreducible sums of the blocks that a worker has drawn and not put yet, seen as its stage and norm, its blocks and its
/// rows, and whether it has room for one block more. A vector is among the rows exactly where it is the irreducible sum of a
/// pair in one of the blocks.
#[derive(Drop)]
pub struct Share<'s> {
    base: &'s Stage,
    alloc: Global,
    book: Book,
    scratch: Option<Scratch>,
}

impl<'s> Model for Share<'s> {
    ghost use Rattle.norm_board.specs.Books.{BookValue};
    ghost use Rattle.norm_board.specs.Inside.Fields.{ShareOk};

    ghost Value = { BookValue };

    ghost view = { λ s. s.book };

    ghost invariant = { λ s. ShareOk s.base.now s.book s.scratch };
}

/// The book of a board, which a pass holds together with the turn. It is seen as a share is.
#[derive(Drop)]
pub struct Turn<'s> {
    book: Book,
    life: PhantomData<&'s Stage>,
}

impl<'s> Model for Turn<'s> {
    ghost use Rattle.norm_board.specs.Books.{BookValue};

    ghost Value = { BookValue };

    ghost view = { λ t. t.book };
}

impl<'s> Turn<'s> {
    pub(crate) fn new(book: Book) -> Turn<'s>
        ensures { result ≡ book }
    {
        Turn {
            book,
            life: PhantomData,
        }
    }

    pub(crate) fn into_book(self) -> Book
        ensures { result ≡ self.entry }
    {
        let Turn { book, life: _ } = self;
        book
    }

    pub(crate) fn rows(&self) -> &Pool
        ensures rows { result.now.rows ≡ self.now.rows }
        ensures width { result.now.width ≡ width self.now.stage.system.equations + 1 }
        ensures narrow { result.now.width ≤ 130 }
        ensures sums { Sums self.now.stage self.now.norm self.now.blocks self.now.rows }
    {
        self.book.rows()
    }

    /// Moves the share's blocks and rows into the book. The share is empty afterwards.
    ///
    /// # Errors
    /// Memory ran out, or the book would reach 2^32 rows; both are as they were.
    pub fn fill(&mut self, share: &mut Share<'s>) -> Result<(), AllocError>
        requires { IsAlike self.old share.old }
        ensures alike { IsAlike self.new self.old × IsAlike share.new share.old }
        ensures ok { OnOk result
            ((self.new.blocks ≡ self.old.blocks ++ share.old.blocks) × (share.new.blocks ≡ [])
            × (share.new.rows ≡ [])) }
        ensures err { OnErr result (IsSame self.new self.old × IsSame share.new share.old) }
    {
        self.book.take_in(&mut share.book)
    }
}

impl<'s> Share<'s> {
    /// A share without blocks. Takes no memory.
    pub fn new(alloc: Global, base: &'s Stage, norm: u64) -> Share<'s>
        requires small { norm ≤ 9223372036854775807 }
        ensures stage { (result.stage ≡ base.entry.now) × (result.norm ≡ norm) }
        ensures empty { (result.blocks ≡ []) × (result.rows ≡ []) }
    {
        Share {
            base,
            alloc,
            book: Book::new(alloc, base, norm),
            scratch: None,
        }
    }

    /// Makes room for one block, so that to evaluate one takes no memory.
    ///
    /// # Errors
    /// Memory ran out, or the share could reach 2^32 rows.
    pub fn ready(&mut self) -> Result<(), AllocError>
        ensures same { IsSame self.new self.old }
        ensures room { OnOk result (self.new.room ≡ true) }
    {
        let width = self.base.system().width() + 1;
        make_scratch(self.alloc, &mut self.scratch, width)?;
        self.book.ready()
    }

    /// Adds a block and its irreducible sums. Takes no memory, and uses the room up.
    pub fn evaluate(&mut self, block: Block)
        requires room { self.old.room ≡ true }
        requires block { IsBlockOf self.old.stage self.old.norm block }
        ensures alike { IsAlike self.new self.old }
        ensures blocks { self.new.blocks ≡ self.old.blocks ++ block.number ∷ [] }
    {
        let Some(scratch) = self.scratch.as_mut() else {
            unreachable!()
        };
        self.book.add(self.base, scratch, block);
    }

    /// Takes the other's blocks and rows over. The other is empty afterwards.
    ///
    /// # Errors
    /// Memory ran out, or this share would reach 2^32 rows; both are as they were.
    pub fn absorb(&mut self, other: &mut Share<'s>) -> Result<(), AllocError>
        requires alike { IsAlike self.old other.old }
        requires apart { (x : ℕ) → times x self.old.blocks + times x other.old.blocks ≤ 1 }
        ensures alike { IsAlike self.new self.old × IsAlike other.new other.old }
        ensures ok { OnOk result
            ((self.new.blocks ≡ self.old.blocks ++ other.old.blocks) × (other.new.blocks ≡ [])
            × (other.new.rows ≡ [])) }
        ensures err { OnErr result (IsSame self.new self.old × IsSame other.new other.old) }
    {
        self.book.take_in(&mut other.book)
    }

    /// The sums, in any order. One may stand there more than once.
    pub fn rows(&self) -> &Pool
        ensures rows { result.now.rows ≡ self.now.rows }
        ensures width { result.now.width ≡ width self.now.stage.system.equations + 1 }
        ensures narrow { result.now.width ≤ 130 }
        ensures sums { Sums self.now.stage self.now.norm self.now.blocks self.now.rows }
    {
        self.book.rows()
    }
}
