//! The pure machine of one norm: passes draw the numbers of blocks, put them into one book, and the book is closed once it
//! has them all.
//!
//! The board of the workers shows a state of this machine between any two of its steps. `laws::core_law` says that every
//! complete run of the machine has each block exactly once, whatever the order of events.

ghost use Rattle.std.specs.Prelude.{◌≡◌, ℕ, ◌+◌, ◌<◌, ◌≤◌, ◌↔◌, ◌++◌, ◌∷◌, List, [], replicate, length, IsTrue, IfOk, OnOk, OnErr};
ghost use Rattle.std.specs.List.{Contains};

use std::alloc::{AllocError, Global};
use std::marker::Model;

/// What may happen to the machine. Passes are numbered from 0.
#[derive(Clone, Copy, Debug, PartialEq, Eq, Drop)]
pub enum Event {
    /// The pass takes the next number.
    Draw { pass: u32 },
    /// The numbers that the pass holds go to the end of the book.
    Put { pass: u32 },
    /// The book is closed.
    Close,
}

/// Why an event was refused. Nothing has changed then.
#[derive(Clone, Copy, Debug, PartialEq, Eq, Drop)]
pub enum StepEnd {
    /// The machine's state does not allow the event.
    NotAllowed,
    Memory,
}

impl From<AllocError> for StepEnd {
    ghost use Rattle.lift_core.specs.declared.machine.StepEnd.TheVariants.{Memory};

    ghost from_gives = { λ _ e. e ≡ Memory };

    fn from(_: AllocError) -> StepEnd {
        StepEnd::Memory
    }
}

// The numbers of some blocks, seen as a list.
#[derive(Debug, Drop)]
struct Numbers {
    items: Vec<u64>,
}

impl Model for Numbers {
    ghost use Rattle.std.specs.Prelude.{List, ℕ};

    ghost Value = { List ℕ };

    ghost view = { λ n. n.items.items };
}

impl Numbers {
    // No numbers.
    fn new(alloc: Global) -> Numbers
        ensures { result ≡ [] }
    {
        Numbers {
            items: Vec::new(alloc),
        }
    }

    // Adds a number at the end.
    fn push(&mut self, number: u64) -> Result<(), AllocError>
        ensures ok { OnOk result (self.new ≡ self.old ++ number ∷ []) }
        ensures err { OnErr result (self.new ≡ self.old) }
    {
        self.items.push(number)?;
        Ok(())
    }

    // Moves the other's numbers to the end of these.
    fn append(&mut self, other: &mut Numbers) -> Result<(), AllocError>
        ensures ok { OnOk result ((self.new ≡ self.old ++ other.old) × (other.new ≡ [])) }
        ensures err { OnErr result ((self.new ≡ self.old) × (other.new ≡ other.old)) }
    {
        self.items.append(&mut other.items)
    }

    // Whether a number is among these.
    fn contains(&self, number: u64) -> bool
        ensures { IsTrue result ↔ Contains self.now number }
    {
        self.items.contains(&number)
    }
}

/// The machine.
#[derive(Debug, Drop)]
pub struct Core {
    blocks: u64,
    next: u64,
    held: Vec<Numbers>,
    book: Numbers,
    closed: bool,
}

impl Model for Core {
    ghost use Rattle.lift_core.specs.PureMachine.{CoreState};

    ghost Value = { CoreState };

    ghost view = { λ c. record { blocks = c.blocks; next = c.next; held = c.held.items; book = c.book; closed = c.closed } };
}

impl Core {
    ghost use Rattle.lift_core.specs.PureMachine.{core_start, HasAllBlocks, MayCome, after_draw, after_put, Steps, RunsOr};

    /// The machine of this many blocks and passes before its first event.
    ///
    /// # Errors
    /// Memory ran out.
    pub fn start(alloc: Global, blocks: u64, passes: u32) -> Result<Core, AllocError>
        requires some { 1 ≤ passes }
        requires few { passes ≤ 32 }
        ensures { IfOk result (λ core. core ≡ core_start blocks passes) }
    {
        let mut held = Vec::new(alloc);
        for _pass in 0..passes {
            held.push(Numbers::new(alloc))?;
        }
        Ok(Core {
            blocks,
            next: 0,
            held,
            book: Numbers::new(alloc),
            closed: false,
        })
    }

    /// Whether the book is closed.
    pub fn closed(&self) -> bool
        ensures { result ≡ self.now.closed }
    {
        self.closed
    }

    // Whether each number of a block is in the book.
    fn is_whole(&self) -> bool
        ensures { IsTrue result ↔ HasAllBlocks self.now.book self.now.blocks }
    {
        for number in 0..self.blocks {
            if !self.book.contains(number) {
                return false;
            }
        }
        true
    }

    /// Does one event.
    ///
    /// # Errors
    /// The event is not allowed, or memory ran out; nothing has changed.
    pub fn step(&mut self, event: Event) -> Result<(), StepEnd>
        ensures { Steps self.old event self.new result }
    {
        if self.closed {
            return Err(StepEnd::NotAllowed);
        }
        match event {
            Event::Draw { pass } => {
                if pass as usize >= self.held.len() || self.next >= self.blocks {
                    return Err(StepEnd::NotAllowed);
                }
                self.held[pass as usize].push(self.next)?;
                self.next += 1;
                Ok(())
            }
            Event::Put { pass } => {
                if pass as usize >= self.held.len() {
                    return Err(StepEnd::NotAllowed);
                }
                self.book.append(&mut self.held[pass as usize])?;
                Ok(())
            }
            Event::Close => {
                if !self.is_whole() {
                    return Err(StepEnd::NotAllowed);
                }
                self.closed = true;
                Ok(())
            }
        }
    }

    /// Does the events one after another.
    ///
    /// # Errors
    /// The place of the first event that was refused, and why; those before it are done.
    pub fn run(&mut self, events: &[Event]) -> Result<(), (usize, StepEnd)>
        ensures { RunsOr self.old events.now self.new result }
    {
        for (i, event) in events.iter().enumerate() {
            match self.step(*event) {
                Ok(()) => {}
                Err(end) => return Err((i, end)),
            }
        }
        Ok(())
    }
}
