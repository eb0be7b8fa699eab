//! Where the workers and the caller's thread leave things for each other, and wait.

ghost use Rattle.std.specs.Prelude.{◌≡◌, ◌≤◌, IfOk};

use crate::news::Published;
use crate::part::PartRows;
use lift_core::System;
use lift_run::Limits;
use std::alloc::{AllocError, Global};
use std::mem;
use std::sync::{Arc, Condvar, Mutex, Wait};

/// What a worker is at.
#[derive(Clone, Copy, Debug, PartialEq, Eq, Drop)]
enum Turn {
    /// It works, and will put its part.
    Working,
    /// It has put its part, and waits for the next norm.
    Waiting,
    /// It puts nothing more.
    Gone,
}

/// What lies under the lock.
#[derive(Drop)]
struct Desk {
    turns: Vec<Turn>,
    parts: Vec<Option<PartRows>>,
    news: Option<Arc<Published, Global>>,
    closed: bool,
}

impl Desk {
    /// Whether a worker is still to put its part.
    fn is_working(&self) -> bool {
        for turn in &self.turns {
            if *turn == Turn::Working {
                return true;
            }
        }
        false
    }

    /// Whether a worker is to wait for the next norm.
    fn is_waiting(&self, worker: u32) -> bool {
        !self.closed && self.turns.get(worker as usize).copied() == Some(Turn::Waiting)
    }

    fn set_turn(&mut self, worker: u32, to: Turn) {
        if let Some(turn) = self.turns.get_mut(worker as usize) {
            *turn = to;
        }
    }

    fn put(&mut self, worker: u32, part: PartRows) {
        if let Some(place) = self.parts.get_mut(worker as usize) {
            *place = Some(part);
        }
        self.set_turn(worker, Turn::Waiting);
    }

    /// Tells a norm: whoever waits for it works from now on.
    fn tell(&mut self, news: Arc<Published, Global>) {
        self.news = Some(news);
        for i in 0..self.turns.len() {
            if self.turns[i] == Turn::Waiting {
                self.turns[i] = Turn::Working;
            }
        }
    }

    /// The norm that was told, unless all is over.
    fn told(&self) -> Option<Arc<Published, Global>> {
        if self.closed {
            return None;
        }
        match &self.news {
            Some(news) => Arc::try_clone(news).ok(),
            None => None,
        }
    }
}

/// No part of each worker.
pub(crate) fn no_parts(alloc: Global, workers: u32) -> Result<Vec<Option<PartRows>>, AllocError> {
    let mut parts = Vec::with_capacity(alloc, workers as usize)?;
    for _ in 0..workers {
        parts.push(None)?;
    }
    Ok(parts)
}

/// What all threads of the team share: the system and the limits of the run, and the desk under its lock. Whoever waits sleeps
/// until something is put or told. No clause speaks of who comes when: all that is taken from the desk is right by its type.
#[derive(Drop)]
pub(crate) struct Hall {
    pub(crate) alloc: Global,
    pub(crate) system: Arc<System, Global>,
    pub(crate) limits: Limits,
    desk: Mutex<Desk>,
    put: Condvar,
    told: Condvar,
    ghost workers: { 1 ≤ limits.workers },
    ghost few: { limits.workers ≤ 32 },
    ghost pairs: { limits.pairs ≤ 4611686018427387904 },
    ghost some: { 1 ≤ limits.rows },
    ghost most: { limits.rows ≤ 2097152 },
}

impl Hall {
    /// For so many workers, who all begin at once.
    pub(crate) fn new(alloc: Global, system: System, limits: Limits) -> Result<Hall, AllocError>
        requires workers { 1 ≤ limits.workers }
        requires few { limits.workers ≤ 32 }
        requires pairs { limits.pairs ≤ 4611686018427387904 }
        requires some { 1 ≤ limits.rows }
        requires most { limits.rows ≤ 2097152 }
        ensures { IfOk result (λ h. h.limits ≡ limits) }
    {
        let turns = vec![in alloc; Turn::Working; limits.workers as usize]?;
        let parts = no_parts(alloc, limits.workers)?;
        Ok(Hall {
            alloc,
            system: Arc::new(alloc, system)?,
            limits,
            desk: Mutex::new(Desk {
                turns,
                parts,
                news: None,
                closed: false,
            }),
            put: Condvar::new(),
            told: Condvar::new(),
        })
    }

    /// Puts a worker's part.
    pub(crate) fn put<R: Wait>(&self, rt: &R, worker: u32, part: PartRows) {
        self.desk.lock(rt).put(worker, part);
        self.put.notify_all();
    }

    /// A worker puts nothing more.
    pub(crate) fn leave<R: Wait>(&self, rt: &R, worker: u32) {
        self.desk.lock(rt).set_turn(worker, Turn::Gone);
        self.put.notify_all();
    }

    /// Waits until each worker has put its part or is gone, and takes the parts in exchange for those in hand.
    pub(crate) fn collect<R: Wait>(&self, rt: &R, parts: &mut Vec<Option<PartRows>>) {
        let mut desk = self
            .put
            .wait_while(rt, self.desk.lock(rt), |desk| desk.is_working());
        mem::swap(&mut desk.parts, parts);
    }

    /// Tells a norm to those that wait for it.
    pub(crate) fn tell<R: Wait>(&self, rt: &R, news: Arc<Published, Global>) {
        self.desk.lock(rt).tell(news);
        self.told.notify_all();
    }

    /// Waits for the norm that follows on a worker's part; nothing where all is over.
    pub(crate) fn listen<R: Wait>(&self, rt: &R, worker: u32) -> Option<Arc<Published, Global>> {
        let desk = self
            .told
            .wait_while(rt, self.desk.lock(rt), |desk| desk.is_waiting(worker));
        desk.told()
    }

    /// Tells all that nothing follows.
    pub(crate) fn close<R: Wait>(&self, rt: &R) {
        self.desk.lock(rt).closed = true;
        self.told.notify_all();
    }
}
