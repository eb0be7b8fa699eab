//! The caller's thread: it puts the parts of each norm together.

ghost use Rattle.std.specs.Prelude.{◌≡◌, ◌+◌, ◌++◌, ◌<◌, ◌≤◌, length, IfOk, OnOk, Err};
ghost use Rattle.lift_core.specs.ToolSystems.{width};
ghost use Rattle.lift_core.specs.Stages.{IsNextNorm};
ghost use Rattle.stage_store.specs.Stage.{IsDefined};
ghost use Rattle.stage_store.specs.Lifted.{IsLiftedDefined};
ghost use Rattle.standing_pool.specs.Inside.Gathered.{GainsSums, AreParts, IsNextClosed};
ghost use Rattle.standing_pool.specs.Ends.{IsComeTo};
ghost use Rattle.lift_run.specs.Runs.{bounds, AnswersEnd, KeepsSystem, HasAllSolutions};

use crate::hall::{Hall, no_parts};
use crate::news::Published;
use crate::part::PartRows;
use crate::sums::part_sums;
use lift_run::{NoKeep, Norms, RunEnd, run_with};
use row_pool::Pool;
use stage_store::{Closed, Finish, Hints, Lifted, Stage, in_order};
use std::alloc::{AllocError, Global};
use std::sync::{Arc, Wait};
use std::thread::Threads;
use worker_gate::Gate;

// Appends rows.
fn append(rows: &mut Pool, more: &Pool) -> Result<(), AllocError>
    requires { rows.old.width ≡ more.now.width }
    ensures width { rows.new.width ≡ rows.old.width }
    ensures rows { OnOk result (rows.new.rows ≡ rows.old.rows ++ more.now.rows) }
{
    if rows.len().checked_add(more.len()).is_none() {
        return Err(AllocError);
    }
    rows.reserve(more.len())?;
    rows.append_from(more);
    Ok(())
}

// Takes in the sums of a part: what its worker has put, where it is that part of the norm, and else what is worked out here.
fn take_part(
    alloc: Global,
    stage: &Stage,
    norm: u64,
    part: u32,
    parts: u32,
    given: Option<PartRows>,
    hints: &mut Hints,
    rows: &mut Pool,
) -> Result<(), AllocError>
    requires some { 0 < parts }
    requires defined { IsDefined stage.now }
    requires next { IsNextNorm stage.now.listed stage.now.waiting stage.now.norm norm }
    requires small { norm ≤ 9223372036854775807 }
    requires width { rows.old.width ≡ width stage.now.system.equations + 1 }
    ensures width { rows.new.width ≡ rows.old.width }
    ensures gains { OnOk result (GainsSums stage.now norm part parts rows.old.rows rows.new.rows) }
{
    if let Some(given) = &given {
        if given.fits(stage, norm, part, parts) {
            append(rows, given.rows())?;
            return Ok(());
        }
    }
    let sums = part_sums(alloc, stage, norm, part, parts, hints)?;
    append(rows, &sums)?;
    Ok(())
}

// The sums of all parts, in no order.
fn take_parts(
    alloc: Global,
    stage: &Stage,
    norm: u64,
    workers: u32,
    parts: &mut Vec<Option<PartRows>>,
    hints: &mut Hints,
) -> Result<Pool, AllocError>
    requires some { 0 < workers }
    requires defined { IsDefined stage.now }
    requires next { IsNextNorm stage.now.listed stage.now.waiting stage.now.norm norm }
    requires small { norm ≤ 9223372036854775807 }
    ensures width { IfOk result (λ rows. rows.width ≡ width stage.now.system.equations + 1) }
    ensures rows { IfOk result (λ rows. AreParts stage.now norm workers workers rows.rows) }
{
    stage.keeps();
    let mut rows = Pool::new(alloc, stage.system().width() + 1);
    for i in 0..workers {
        let given = match parts.get_mut(i as usize) {
            Some(part) => part.take(),
            None => None,
        };
        take_part(alloc, stage, norm, i, workers, given, hints, &mut rows)?;
    }
    Ok(rows)
}

// The irreducible sums of the next norm, each once, in order.
fn put_together(
    alloc: Global,
    stage: &Stage,
    norm: u64,
    workers: u32,
    parts: &mut Vec<Option<PartRows>>,
    hints: &mut Hints,
) -> Result<Closed, AllocError>
    requires some { 0 < workers }
    requires defined { IsDefined stage.now }
    requires next { IsNextNorm stage.now.listed stage.now.waiting stage.now.norm norm }
    requires small { norm ≤ 9223372036854775807 }
    ensures closed { IfOk result (IsNextClosed stage.now) }
    ensures norm { IfOk result (λ c. c.norm ≡ norm) }
{
    stage.keeps();
    let rows = take_parts(alloc, stage, norm, workers, parts, hints)?;
    let none = Pool::new(alloc, rows.width());
    Ok(Closed {
        norm,
        rows: in_order(alloc, &rows, &none)?,
    })
}

/// What the parts are put together with: the parts in hand, and what makes the search faster.
#[derive(Drop)]
pub(crate) struct Tools {
    parts: Vec<Option<PartRows>>,
    hints: Hints,
}

impl Tools {
    /// For so many workers.
    pub(crate) fn new(alloc: Global, workers: u32) -> Result<Tools, AllocError> {
        Ok(Tools {
            parts: no_parts(alloc, workers)?,
            hints: Hints::new(alloc)?,
        })
    }
}

// The one that puts the parts together.
#[derive(Drop)]
struct Leader<'a, R> {
    rt: &'a R,
    hall: &'a Hall,
    tools: Tools,
}

impl<'a, R: Wait> Leader<'a, R> {
    // Tells the workers a norm; where it is of another system, that nothing follows.
    fn tell(&self, stage: &Stage, closed: &Closed) -> Result<(), AllocError>
        requires defined { IsDefined stage.now }
        requires closed { IsNextClosed stage.now closed.now }
    {
        let hall = self.hall;
        match Published::tell(hall.alloc, &hall.system, stage, closed)? {
            Some(news) => hall.tell(self.rt, Arc::new(hall.alloc, news)?),
            None => hall.close(self.rt),
        }
        Ok(())
    }
}

impl<'a, R: Wait> Norms for Leader<'a, R> {
    ghost use Rattle.stage_store.specs.Stage.{IsDefined};

    ghost asks = { IsDefined };

    fn sums(&mut self, stage: &Stage, norm: u64) -> Result<Option<Closed>, AllocError> {
        let hall = self.hall;
        // The workers know it as well, and do not wait to be told.
        if let Some(closed) = stage.closed_without_sums(hall.alloc, norm) {
            return Ok(Some(closed));
        }
        hall.collect(self.rt, &mut self.tools.parts);
        let closed = put_together(
            hall.alloc,
            stage,
            norm,
            hall.limits.workers,
            &mut self.tools.parts,
            &mut self.tools.hints,
        )?;
        self.tell(stage, &closed)?;
        Ok(Some(closed))
    }
}

// Runs the lifting with the team.
fn run_team<R: Threads + Wait + Sync, G: Gate + Sync>(
    rt: &R,
    hall: &Hall,
    gate: &G,
    first: Lifted,
    tools: Tools,
) -> Result<Finish, RunEnd>
    requires { IsLiftedDefined first }
    ensures end { AnswersEnd (bounds hall.now.limits) first result }
    ensures system { IfOk result (KeepsSystem first) }
    ensures rows { IfOk result HasAllSolutions }
    ensures walk { IsComeTo (bounds hall.now.limits) first result }
    ensures sure { result ≡ Err RunEnd.Failed → ⊥ }
{
    let mut leader = Leader { rt, hall, tools };
    run_with(
        rt,
        hall.alloc,
        first,
        hall.limits,
        gate,
        &mut leader,
        &mut NoKeep,
    )
}

/// Runs the lifting with the team, and tells the workers when it is over.
pub(crate) fn lead<R: Threads + Wait + Sync, G: Gate + Sync>(
    rt: &R,
    hall: &Hall,
    gate: &G,
    first: Lifted,
    tools: Tools,
) -> Result<Finish, RunEnd>
    requires { IsLiftedDefined first }
    ensures end { AnswersEnd (bounds hall.now.limits) first result }
    ensures system { IfOk result (KeepsSystem first) }
    ensures rows { IfOk result HasAllSolutions }
    ensures walk { IsComeTo (bounds hall.now.limits) first result }
    ensures sure { result ≡ Err RunEnd.Failed → ⊥ }
{
    let end = run_team(rt, hall, gate, first, tools);
    hall.close(rt);
    end
}
