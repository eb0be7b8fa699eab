//! A norm that is worked out, on its way to the workers.

ghost use Rattle.std.specs.Prelude.{◌≡◌, ◌≤◌, IsTrue, IfOk};
ghost use Rattle.standing_pool.specs.Standing.{closed_of};
ghost use Rattle.stage_store.specs.Stage.{IsDefined};
ghost use Rattle.standing_pool.specs.Inside.Gathered.{IsNextClosed};

use lift_core::System;
use row_pool::Pool;
use stage_store::{Closed, Stage};
use std::alloc::{AllocError, Global};
use std::marker::Model;
use std::sync::Arc;

/// The irreducible sums of a next norm. That it is the next one, and that these are all its sums, over the lists that the system
/// defines at the place, is a part of the type.
#[derive(Drop)]
pub(crate) struct Published {
    system: Arc<System, Global>,
    number: u32,
    before: u64,
    closed: Closed,
}

impl Model for Published {
    ghost use Rattle.std.specs.Arc.{arc_value};
    ghost use Rattle.standing_pool.specs.Standing.{NewsValue, IsNews};

    ghost Value = { NewsValue };

    ghost view = { λ p. record {
      system = (arc_value p.system);
      number = p.number;
      closed = p.before;
      norm = p.closed.norm;
      rows = p.closed.rows;
    } };

    ghost invariant = { λ p.
        IsNews (arc_value p.system).equations p.number p.before p.closed.norm p.closed.rows };
}

// A copy of the rows.
fn copy_rows(alloc: Global, rows: &Pool) -> Result<Pool, AllocError>
    requires { rows.now.width ≤ 130 }
    ensures width { IfOk result (λ copy. copy.width ≡ rows.now.width) }
    ensures rows { IfOk result (λ copy. copy.rows ≡ rows.now.rows) }
{
    let mut copy = Pool::new(alloc, rows.width());
    copy.reserve(rows.len())?;
    copy.append_from(rows);
    Ok(copy)
}

impl Published {
    /// A copy of what the stage's next norm gives; nothing where the stage is of another system.
    pub(crate) fn tell(
        alloc: Global,
        system: &Arc<System, Global>,
        stage: &Stage,
        closed: &Closed,
    ) -> Result<Option<Published>, AllocError>
        requires defined { IsDefined stage.now }
        requires closed { IsNextClosed stage.now closed.now }
    {
        if !system.same(stage.system()) {
            return Ok(None);
        }
        stage.keeps();
        let rows = copy_rows(alloc, &closed.rows)?;
        Ok(Some(Published {
            system: Arc::try_clone(system)?,
            number: stage.number(),
            before: stage.norm(),
            closed: Closed {
                norm: closed.norm,
                rows,
            },
        }))
    }

    /// Whether it is of the stage's next norm.
    pub(crate) fn fits(&self, stage: &Stage) -> bool
        requires { IsDefined stage.now }
        ensures { IsTrue result → IsNextClosed stage.now (closed_of self.now) }
    {
        if self.number != stage.number() || self.before != stage.norm() {
            return false;
        }
        self.system.same(stage.system())
    }

    /// The norm and its sums.
    pub(crate) fn closed(&self) -> &Closed
        ensures { result.now ≡ closed_of self.now }
    {
        &self.closed
    }
}
