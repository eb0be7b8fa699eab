//! A stage that is built anew from its rows goes on as the stage that it is of.

ghost use Rattle.std.specs.Prelude.{◌≡◌, ◌+◌, IfOk};
ghost use Rattle.lift_core.specs.ToolSystems.{width};

use crate::stages::{close_some, first, story};
use row_pool::{Pool, RowId};
use stage_store::{Next, Stage};
use std::alloc::{AllocError, Global};
use std::test::Fail;

/// A copy of the listed rows.
pub fn listed_rows(alloc: Global, stage: &Stage) -> Result<Pool, AllocError>
    ensures width { IfOk result (λ rows. rows.width ≡ width stage.now.system.equations + 1) }
    ensures rows { IfOk result (λ rows. rows.rows ≡ stage.now.listed) }
{
    let mut rows = Pool::new(alloc, stage.system().width() + 1);
    rows.reserve(stage.len())?;
    for i in 0..stage.len() {
        rows.push(stage.row(RowId(i)));
    }
    Ok(rows)
}

// A copy of the rows that wait.
fn waiting_rows(alloc: Global, stage: &Stage) -> Result<Pool, AllocError>
    ensures width { IfOk result (λ rows. rows.width ≡ width stage.now.system.equations + 1) }
    ensures rows { IfOk result (λ rows. rows.rows ≡ stage.now.waiting) }
{
    let mut rows = Pool::new(alloc, stage.system().width() + 1);
    rows.reserve(stage.waiting_len())?;
    for i in 0..stage.waiting_len() {
        rows.push(stage.waiting_row(i));
    }
    Ok(rows)
}

// The same stage, built anew from its rows.
fn rebuilt(alloc: Global, stage: &Stage) -> Result<Stage, AllocError> {
    if stage.used() > 4_611_686_018_427_387_904 {
        return Err(AllocError);
    }
    stage.keeps();
    let system = stage.system().copy(alloc)?;
    let listed = listed_rows(alloc, stage)?;
    let waiting = waiting_rows(alloc, stage)?;
    Stage::rebuild(
        alloc,
        system,
        stage.number(),
        stage.norm(),
        stage.used(),
        listed,
        waiting,
    )
}

// What the stage that is built anew from these rows tells.
fn retold(alloc: Global, stage: &Stage) -> Result<String, AllocError> {
    let mut other = rebuilt(alloc, stage)?;
    story(alloc, &mut other)
}

// What a stage tells after so many norms, and what the stage that is built anew then tells.
fn both_told(alloc: Global, stage: &mut Stage, norms: u32) -> Result<(String, String), AllocError> {
    close_some(alloc, stage, norms)?;
    let other = retold(alloc, stage)?;
    Ok((story(alloc, stage)?, other))
}

// The same of one equation.
fn both(alloc: Global, norms: u32) -> Result<(String, String), AllocError> {
    let mut stage = first(alloc, [3, 5, -7], 2, None)?;
    both_told(alloc, &mut stage, norms)
}

// The next norm, the number of listed rows and the used pairs after so many norms.
fn state_after(
    alloc: Global,
    stage: &mut Stage,
    norms: u32,
) -> Result<(Option<Next>, u32, u64), AllocError> {
    close_some(alloc, stage, norms)?;
    Ok((stage.next_norm(), stage.len(), stage.used()))
}

// The same of the one equation, whose stage closes 13 norms.
fn last_state(alloc: Global) -> Result<(Option<Next>, u32, u64), AllocError> {
    let mut stage = first(alloc, [3, 5, -7], 2, None)?;
    state_after(alloc, &mut stage, 13)
}

#[test]
fn rebuilt_stages_go_on_alike(rt: HostRuntime) -> Result<(), Fail> {
    for norms in [0, 3, 12, 13] {
        let (told, other) = both(rt.alloc(), norms)?;
        assert_eq!(rt; other.as_str(), told.as_str());
    }
    Ok(())
}

// That no norm is left then, 48 rows are listed and 256 pairs used was counted by a program in another language.
#[test]
fn last_norm_is_the_thirteenth(rt: HostRuntime) -> Result<(), Fail> {
    assert_eq!(rt; last_state(rt.alloc())?, (None, 48, 256));
    Ok(())
}
