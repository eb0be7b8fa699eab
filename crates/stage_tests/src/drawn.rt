//! Drawn systems of one and of two equations: the sums of a stage's first norms beside the plain definition. So are those of the
//! norms around each, which are not open: there `gather` goes through all pairs of the norm.

ghost use Rattle.std.specs.Prelude.{◌≤◌};
ghost use Rattle.int_vector.specs.Range.{InRange, IsCap};
ghost use Rattle.lift_core.specs.ToolSystems.{IsSign};

use crate::plain::count_new_sums;
use crate::stages::{close_next, close_some, first, first_of_two};
use crate::sums::agrees_in_ranges;
use stage_store::{Lifted, Next, Stage};
use std::alloc::{AllocError, Global};
use std::test::Fail;

// So many norms of a stage are compared.
const NORMS: u32 = 8;
// More norms than a stage of these tests has.
const ALL_NORMS: u32 = 100;
// So many systems are drawn of a kind.
const SYSTEMS: u32 = 4;
// The greatest norm.
const LARGEST: u64 = 9_223_372_036_854_775_807;
// More than any entry of these tests.
const NO_CAP: u64 = 1_000_000;

/// What was compared: the pairs that have new sums, of norms that are open and of others, and whether all agreed.
#[derive(Clone, Copy, Debug, PartialEq, Eq, Drop)]
struct Seen {
    open: u32,
    others: u32,
    agree: bool,
}

impl Seen {
    // That all agreed, of so many pairs.
    fn agreed(open: u32, others: u32) -> Seen {
        Seen {
            open,
            others,
            agree: true,
        }
    }

    fn and(self, other: Seen) -> Seen {
        Seen {
            open: self.open.saturating_add(other.open),
            others: self.others.saturating_add(other.others),
            agree: self.agree && other.agree,
        }
    }
}

// The next number of a sequence, from -7 to 7.
fn draw(state: &mut u64) -> i64
    ensures { InRange result }
{
    let next = state
        .wrapping_mul(6_364_136_223_846_793_005)
        .wrapping_add(1_442_695_040_888_963_407);
    *state = next;
    ((next >> 33) % 15) as i64 - 7
}

// The next norm, which is open.
fn compared_open(alloc: Global, stage: &Stage, norm: u64, cap: u64) -> Result<Seen, AllocError>
    requires { norm ≤ 9223372036854775807 }
{
    Ok(Seen {
        open: count_new_sums(stage, norm, cap),
        others: 0,
        agree: agrees_in_ranges(alloc, stage, norm, cap)?,
    })
}

// A norm that is not open: `gather` goes through all its pairs.
fn compared_other(alloc: Global, stage: &Stage, norm: u64, cap: u64) -> Result<Seen, AllocError>
    requires { norm ≤ 9223372036854775807 }
{
    Ok(Seen {
        open: 0,
        others: count_new_sums(stage, norm, cap),
        agree: agrees_in_ranges(alloc, stage, norm, cap)?,
    })
}

// The norm before the next one, whose pairs are done with, and the five behind it.
fn compared_others(alloc: Global, stage: &Stage, norm: u64, cap: u64) -> Result<Seen, AllocError> {
    let mut seen = Seen::agreed(0, 0);
    for k in 0..7 {
        let other = norm.saturating_sub(1).saturating_add(k).min(LARGEST);
        if other != norm {
            seen = seen.and(compared_other(alloc, stage, other, cap)?);
        }
    }
    Ok(seen)
}

// Compares and closes the first norms of a stage.
fn compared(alloc: Global, stage: &mut Stage, cap: u64) -> Result<Seen, AllocError> {
    let mut seen = Seen::agreed(0, 0);
    for _ in 0..NORMS {
        let Some(Next::Norm(norm)) = stage.next_norm() else {
            return Ok(seen);
        };
        seen = seen.and(compared_open(alloc, stage, norm, cap)?);
        seen = seen.and(compared_others(alloc, stage, norm, cap)?);
        close_next(alloc, stage)?;
    }
    Ok(seen)
}

// The next stage, where all norms of this one are closed.
fn lifted(stage: Stage) -> Result<Stage, AllocError> {
    match stage.next_norm() {
        Some(_) => Err(AllocError),
        None => match stage.lift() {
            Ok(Lifted::Next(next)) => Ok(next),
            _ => Err(AllocError),
        },
    }
}

// The first stage of an equation.
fn one(
    alloc: Global,
    state: &mut u64,
    sign: i8,
    cap: Option<u64>,
    most: u64,
) -> Result<Seen, AllocError>
    requires sign { IsSign sign }
    requires cap { IsCap cap }
{
    let row = [draw(state), draw(state), draw(state)];
    let mut stage = first(alloc, row, sign, cap)?;
    compared(alloc, &mut stage, most)
}

// The first stage of two equations, all of whose norms are closed.
fn closed(alloc: Global, state: &mut u64, sign: i8, cap: Option<u64>) -> Result<Stage, AllocError>
    requires sign { IsSign sign }
    requires cap { IsCap cap }
{
    let rows = [
        draw(state),
        draw(state),
        draw(state),
        draw(state),
        draw(state),
        draw(state),
    ];
    let mut stage = first_of_two(alloc, rows, sign, cap)?;
    close_some(alloc, &mut stage, ALL_NORMS)?;
    Ok(stage)
}

// The second stage of two equations.
fn two(
    alloc: Global,
    state: &mut u64,
    sign: i8,
    cap: Option<u64>,
    most: u64,
) -> Result<Seen, AllocError>
    requires sign { IsSign sign }
    requires cap { IsCap cap }
{
    let mut stage = lifted(closed(alloc, state, sign, cap)?)?;
    compared(alloc, &mut stage, most)
}

// Systems of one and of two equations over columns of this sign and this cap.
fn systems(alloc: Global, sign: i8, cap: Option<u64>, most: u64) -> Result<(Seen, Seen), AllocError>
    requires sign { IsSign sign }
    requires cap { IsCap cap }
{
    let mut state: u64 = 7;
    let mut ones = Seen::agreed(0, 0);
    let mut twos = Seen::agreed(0, 0);
    for _ in 0..SYSTEMS {
        ones = ones.and(one(alloc, &mut state, sign, cap, most)?);
        twos = twos.and(two(alloc, &mut state, sign, cap, most)?);
    }
    Ok((ones, twos))
}

// Over the integers, the natural numbers, and the integers from -3 to 3. The numbers of pairs were counted by a program in
// another language.
#[test]
fn drawn_systems_agree(rt: HostRuntime) -> Result<(), Fail> {
    let alloc = rt.alloc();
    assert_eq!(rt;
        (
            systems(alloc, 2, None, NO_CAP)?,
            systems(alloc, 1, None, NO_CAP)?,
            systems(alloc, 2, Some(3), 3)?,
        ),
        (
            (Seen::agreed(116, 50), Seen::agreed(16, 14)),
            (Seen::agreed(22, 6), Seen::agreed(6, 2)),
            (Seen::agreed(96, 32), Seen::agreed(8, 2)),
        )
    );
    Ok(())
}
