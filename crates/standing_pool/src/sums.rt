//! The irreducible sums of one part of a norm, worked out over a stage.

ghost use Rattle.std.specs.Prelude.{◌≡◌, ◌+◌, ◌<◌, ◌≤◌, [], length, IfOk, OnOk};
ghost use Rattle.lift_core.specs.ToolSystems.{width};
ghost use Rattle.lift_core.specs.Stages.{IsNextNorm};
ghost use Rattle.stage_store.specs.Classes.{pairs_of, row_at};
ghost use Rattle.stage_store.specs.Numbered.{pair_at};
ghost use Rattle.standing_pool.specs.Parts.{IsPartList};
ghost use Rattle.standing_pool.specs.Inside.Gathered.{GainsPart};

use row_pool::{Pool, RowId};
use stage_store::{Hints, Stage, in_order};
use std::alloc::{AllocError, Global};

/// Makes room for a row more.
fn make_room(rows: &mut Pool) -> Result<(), AllocError>
    ensures same { (rows.new.width ≡ rows.old.width) × (rows.new.rows ≡ rows.old.rows) }
    ensures room { OnOk result (1 ≤ rows.new.spare) }
{
    match rows.len().checked_add(1) {
        Some(_) => rows.reserve(1),
        None => Err(AllocError),
    }
}

/// Takes in the sum of the pair with a number, whose first row is at a place, where it is one of the part.
fn gather_pair(
    stage: &Stage,
    norm: u64,
    part: u32,
    parts: u32,
    number: u64,
    place: RowId,
    hints: &mut Hints,
    sum: &mut [i64],
    rows: &mut Pool,
) -> Result<(), AllocError>
    requires small { norm ≤ 9223372036854775807 }
    requires some { 0 < parts }
    requires below { number < length (pairs_of stage.now.listed norm) }
    requires inside { place.0 < length stage.now.listed }
    requires first { (pair_at stage.now norm number).0 ≡ row_at stage.now.listed place.0 }
    requires sum { length sum.old ≡ width stage.now.system.equations + 1 }
    requires width { rows.old.width ≡ width stage.now.system.equations + 1 }
    ensures sum { length sum.new ≡ length sum.old }
    ensures width { rows.new.width ≡ rows.old.width }
    ensures gains { OnOk result
        (GainsPart stage.now norm part parts number (number + 1) rows.old.rows rows.new.rows) }
{
    stage.keeps();
    if place.0 % parts != part {
        return Ok(());
    }
    make_room(rows)?;
    stage.gather(norm, number, 1, hints, sum, rows);
    Ok(())
}

/// The sums of a part, in no order; some may come more than once.
fn gather_part(
    alloc: Global,
    stage: &Stage,
    norm: u64,
    part: u32,
    parts: u32,
    hints: &mut Hints,
) -> Result<Pool, AllocError>
    requires small { norm ≤ 9223372036854775807 }
    requires some { 0 < parts }
    ensures width { IfOk result (λ rows. rows.width ≡ width stage.now.system.equations + 1) }
    ensures gains { IfOk result
        (λ rows. GainsPart stage.now norm part parts 0
        (length (pairs_of stage.now.listed norm)) [] rows.rows) }
{
    stage.keeps();
    let width = stage.system().width() + 1;
    let mut sum: Vec<i64> = vec![in alloc; 0; width as usize]?;
    let mut rows = Pool::new(alloc, width);
    // So the numbers are known to be in range.
    let _pairs = stage.pairs_at(norm);
    let mut first = 0;
    while let Some((number, place)) = stage.next_pair(norm, first) {
        gather_pair(
            stage, norm, part, parts, number, place, hints, &mut sum, &mut rows,
        )?;
        first = number + 1;
    }
    Ok(rows)
}

/// The irreducible sums of a part of the next norm, each once, in order.
pub fn part_sums(
    alloc: Global,
    stage: &Stage,
    norm: u64,
    part: u32,
    parts: u32,
    hints: &mut Hints,
) -> Result<Pool, AllocError>
    requires some { 0 < parts }
    requires next { IsNextNorm stage.now.listed stage.now.waiting stage.now.norm norm }
    requires small { norm ≤ 9223372036854775807 }
    ensures width { IfOk result (λ rows. rows.width ≡ width stage.now.system.equations + 1) }
    ensures rows { IfOk result
        (λ rows. IsPartList stage.now.system.equations stage.now.listed norm part parts rows.rows) }
{
    stage.keeps();
    let rows = gather_part(alloc, stage, norm, part, parts, hints)?;
    let none = Pool::new(alloc, rows.width());
    let sums = in_order(alloc, &rows, &none)?;
    Ok(sums)
}
