//! What a row says: which amounts its entries reach, and which amounts of a partner's bar a new sum with it.
//!
//! An item is a column with a sign, and has eight levels, of the amounts 1, 2, 4 to 128. A row reaches a level of an item
//! where its entry has the sign and at least that amount. It bars a level of an item where no partner that reaches it
//! makes an irreducible sum with it: since their entries have opposite signs, since the sum's is above the cap, or since
//! a listed row with last entry 0 is below the row with that amount more.

ghost use Rattle.std.specs.Prelude.{◌≡◌, ◌↔◌, true, false, ◌≤ℤ◌, ◌+◌, ◌*◌, ◌/◌, ◌<◌, ◌≤◌, ◌^◌, ℕ, ℤ, List, pos, length, slice_index_or, IfSome, IsTrue, All, nat_abs};
ghost use Rattle.std.specs.List.{Contains};
ghost use Rattle.lift_core.specs.ToolSystems.{width};
ghost use Rattle.stage_store.specs.Indexed.{HoldsRows};
ghost use Rattle.stage_store.specs.Levels.{BarsLine, ReachesLine, AreTrue, IsOnSide, IsRaised, IsNear, IsNearOr, IsAgainst, IsFull, IsBarLevel, IsReachLevel};
ghost use Rattle.lift_core.specs.Halves.{IsReducible};

use crate::left::Left;
use crate::reach::{fill_probe, find_listed};
use crate::table::Table;
use int_vector::below;
use lift_core::System;
use reduce_tree::Tree;
use row_pool::{Pool, RowId};

/// How many levels an item has.
const LEVELS: u8 = 8;

/// The greatest entry to which each amount can be added in range.
const EDGE: i64 = 9_223_372_036_854_775_679;

/// The amount of a level.
fn amount(level: u8) -> u64
    requires { level < 8 }
    ensures amount { result ≡ 2 ^ level }
    ensures most { result ≤ 128 }
{
    1_u64 << level
}

/// The entry with the amount of a level more; near the end of the range, itself.
fn raised_up(entry: i64, level: u8) -> i64
    requires level { level < 8 }
    requires side { pos 0 ≤ℤ entry }
    ensures { IsRaised true level entry result }
{
    if entry <= EDGE {
        entry + amount(level) as i64
    } else {
        entry
    }
}

/// The entry with the amount of a level less; near the end of the range, itself.
fn raised_down(entry: i64, level: u8) -> i64
    requires level { level < 8 }
    requires side { entry ≤ℤ pos 0 }
    ensures { IsRaised false level entry result }
{
    if entry >= -EDGE {
        entry - amount(level) as i64
    } else {
        entry
    }
}

/// The entry with the amount of a level more on the side of a sign.
fn raised(entry: i64, positive: bool, level: u8) -> i64
    requires level { level < 8 }
    requires side { IsOnSide positive entry }
    ensures { IsRaised positive level entry result }
{
    if positive {
        raised_up(entry, level)
    } else {
        raised_down(entry, level)
    }
}

/// Writes the row with last entry 0 and the amount of a level more.
fn fill_raised(row: &[i64], column: usize, positive: bool, level: u8, probe: &mut [i64])
    requires level { level < 8 }
    requires column { column + 1 < length row.now }
    requires lengths { length row.now ≡ length probe.old }
    requires side { IsOnSide positive (slice_index_or row.now column (pos 0)) }
    ensures length { length probe.new ≡ length probe.old }
    ensures raised { (listed : List (List ℤ)) → IsReducible listed probe.new
        → IsNear listed row.now column positive level }
{
    fill_probe(row, 0, probe);
    probe[column] = raised(row[column], positive, level);
}

/// Whether this listed row shows that one is near a row.
fn shows_near(
    other: &[i64],
    row: &[i64],
    column: usize,
    positive: bool,
    level: u8,
    probe: &mut [i64],
) -> bool
    requires level { level < 8 }
    requires column { column + 1 < length row.now }
    requires lengths { length row.now ≡ length probe.old }
    requires other { length other.now ≡ length row.now }
    requires side { IsOnSide positive (slice_index_or row.now column (pos 0)) }
    ensures length { length probe.new ≡ length probe.old }
    ensures near { (listed : List (List ℤ)) → Contains listed other.now → IsTrue result
        → IsNear listed row.now column positive level }
{
    fill_raised(row, column, positive, level, probe);
    below(other, probe)
}

/// How much larger one entry is than another, by their absolute values.
fn excess(entry: i64, other: i64) -> u64 {
    entry.unsigned_abs().saturating_sub(other.unsigned_abs())
}

/// The least level, up to one, of at least this amount.
fn level_for(size: u64, most: u8) -> u8
    requires { most < 8 }
    ensures { result ≤ most }
{
    for level in 0..most {
        if size <= amount(level) {
            return level;
        }
    }
    most
}

/// The least level, up to one, at which this listed row is near another.
fn settle(
    listed: &Pool,
    id: RowId,
    row: &[i64],
    column: usize,
    positive: bool,
    level: u8,
    probe: &mut [i64],
) -> u8
    requires id { id.0 < length listed.now.rows }
    requires level { level < 8 }
    requires column { column + 1 < length row.now }
    requires lengths { length row.now ≡ length probe.old }
    requires width { listed.now.width ≡ length row.now }
    requires side { IsOnSide positive (slice_index_or row.now column (pos 0)) }
    requires near { IsNear listed.now.rows row.now column positive level }
    ensures length { length probe.new ≡ length probe.old }
    ensures level { result ≤ level }
    ensures near { IsNear listed.now.rows row.now column positive result }
{
    let other = listed.row(id);
    let least = level_for(excess(other[column], row[column]), level);
    if shows_near(other, row, column, positive, least, probe) {
        least
    } else {
        level
    }
}

/// A listed row that is near a row at a level.
fn find_near(
    listed: &Pool,
    tree: &Tree,
    row: &[i64],
    column: usize,
    positive: bool,
    level: u8,
    probe: &mut [i64],
) -> Option<RowId>
    requires indexed { HoldsRows tree.now listed.now }
    requires level { level < 8 }
    requires column { column + 1 < length row.now }
    requires lengths { length row.now ≡ length probe.old }
    requires width { listed.now.width ≡ length row.now }
    requires side { IsOnSide positive (slice_index_or row.now column (pos 0)) }
    ensures length { length probe.new ≡ length probe.old }
    ensures inside { IfSome result (λ id. id.0 < length listed.now.rows) }
    ensures near { IfSome result (λ _. IsNear listed.now.rows row.now column positive level) }
{
    fill_raised(row, column, positive, level, probe);
    find_listed(listed, tree, probe)
}

/// The least level at which a listed row is near a row, and 8 where none was found.
fn near_level(
    listed: &Pool,
    tree: &Tree,
    row: &[i64],
    column: usize,
    positive: bool,
    probe: &mut [i64],
) -> u8
    requires indexed { HoldsRows tree.now listed.now }
    requires column { column + 1 < length row.now }
    requires lengths { length row.now ≡ length probe.old }
    requires width { listed.now.width ≡ length row.now }
    requires side { IsOnSide positive (slice_index_or row.now column (pos 0)) }
    ensures length { length probe.new ≡ length probe.old }
    ensures near { IsNearOr listed.now.rows row.now column positive result }
{
    let mut known = LEVELS;
    while known > 0 {
        let level = known - 1;
        match find_near(listed, tree, row, column, positive, level, probe) {
            None => return known,
            Some(id) => known = settle(listed, id, row, column, positive, level, probe),
        }
    }
    known
}

/// Whether an entry has a sign against the item's.
fn is_against(entry: i64, positive: bool) -> bool
    ensures { IsTrue result ↔ IsAgainst positive entry }
{
    if positive { entry < 0 } else { entry > 0 }
}

/// Whether a column with a sign has no entries of the item's sign.
fn is_one_sided(sign: i8, positive: bool) -> bool {
    if positive { sign == -1 } else { sign == 1 }
}

/// Whether each larger entry is above the cap.
fn is_full(cap: Option<u64>, entry: i64) -> bool
    ensures { IsTrue result → IsFull cap entry }
{
    match cap {
        Some(most) => entry.unsigned_abs() >= most,
        None => false,
    }
}

/// The level from which on a row bars an item, without rows near it: all, where its entry is against the item or at the
/// cap, or none.
fn plain_level(system: &System, listed: &Pool, row: &[i64], column: usize, positive: bool) -> u8
    requires column { column < width system.now.equations }
    requires row { length row.now ≡ width system.now.equations + 1 }
    ensures { IsBarLevel system.now.equations listed.now.rows row.now column positive result }
{
    system.keeps();
    if is_against(row[column], positive) || is_full(system.cap(column as u32 + 1), row[column]) {
        return 0;
    }
    LEVELS
}

/// The level from which on a row bars an item, with rows near it.
fn bar_level(
    system: &System,
    listed: &Pool,
    tree: &Tree,
    row: &[i64],
    column: usize,
    positive: bool,
    probe: &mut [i64],
) -> u8
    requires indexed { HoldsRows tree.now listed.now }
    requires column { column < width system.now.equations }
    requires row { length row.now ≡ width system.now.equations + 1 }
    requires lengths { length row.now ≡ length probe.old }
    requires width { listed.now.width ≡ length row.now }
    ensures length { length probe.new ≡ length probe.old }
    ensures bars { IsBarLevel system.now.equations listed.now.rows row.now column positive result }
{
    system.keeps();
    if is_against(row[column], positive) {
        return 0;
    }
    // Where no row has an entry, nothing is gained by a search.
    if is_one_sided(system.sign(column as u32 + 1), positive) {
        return LEVELS;
    }
    near_level(listed, tree, row, column, positive, probe)
}

/// The number of levels of an item that an entry reaches.
fn reach_level(row: &[i64], column: usize, positive: bool) -> u8
    requires { column < length row.now }
    ensures { IsReachLevel row.now column positive result }
{
    let entry = row[column];
    if !is_against(entry, !positive) {
        return 0;
    }
    let size = entry.unsigned_abs();
    for level in 0..LEVELS {
        if size < amount(level) {
            return level;
        }
    }
    LEVELS
}

/// Writes from which level on a row bars each item, without rows near it.
pub fn fill_bars(system: &System, listed: &Pool, row: &[i64], bars: &mut [u8])
    requires row { length row.now ≡ width system.now.equations + 1 }
    requires bars { length bars.old ≡ 2 * width system.now.equations }
    ensures length { length bars.new ≡ length bars.old }
    ensures bars { AreTrue (BarsLine system.now.equations listed.now.rows row.now) true bars.new }
{
    for k in 0..bars.len() {
        bars[k] = plain_level(system, listed, row, k / 2, k % 2 == 0);
    }
}

/// Writes from which level on a row bars an item, with rows near it, where that is worth it for the rows of a table that
/// are left.
fn lower_bar(
    system: &System,
    listed: &Pool,
    tree: &Tree,
    row: &[i64],
    table: &Table,
    item: usize,
    left: &mut Left,
    probe: &mut [i64],
    bars: &mut [u8],
)
    requires indexed { HoldsRows tree.now listed.now }
    requires item { item < length bars.old }
    requires row { length row.now ≡ width system.now.equations + 1 }
    requires lengths { length row.now ≡ length probe.old }
    requires width { listed.now.width ≡ length row.now }
    requires count { length bars.old ≡ 2 * width system.now.equations }
    requires bars { AreTrue (BarsLine system.now.equations listed.now.rows row.now) true bars.old }
    ensures probe { length probe.new ≡ length probe.old }
    ensures length { length bars.new ≡ length bars.old }
    ensures bars { AreTrue (BarsLine system.now.equations listed.now.rows row.now) true bars.new }
{
    if bars[item] == 0 || !left.wants(table, item) {
        return;
    }
    let level = bar_level(system, listed, tree, row, item / 2, item % 2 == 0, probe);
    bars[item] = level;
    left.take_out(table, item, level);
}

/// The same for each item.
pub fn lower_bars(
    system: &System,
    listed: &Pool,
    tree: &Tree,
    row: &[i64],
    table: &Table,
    left: &mut Left,
    probe: &mut [i64],
    bars: &mut [u8],
)
    requires indexed { HoldsRows tree.now listed.now }
    requires row { length row.now ≡ width system.now.equations + 1 }
    requires lengths { length row.now ≡ length probe.old }
    requires width { listed.now.width ≡ length row.now }
    requires count { length bars.old ≡ 2 * width system.now.equations }
    requires bars { AreTrue (BarsLine system.now.equations listed.now.rows row.now) true bars.old }
    ensures probe { length probe.new ≡ length probe.old }
    ensures length { length bars.new ≡ length bars.old }
    ensures bars { AreTrue (BarsLine system.now.equations listed.now.rows row.now) true bars.new }
{
    for k in 0..bars.len() {
        lower_bar(system, listed, tree, row, table, k, left, probe, bars);
    }
}

/// Writes how many levels of each item a row reaches.
pub fn fill_reached(row: &[i64], reached: &mut [u8])
    requires lengths { length reached.old < 2 * length row.now }
    ensures length { length reached.new ≡ length reached.old }
    ensures reached { AreTrue (ReachesLine row.now) false reached.new }
{
    for k in 0..reached.len() {
        reached[k] = reach_level(row, k / 2, k % 2 == 0);
    }
}
