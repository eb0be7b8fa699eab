//! How far the last entry of a partner's may be from a row's.
//!
//! Where a listed row is below a row f in all columns but the last, and its last entry t has the sign against f's, the
//! sum of f and a partner whose last entry is larger than f's by |t| or more has that row below it. So |t| is a reach of
//! f: it bounds the partners that are to be looked at. Any such row will do; the one with the least |t| serves most.

ghost use Rattle.std.specs.Prelude.{◌≡◌, ◌↔◌, ◌+◌, ◌<◌, ◌≤◌, List, ℤ, length, pos, slice_index_or, All, IfSome, IsTrue};
ghost use Rattle.lift_core.specs.Halves.{IsReducible};
ghost use Rattle.stage_store.specs.Classes.{row_at};
ghost use Rattle.stage_store.specs.Indexed.{HoldsRows};
ghost use Rattle.std.specs.List.{Contains};
ghost use Rattle.lift_core.specs.Systems.{LinearSystem};
ghost use Rattle.int_vector.specs.Range.{InRange};
ghost use Rattle.stage_store.specs.Mirror.{IsWholeOr};
ghost use Rattle.stage_store.specs.Reaches.{entry_against, with_reach, AreFarApart, AreReaches, IsReachOr};
ghost use Rattle.stage_store.specs.Sieve.{HasNoNewSum, HasNoNewSumBy};

use crate::side::Side;
use int_vector::{Visits, below};
use reduce_tree::Tree;
use row_pool::{Pool, RowId};

/// How often a search for a smaller reach is made.
const ROUNDS: u32 = 72;

/// The entry with a reach as its absolute value, and the sign against another's.
fn entry_against(entry: i64, reach: u64) -> i64
    requires { reach ≤ 9223372036854775807 }
    ensures { result ≡ entry_against entry reach }
{
    if entry > 0 {
        -(reach as i64)
    } else {
        reach as i64
    }
}

/// A row with a reach in place of its last entry.
pub fn fill_probe(row: &[i64], reach: u64, probe: &mut [i64])
    requires reach { reach ≤ 9223372036854775807 }
    requires lengths { length row.now ≡ length probe.old }
    requires some { 0 < length row.now }
    ensures { probe.new ≡ with_reach row.now reach }
{
    let width = row.len() - 1;
    probe.copy_from_slice(row);
    probe[width] = entry_against(row[width], reach);
}

/// A listed row that is below a vector.
pub fn find_listed(listed: &Pool, tree: &Tree, z: &[i64]) -> Option<RowId>
    requires indexed { HoldsRows tree.now listed.now }
    requires width { length z.now ≡ listed.now.width }
    ensures { IfSome result (λ id. (id.0 < length listed.now.rows)
        × IsReducible listed.now.rows z.now) }
{
    tree.find_below(listed, z, &mut Visits { count: 0 })
}

/// The absolute value of an entry, and 2^63-1 where it is larger.
fn size_at(row: &[i64], column: usize) -> u64
    requires { column < length row.now }
    ensures { result ≤ 9223372036854775807 }
{
    row[column].unsigned_abs().min(9223372036854775807)
}

/// The reach of a row that another listed row shows, where it is less than this one.
fn shown_reach(other: &[i64], row: &[i64], reach: u64, probe: &mut [i64]) -> u64
    requires reach { reach ≤ 9223372036854775807 }
    requires lengths { length row.now ≡ length probe.old }
    requires some { 0 < length row.now }
    requires other { length other.now ≡ length row.now }
    ensures probe { length probe.new ≡ length probe.old }
    ensures most { result ≤ reach }
    ensures reach { (listed : List (List ℤ)) → Contains listed other.now
        → IsReachOr listed row.now reach → IsReachOr listed row.now result }
{
    let least = size_at(other, row.len() - 1).min(reach);
    fill_probe(row, least, probe);
    if below(other, probe) { least } else { reach }
}

/// A reach of a row that is at most this one, where a listed row shows it, and else 0. `probe` is room for a row.
fn probe_reach(listed: &Pool, tree: &Tree, row: &[i64], reach: u64, probe: &mut [i64]) -> u64
    requires indexed { HoldsRows tree.now listed.now }
    requires row { length row.now ≡ listed.now.width }
    requires some { 0 < listed.now.width }
    requires probe { length probe.old ≡ listed.now.width }
    requires reach { reach ≤ 9223372036854775807 }
    ensures probe { length probe.new ≡ length probe.old }
    ensures most { result ≤ reach }
    ensures reach { IsReachOr listed.now.rows row.now result }
{
    fill_probe(row, reach, probe);
    match find_listed(listed, tree, probe) {
        Some(id) => shown_reach(listed.row(id), row, reach, probe),
        None => 0,
    }
}

/// A reach of a row, and 0 where none was found. It is the least one where the rounds are enough.
pub fn reach_of(listed: &Pool, tree: &Tree, row: &[i64], probe: &mut [i64]) -> u64
    requires indexed { HoldsRows tree.now listed.now }
    requires row { length row.now ≡ listed.now.width }
    requires some { 0 < listed.now.width }
    requires probe { length probe.old ≡ listed.now.width }
    ensures probe { length probe.new ≡ length probe.old }
    ensures reach { IsReachOr listed.now.rows row.now result }
{
    let mut reach = probe_reach(listed, tree, row, 9223372036854775807, probe);
    // No reach up to `low` is found. Mostly the first is the least, so the next try is one below it.
    let mut low = 0;
    let mut next = reach.saturating_sub(1);
    for _ in 0..ROUNDS {
        if next <= low {
            return reach;
        }
        let found = probe_reach(listed, tree, row, next, probe);
        if found == 0 {
            low = next;
        } else {
            reach = found;
        }
        next = low + reach.saturating_sub(low) / 2;
    }
    reach
}

/// The reach of a listed row, and 0 where none was found or the row's last entry is 0.
pub fn reach_at(listed: &Pool, tree: &Tree, i: u32, probe: &mut [i64]) -> u64
    requires indexed { HoldsRows tree.now listed.now }
    requires some { 0 < listed.now.width }
    requires row { i < length listed.now.rows }
    requires probe { length probe.old ≡ listed.now.width }
    ensures probe { length probe.new ≡ length probe.old }
    ensures reach { IsReachOr listed.now.rows (row_at listed.now.rows i) result }
{
    let row = listed.row(RowId(i));
    if row[row.len() - 1] == 0 {
        return 0;
    }
    reach_of(listed, tree, row, probe)
}

/// The known reach of a listed row's negative, and 0 where none is known or the row's last entry is 0.
fn reach_turned(listed: &Pool, reaches: &[u64], mirror: &[u32], i: u32) -> u64
    requires some { 0 < listed.now.width }
    requires row { i < length listed.now.rows }
    requires reaches { AreReaches listed.now.rows reaches.now }
    requires mirror { IsWholeOr listed.now.rows mirror.now }
    ensures reach { IsReachOr listed.now.rows (row_at listed.now.rows i) result }
{
    let row = listed.row(RowId(i));
    if row[row.len() - 1] == 0 || i as usize >= mirror.len() {
        return 0;
    }
    let other = mirror[i as usize] as usize;
    if other < reaches.len() {
        reaches[other]
    } else {
        0
    }
}

/// A reach of a listed row: that of its negative where it is known, since the negatives of rows below a row are below its
/// negative.
pub fn reach_or(
    listed: &Pool,
    tree: &Tree,
    reaches: &[u64],
    mirror: &[u32],
    i: u32,
    probe: &mut [i64],
) -> u64
    requires indexed { HoldsRows tree.now listed.now }
    requires some { 0 < listed.now.width }
    requires row { i < length listed.now.rows }
    requires probe { length probe.old ≡ listed.now.width }
    requires reaches { AreReaches listed.now.rows reaches.now }
    requires mirror { IsWholeOr listed.now.rows mirror.now }
    ensures probe { length probe.new ≡ length probe.old }
    ensures reach { IsReachOr listed.now.rows (row_at listed.now.rows i) result }
{
    let turned = reach_turned(listed, reaches, mirror, i);
    if turned > 0 {
        return turned;
    }
    reach_at(listed, tree, i, probe)
}

/// Whether a value is larger than another by a reach or more. A reach of 0 tells nothing.
fn is_past(large: u64, small: u64, reach: u64) -> bool
    requires { large ≤ 9223372036854775807 }
    ensures { IsTrue result ↔ ((0 < reach) × (small + reach ≤ large)) }
{
    reach > 0 && large >= small && large - small >= reach
}

/// Whether the last entries of two rows, the first above 0 and the second below it, are so far apart that the sum has a
/// listed row below it.
fn is_far(first: &[i64], second: &[i64], width: usize, reach: u64, other_reach: u64) -> bool
    requires first { length first.now ≡ width + 1 }
    requires second { length second.now ≡ width + 1 }
    requires first_range { All InRange first.now }
    requires second_range { All InRange second.now }
    ensures { IsTrue result → AreFarApart (slice_index_or first.now width (pos 0))
        (slice_index_or second.now width (pos 0)) reach other_reach }
{
    let above = first[width];
    let under = second[width];
    if above <= 0 || under >= 0 {
        return false;
    }
    let up = above.unsigned_abs();
    let down = under.unsigned_abs();
    is_past(down, up, reach) || is_past(up, down, other_reach)
}

/// Whether the pair of two places is known to have no irreducible sum, by the reaches of its rows.
fn are_far(listed: &Pool, width: usize, reaches: &[u64], f: u32, g: u32) -> bool
    requires width { listed.now.width ≡ width + 1 }
    requires reaches { AreReaches listed.now.rows reaches.now }
    requires count { length reaches.now ≤ length listed.now.rows }
    requires one { f < length reaches.now }
    requires two { g < length reaches.now }
    ensures { (S : LinearSystem) → IsTrue result → HasNoNewSum S listed.now.rows f g }
{
    is_far(
        listed.row(RowId(f)),
        listed.row(RowId(g)),
        width,
        reaches[f as usize],
        reaches[g as usize],
    )
}

/// Whether the pair of a row and another is known to have no irreducible sum, by the reaches of the two.
pub fn is_passed(listed: &Pool, width: usize, reaches: &[u64], side: Side, i: u32, j: u32) -> bool
    requires width { listed.now.width ≡ width + 1 }
    requires reaches { AreReaches listed.now.rows reaches.now }
    requires count { length reaches.now ≤ length listed.now.rows }
    requires one { i < length reaches.now }
    requires two { j < length reaches.now }
    ensures { (S : LinearSystem) → IsTrue result → HasNoNewSumBy side S listed.now.rows i j }
{
    match side {
        Side::Plus => are_far(listed, width, reaches, i, j),
        Side::Minus => are_far(listed, width, reaches, j, i),
    }
}
