//! What a closed norm adds to a stage: the merge of the waiting rows and the sums, and the classes of the new rows.

ghost use Rattle.std.specs.Prelude.{◌≡◌, ◌↔◌, IsTrue, ◌+◌, ◌-◌, ◌<◌, ◌≤◌, ◌^◌, ◌++◌, ℕ, List, [], length, take, drop, slice_index_or, IfOk, OnOk, OnErr, vec_len, vec_capacity};
ghost use Rattle.std.specs.List.{AllByRecursion};
ghost use Rattle.std.specs.List.Sorted.{IsStrictlySortedBy};
ghost use Rattle.int_vector.specs.Vectors.{lex_cmp};
ghost use Rattle.lift_core.specs.Stages.{stage_norm};
ghost use Rattle.stage_store.specs.Indexed.{HoldsRows};
ghost use Rattle.stage_store.specs.Merge.{merged};
ghost use Rattle.stage_store.specs.Classes.{places, sign_test, with_class};

use crate::class::Class;
use crate::side::Side;
use int_vector::{lex, norm};
use reduce_tree::Tree;
use row_pool::{Pool, RowId};
use std::alloc::{AllocError, Global};
use std::cmp::Ordering;

/// The place after the waiting rows of a norm, which begin at `from`.
pub fn waits_up_to(waiting: &Pool, from: u32, least: u64) -> u32
    requires from { from ≤ length waiting.now.rows }
    requires width { 0 < waiting.now.width }
    requires small { least ≤ 9223372036854775807 }
    ensures from { from ≤ result }
    ensures to { result ≤ length waiting.now.rows }
    ensures before { (k : ℕ) → from ≤ k → k < result
        → stage_norm (slice_index_or waiting.now.rows k []) ≡ least }
    ensures at { result < length waiting.now.rows
        → stage_norm (slice_index_or waiting.now.rows result []) ≡ least → ⊥ }
{
    let width = waiting.width() as usize - 1;
    for i in from..waiting.len() {
        if !has_norm(waiting.row(RowId(i)), width, least) {
            return i;
        }
    }
    waiting.len()
}

/// Whether a row has a norm.
#[tactic(auto, using(crate::proofs::Signs::front_laws))]
fn has_norm(row: &[i64], width: usize, least: u64) -> bool
    requires width { length row.now ≡ width + 1 }
    requires small { least ≤ 9223372036854775807 }
    ensures { IsTrue result ↔ (stage_norm row.now ≡ least) }
{
    match norm(&row[..width]) {
        Some(n) => n == least,
        None => false,
    }
}

/// The norm of a row with its last entry.
#[tactic(auto, using(crate::proofs::Signs::front_laws))]
pub fn norm_of(row: &[i64], width: usize) -> u64
    requires width { length row.now ≡ width + 1 }
    requires small { stage_norm row.now ≤ 9223372036854775807 }
    ensures { result ≡ stage_norm row.now }
{
    match norm(&row[..width]) {
        Some(n) => n,
        None => unreachable!(),
    }
}

/// The rows of `waits` from one place up to another and the rows of `sums` in order, each once.
pub fn merged_rows(
    alloc: Global,
    room: u32,
    waits: &Pool,
    from: u32,
    to: u32,
    sums: &Pool,
) -> Result<Pool, AllocError>
    requires room { (to - from) + length sums.now.rows ≤ room }
    requires from { from ≤ to }
    requires to { to ≤ length waits.now.rows }
    requires width { waits.now.width ≡ sums.now.width }
    requires most { waits.now.width ≤ 130 }
    requires waits { IsStrictlySortedBy lex_cmp (drop from (take to waits.now.rows)) }
    requires sums { IsStrictlySortedBy lex_cmp sums.now.rows }
    ensures width { IfOk result (λ rows. rows.width ≡ waits.now.width) }
    ensures rows { IfOk result
        (λ rows. rows.rows ≡ merged lex_cmp (drop from (take to waits.now.rows)) sums.now.rows) }
{
    let mut rows = Pool::new(alloc, waits.width());
    rows.reserve(room)?;
    merge_into(&mut rows, waits, from, to, sums);
    Ok(rows)
}

/// Appends the rows of `waits` from one place up to another and the rows of `sums` in order, each once.
fn merge_into(listed: &mut Pool, waits: &Pool, from: u32, to: u32, sums: &Pool)
    requires room { (to - from) + length sums.now.rows ≤ listed.old.spare }
    requires from { from ≤ to }
    requires to { to ≤ length waits.now.rows }
    requires first { listed.old.width ≡ waits.now.width }
    requires second { listed.old.width ≡ sums.now.width }
    requires waits { IsStrictlySortedBy lex_cmp (drop from (take to waits.now.rows)) }
    requires sums { IsStrictlySortedBy lex_cmp sums.now.rows }
    ensures width { listed.new.width ≡ listed.old.width }
    ensures rows { listed.new.rows ≡ listed.old.rows
        ++ merged lex_cmp (drop from (take to waits.now.rows)) sums.now.rows }
{
    let mut i = from;
    let mut j = 0;
    while i < to && j < sums.len() {
        match lex(waits.row(RowId(i)), sums.row(RowId(j))) {
            Ordering::Less => {
                listed.push(waits.row(RowId(i)));
                i += 1;
            }
            Ordering::Equal => {
                listed.push(waits.row(RowId(i)));
                i += 1;
                j += 1;
            }
            Ordering::Greater => {
                listed.push(sums.row(RowId(j)));
                j += 1;
            }
        }
    }
    append_part(listed, waits, i, to);
    append_part(listed, sums, j, sums.len());
}

/// Appends the rows from one place up to another.
fn append_part(listed: &mut Pool, rows: &Pool, from: u32, to: u32)
    requires room { to ≤ from + listed.old.spare }
    requires from { from ≤ to }
    requires to { to ≤ length rows.now.rows }
    requires width { listed.old.width ≡ rows.now.width }
    ensures width { listed.new.width ≡ listed.old.width }
    ensures rows { listed.new.rows ≡ listed.old.rows ++ drop from (take to rows.now.rows) }
    ensures spare { listed.new.spare + to ≡ listed.old.spare + from }
{
    for i in from..to {
        listed.push(rows.row(RowId(i)));
    }
}

/// Makes room for `rows` listed rows more, and for a class more of either sign. After an error nothing is listed.
pub fn make_room(
    listed: &mut Pool,
    plus: &mut Vec<Class>,
    minus: &mut Vec<Class>,
    rows: u32,
) -> Result<(), AllocError>
    requires { length listed.old.rows + rows < 2 ^ 32 }
    ensures listed { (listed.new.width ≡ listed.old.width) × (listed.new.rows ≡ listed.old.rows) }
    ensures plus { plus.new.items ≡ plus.old.items }
    ensures minus { minus.new.items ≡ minus.old.items }
    ensures spare { OnOk result (rows ≤ listed.new.spare) }
    ensures above { OnOk result (vec_len plus.new < vec_capacity plus.new) }
    ensures below { OnOk result (vec_len minus.new < vec_capacity minus.new) }
{
    listed.reserve(rows)?;
    plus.reserve(1)?;
    minus.reserve(1)
}

/// Lists rows, in the pool and in the tree that holds its rows. After an error both hold the rows that they held.
pub fn list_rows(listed: &mut Pool, tree: &mut Tree, rows: &Pool) -> Result<(), AllocError>
    requires held { HoldsRows tree.old listed.old }
    requires width { listed.old.width ≡ rows.now.width }
    requires room { length rows.now.rows ≤ listed.old.spare }
    ensures ok { OnOk result (listed.new.rows ≡ listed.old.rows ++ rows.now.rows) }
    ensures err { OnErr result (listed.new.rows ≡ listed.old.rows) }
    ensures width { listed.new.width ≡ listed.old.width }
    ensures held { HoldsRows tree.new listed.new }
{
    let from = listed.len();
    listed.append_from(rows);
    for i in from..listed.len() {
        match tree.insert(listed, RowId(i)) {
            Ok(()) => {}
            Err(refused) => {
                tree.truncate(from);
                listed.truncate(from);
                return Err(refused);
            }
        }
    }
    Ok(())
}

/// Whether the last entry has the sign of a side.
#[tactic(auto, using(crate::proofs::Signs::sign_laws))]
pub fn has_sign(row: &[i64], width: usize, side: Side) -> bool
    requires { length row.now ≡ width + 1 }
    ensures { result ≡ sign_test side row.now }
{
    match side {
        Side::Plus => row[width] > 0,
        Side::Minus => row[width] < 0,
    }
}

/// The class of the rows on a side, which will be listed from place `base` on.
pub fn class_of(
    alloc: Global,
    rows: &Pool,
    base: u32,
    norm: u64,
    side: Side,
) -> Result<Class, AllocError>
    requires base { base + length rows.now.rows < 2 ^ 32 }
    requires width { 0 < rows.now.width }
    ensures norm { IfOk result (λ c. c.norm ≡ norm) }
    ensures ids { IfOk result (λ c. c.ids ≡ places (sign_test side) base rows.now.rows) }
{
    let mut ids = Vec::new(alloc);
    let width = rows.width() as usize - 1;
    for i in 0..rows.len() {
        if has_sign(rows.row(RowId(i)), width, side) {
            ids.push(base + i)?;
        }
    }
    Ok(Class::new(norm, ids))
}

/// Adds a class, unless it is empty.
pub fn add_class(classes: &mut Vec<Class>, class: Class)
    requires { vec_len classes.old < vec_capacity classes.old }
    ensures { classes.new.items ≡ with_class class.norm class.ids classes.old.items }
{
    if !class.ids().is_empty() {
        classes.push_reserved(class);
    }
}
