//! What a stage keeps beside its listed rows, made anew from them: the tree that holds them, and
//! their classes.

ghost use Rattle.std.specs.Prelude.{◌≡◌, ◌<◌, ◌≤◌, ◌^◌, ℕ, [], length, take, drop, IfOk};
ghost use Rattle.std.specs.List.{AllByRecursion};
ghost use Rattle.std.specs.List.Sorted.{IsStrictlySortedBy};
ghost use Rattle.lift_core.specs.Stages.{stage_norm, norm_cmp};
ghost use Rattle.stage_store.specs.Indexed.{HoldsRows};
ghost use Rattle.stage_store.specs.Classes.{AreClasses, places, sign_test};
ghost use Rattle.stage_store.specs.Opened.{AscendWithin};

use crate::class::Class;
use crate::counting::norm_at;
use crate::growing::{add_class, has_sign, waits_up_to};
use crate::side::Side;
use lift_core::Tool;
use reduce_tree::{FiledBy, Tree};
use row_pool::{Pool, RowId};
use std::alloc::{AllocError, Global};

/// A tree without rows for the stages of a tool. The last column of `zsolve` is that of x0, in which few rows agree.
pub fn empty_tree(alloc: Global, tool: Tool, width: u32) -> Tree
    requires { width ≤ 130 }
    ensures width { result.width ≡ width }
    ensures filed { result.filed ≡ [] }
{
    let by = if tool == Tool::Zsolve {
        FiledBy::LastColumns
    } else {
        FiledBy::FirstColumns
    };
    Tree::filed_by(alloc, width, by)
}

/// A tree that holds all rows.
pub fn tree_of(alloc: Global, tool: Tool, listed: &Pool) -> Result<Tree, AllocError>
    requires { listed.now.width ≤ 130 }
    ensures { IfOk result (λ tree. HoldsRows tree listed.now) }
{
    let mut tree = empty_tree(alloc, tool, listed.width());
    for i in 0..listed.len() {
        tree.insert(listed, RowId(i))?;
    }
    Ok(tree)
}

/// The classes of the rows on a side: one for each norm that has any.
pub fn classes_of(alloc: Global, listed: &Pool, side: Side) -> Result<Vec<Class>, AllocError>
    requires width { 0 < listed.now.width }
    requires ascending { IsStrictlySortedBy norm_cmp listed.now.rows }
    requires above { AllByRecursion (λ z. 0 < stage_norm z) listed.now.rows }
    requires small { AllByRecursion (λ z. stage_norm z ≤ 9223372036854775807) listed.now.rows }
    requires few { length listed.now.rows ≤ 2 ^ 21 }
    ensures classes { IfOk result
        (λ classes. AreClasses listed.now.rows (sign_test side) classes.items) }
    ensures ids { IfOk result (λ classes. AscendWithin classes.items) }
{
    let mut classes = Vec::new(alloc);
    let mut from = 0;
    while from < listed.len() {
        let norm = norm_at(listed, from);
        let to = waits_up_to(listed, from, norm);
        let class = class_within(alloc, listed, from, to, norm, side)?;
        classes.reserve(1)?;
        add_class(&mut classes, class);
        from = to;
    }
    Ok(classes)
}

/// The class of the rows on a side, among the rows of a norm from one place up to another.
fn class_within(
    alloc: Global,
    listed: &Pool,
    from: u32,
    to: u32,
    norm: u64,
    side: Side,
) -> Result<Class, AllocError>
    requires from { from ≤ to }
    requires to { to ≤ length listed.now.rows }
    requires width { 0 < listed.now.width }
    ensures norm { IfOk result (λ c. c.norm ≡ norm) }
    ensures ids { IfOk result
        (λ c. c.ids ≡ places (sign_test side) from (drop from (take to listed.now.rows))) }
{
    let mut ids = Vec::new(alloc);
    let width = listed.width() as usize - 1;
    for i in from..to {
        if has_sign(listed.row(RowId(i)), width, side) {
            ids.push(i)?;
        }
    }
    Ok(Class::new(norm, ids))
}
