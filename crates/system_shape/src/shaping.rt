//! From the user's matrices to the system.

ghost use Rattle.std.specs.Prelude.{◌≡◌, ◌≤◌, length, IfOk};
ghost use Rattle.system_shape.specs.Laws.{IsWellFormed};
ghost use Rattle.system_shape.specs.Shape.{has_x0, user_system, tool_system};
ghost use Rattle.system_shape.specs.Slacks.{linear_system};
ghost use Rattle.system_shape.specs.Answers.{shaped, Shapes};
ghost use Rattle.system_shape.specs.Inside.Cells.{cells_from};
ghost use Rattle.system_shape.specs.Inside.Accepted.{AreFitting};

use crate::columns::{column_caps, column_signs, has_x0};
use crate::equations::{equations, relations, right_sides, slack_columns};
use crate::first_fault::shape_fault;
use crate::{Input, ShapeEnd};
use lift_core::{System, Tool};
use std::alloc::{AllocError, Global};

// The system of these signs, caps and entries.
fn assemble(
    tool: Tool,
    input: &Input,
    signs: Vec<i8>,
    caps: Vec<Option<u64>>,
    entries: Vec<i64>,
) -> System
    requires fitting { AreFitting tool input.now }
    requires signs { signs.items ≡ (linear_system (user_system tool input.now)).signs }
    requires caps { caps.items ≡ (linear_system (user_system tool input.now)).caps }
    requires entries { entries.items
        ≡ cells_from (has_x0 tool) 0 (user_system tool input.now).rows }
    ensures { result ≡ tool_system tool input.now }
{
    let mat = &input.mat;
    let width = signs.len() as u32;
    System::build(tool, mat.cols, width, entries, signs, caps)
}

// The system of files without a fault.
fn accepted_system(alloc: Global, tool: Tool, input: &Input) -> Result<System, AllocError>
    requires { AreFitting tool input.now }
    ensures { IfOk result (λ system. system ≡ tool_system tool input.now) }
{
    let mat = &input.mat;
    let relations = relations(alloc, mat.rows, &input.rel)?;
    let rights = right_sides(alloc, mat.rows, &input.rhs)?;
    let slacks = slack_columns(&relations);
    let signs = column_signs(alloc, tool, mat.cols, &input.sign, slacks)?;
    let caps = column_caps(alloc, tool, mat.cols, &input.cap, slacks)?;
    let entries = equations(alloc, mat, &relations, &rights, has_x0(tool))?;
    Ok(assemble(tool, input, signs, caps, entries))
}

/// The system that the matrices stand for, for a tool.
///
/// Its columns are those of the matrix, then one slack for each row that is an inequality, in row order, then for
/// `zsolve` alone the homogenising column x0. With s the row's slack, a row `a x <= b`
/// becomes `a x + s - b x0 = 0`, a row `a x >= b` becomes `a x - s - b x0 = 0`, and a row `a x = b` becomes
/// `a x - b x0 = 0`; the other tools have no right sides. Slacks and x0 are at least 0, and x0 is at most 1.
/// A column of the matrix has the cap that the file of caps gives it, and a slack has none.
///
/// # Errors
/// `Bad` with the first fault of the files, and `Memory` where memory ran out.
pub fn shape(alloc: Global, tool: Tool, input: &Input) -> Result<System, ShapeEnd>
    requires rows { input.now.mat.rows ≤ 64 }
    requires cols { input.now.mat.cols ≤ 64 }

    // The system is the one that the files give, and a fault is their first.
    ensures system { Shapes result (shaped tool input.now) }

    // Where there is a system, the laws between it and the user's own hold.
    ensures well_formed { IfOk result (λ _. IsWellFormed (user_system tool input.now)) }
    ensures columns { IfOk result
        (λ _. input.now.mat.cols ≡ length (user_system tool input.now).signs) }
{
    match shape_fault(tool, input) {
        Some(fault) => Err(ShapeEnd::Bad(fault)),
        None => Ok(accepted_system(alloc, tool, input)?),
    }
}
