//! The signs and caps of the columns.

ghost use Rattle.std.specs.Prelude.{◌≡◌, ◌++◌, ◌≤◌, ◌<◌, ℤ, ℕ, pos, None, length, replicate, IfOk, All};
ghost use Rattle.lift_core.specs.ToolSystems.{IsSign};
ghost use Rattle.system_shape.specs.Shape.{given_signs, given_caps, has_x0};
ghost use Rattle.system_shape.specs.Slacks.{x0_signs, x0_caps};

use lift_core::Tool;
use mat_files::{CapGrid, Grid};
use std::alloc::{AllocError, Global};

/// Whether the tool has x0, the homogenising column.
pub(crate) fn has_x0(tool: Tool) -> bool
    ensures { result ≡ has_x0 tool }
{
    matches!(tool, Tool::Zsolve)
}

// The sign that the entry is.
fn sign_of(entry: i64) -> i8
    requires { IsSign entry }
    ensures { result ≡ entry }
{
    match entry {
        1 => 1,
        -1 => -1,
        _ => 2,
    }
}

// The signs that stand in the file.
fn file_signs(alloc: Global, entries: &[i64]) -> Result<Vec<i8>, AllocError>
    requires { All IsSign entries.now }
    ensures { IfOk result (λ v. v.items ≡ entries.now) }
{
    let mut signs = Vec::new(alloc);
    for entry in entries {
        signs.push(sign_of(*entry))?;
    }
    Ok(signs)
}

// The signs of the user's n columns.
fn user_signs(alloc: Global, tool: Tool, n: u32, sign: &Option<Grid>) -> Result<Vec<i8>, AllocError>
    requires { All IsSign (given_signs tool n sign.now) }
    ensures { IfOk result (λ v. v.items ≡ given_signs tool n sign.now) }
{
    match sign {
        Some(file) => file_signs(alloc, &file.cells),
        None => match tool {
            Tool::Graver => vec![in alloc; 2; n as usize],
            Tool::Hilbert => vec![in alloc; 1; n as usize],
            Tool::Zsolve => Ok(Vec::new(alloc)),
        },
    }
}

/// The signs of the user's n columns, of so many slack columns, and of x0.
pub(crate) fn column_signs(
    alloc: Global,
    tool: Tool,
    n: u32,
    sign: &Option<Grid>,
    slacks: usize,
) -> Result<Vec<i8>, AllocError>
    requires { All IsSign (given_signs tool n sign.now) }
    ensures { IfOk result
        (λ v. v.items ≡ given_signs tool n sign.now
        ++ (replicate slacks (pos 1) ++ x0_signs (has_x0 tool))) }
{
    let mut signs = user_signs(alloc, tool, n, sign)?;
    for _slack in 0..slacks {
        signs.push(1)?;
    }
    if has_x0(tool) {
        signs.push(1)?;
    }
    Ok(signs)
}

// The caps of the user's n columns.
fn user_caps(alloc: Global, n: u32, cap: &Option<CapGrid>) -> Result<Vec<Option<u64>>, AllocError>
    ensures { IfOk result (λ v. v.items ≡ given_caps n cap.now) }
{
    match cap {
        Some(file) => Vec::from_slice(alloc, &file.cells),
        None => vec![in alloc; None; n as usize],
    }
}

/// The caps of the user's n columns, of so many slack columns, which have none, and of x0.
pub(crate) fn column_caps(
    alloc: Global,
    tool: Tool,
    n: u32,
    cap: &Option<CapGrid>,
    slacks: usize,
) -> Result<Vec<Option<u64>>, AllocError>
    ensures { IfOk result
        (λ v. v.items ≡ given_caps n cap.now ++ (replicate slacks None ++ x0_caps (has_x0 tool))) }
{
    let mut caps = user_caps(alloc, n, cap)?;
    for _slack in 0..slacks {
        caps.push(None)?;
    }
    if has_x0(tool) {
        caps.push(Some(1))?;
    }
    Ok(caps)
}
