//! The first fault of the user's matrices.

ghost use Rattle.std.specs.Prelude.{◌≡◌, ◌≤◌, length, All, IfNone};
ghost use Rattle.lift_core.specs.ToolSystems.{IsSign};
ghost use Rattle.system_shape.specs.Shape.{is_sign, fault_of_sign, column_fault, line_fault, sign_file_fault, sign_fault, relation_fault, right_fault, cap_fault, shape_fault, given_signs, given_relations, given_rights, given_caps};
ghost use Rattle.system_shape.specs.declared.faults.ShapeFault.TheVariants.{RelShape, RhsShape, CapShape};
ghost use Rattle.system_shape.specs.Inside.Accepted.{AreSigns, AreRights, AreUserCaps, AreFitting};

use crate::{Input, ShapeFault};
use lift_core::Tool;
use mat_files::{CapGrid, Grid, RelGrid};

// Whether the entry is a sign.
fn is_sign(entry: i64) -> bool
    ensures { result ≡ is_sign entry }
{
    matches!(entry, -1 | 1 | 2)
}

// The fault of a column whose entry is no sign.
fn fault_of_sign(column: u32, entry: i64) -> ShapeFault
    ensures { result ≡ fault_of_sign column entry }
{
    if entry == 0 {
        ShapeFault::Free { at: column }
    } else {
        ShapeFault::BadSign {
            at: column,
            value: entry,
        }
    }
}

// The fault of the first column that has one.
fn column_fault(signs: &[i64]) -> Option<ShapeFault>
    requires { length signs.now ≤ 64 }
    ensures fault { result ≡ column_fault 1 signs.now }
    ensures known { IfNone result (All IsSign signs.now) }
{
    for (place, entry) in signs.iter().enumerate() {
        if !is_sign(*entry) {
            return Some(fault_of_sign(place as u32 + 1, *entry));
        }
    }
    None
}

// The fault, unless the counts are those of one row of n entries.
fn line_fault(rows: u32, cols: u32, n: u32, fault: ShapeFault) -> Option<ShapeFault>
    ensures { result ≡ line_fault rows cols n fault }
{
    if rows == 1 && cols == n {
        None
    } else {
        Some(fault)
    }
}

// The fault of a file of signs for n columns.
fn sign_file_fault(n: u32, file: &Grid) -> Option<ShapeFault>
    requires { n ≤ 64 }
    ensures fault { result ≡ sign_file_fault n file.now }
    ensures accepted { IfNone result (AreSigns n file.now.cells) }
{
    let shape = ShapeFault::SignShape {
        rows: file.rows,
        cols: file.cols,
    };
    match line_fault(file.rows, file.cols, n, shape) {
        Some(fault) => Some(fault),
        None => column_fault(&file.cells),
    }
}

// The fault of the signs of n columns.
fn sign_fault(tool: Tool, n: u32, sign: &Option<Grid>) -> Option<ShapeFault>
    requires { n ≤ 64 }
    ensures fault { result ≡ sign_fault tool n sign.now }
    ensures accepted { IfNone result (AreSigns n (given_signs tool n sign.now)) }
{
    match sign {
        Some(file) => sign_file_fault(n, file),
        None => match tool {
            Tool::Zsolve => Some(ShapeFault::SignNeeded),
            Tool::Graver | Tool::Hilbert => None,
        },
    }
}

// The fault of a file of relations for m rows.
fn relation_file_fault(m: u32, file: &RelGrid) -> Option<ShapeFault>
    ensures fault { result
        ≡ line_fault file.now.rows file.now.cols m (RelShape file.now.rows file.now.cols) }
    ensures accepted { IfNone result (length file.now.cells ≡ m) }
{
    let shape = ShapeFault::RelShape {
        rows: file.rows,
        cols: file.cols,
    };
    line_fault(file.rows, file.cols, m, shape)
}

// The fault of the relations of m rows.
fn relation_fault(m: u32, rel: &Option<RelGrid>) -> Option<ShapeFault>
    ensures fault { result ≡ relation_fault m rel.now }
    ensures accepted { IfNone result (length (given_relations m rel.now) ≡ m) }
{
    match rel {
        Some(file) => relation_file_fault(m, file),
        None => None,
    }
}

// The fault of a file of right sides for m rows.
fn right_file_fault(m: u32, file: &Grid) -> Option<ShapeFault>
    ensures fault { result
        ≡ line_fault file.now.rows file.now.cols m (RhsShape file.now.rows file.now.cols) }
    ensures accepted { IfNone result (AreRights m file.now.cells) }
{
    let shape = ShapeFault::RhsShape {
        rows: file.rows,
        cols: file.cols,
    };
    line_fault(file.rows, file.cols, m, shape)
}

// The fault of the right sides of m rows.
fn right_fault(tool: Tool, m: u32, rhs: &Option<Grid>) -> Option<ShapeFault>
    ensures fault { result ≡ right_fault tool m rhs.now }
    ensures accepted { IfNone result (AreRights m (given_rights m rhs.now)) }
{
    match rhs {
        Some(file) => match tool {
            Tool::Zsolve => right_file_fault(m, file),
            Tool::Graver | Tool::Hilbert => Some(ShapeFault::RhsNotHere),
        },
        None => None,
    }
}

// The fault of a file of caps for n columns.
fn cap_file_fault(n: u32, file: &CapGrid) -> Option<ShapeFault>
    ensures fault { result
        ≡ line_fault file.now.rows file.now.cols n (CapShape file.now.rows file.now.cols) }
    ensures accepted { IfNone result (AreUserCaps n file.now.cells) }
{
    let shape = ShapeFault::CapShape {
        rows: file.rows,
        cols: file.cols,
    };
    line_fault(file.rows, file.cols, n, shape)
}

// The fault of the caps of n columns.
fn cap_fault(n: u32, cap: &Option<CapGrid>) -> Option<ShapeFault>
    ensures fault { result ≡ cap_fault n cap.now }
    ensures accepted { IfNone result (AreUserCaps n (given_caps n cap.now)) }
{
    match cap {
        Some(file) => cap_file_fault(n, file),
        None => None,
    }
}

/// The first fault of the files.
pub(crate) fn shape_fault(tool: Tool, input: &Input) -> Option<ShapeFault>
    requires rows { input.now.mat.rows ≤ 64 }
    requires cols { input.now.mat.cols ≤ 64 }
    ensures fault { result ≡ shape_fault tool input.now }
    ensures fitting { IfNone result (AreFitting tool input.now) }
{
    let mat = &input.mat;
    if let Some(fault) = sign_fault(tool, mat.cols, &input.sign) {
        return Some(fault);
    }
    if let Some(fault) = relation_fault(mat.rows, &input.rel) {
        return Some(fault);
    }
    if let Some(fault) = right_fault(tool, mat.rows, &input.rhs) {
        return Some(fault);
    }
    cap_fault(mat.cols, &input.cap)
}
