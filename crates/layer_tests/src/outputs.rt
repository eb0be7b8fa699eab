//! Files of small systems.

ghost use Rattle.std.specs.Prelude.{◌≡◌, ◌+◌, ◌≤◌, length, All, IfOk, OnOk};
ghost use Rattle.lift_core.specs.ToolSystems.{width, IsSign};
ghost use Rattle.int_vector.specs.Range.{InRange};

use lift_core::{System, Tool};
use outside::{MemFolder, PutEnd};
use row_pool::Pool;
use solution_files::{Kind, select, write_grid};
use stage_store::Finish;
use std::alloc::{AllocError, Global};
use std::test::Fail;

#[derive(Clone, Copy)]
enum Input {
    /// The Graver basis of x + 2 y + 3 z = 0.
    Free,
    /// The same where y is at least 0.
    HalfFree,
    /// x = y for `zsolve`, with x0.
    Diagonal,
}

// Adds two rows.
fn push_two(rows: &mut Pool, new: [[i64; 3]; 2]) -> Result<(), AllocError>
    requires rows { (rows.old.width ≡ 3) × (length rows.old.rows ≤ 8) }
    requires range { All (All InRange) new }
    ensures { OnOk result ((rows.new.width ≡ 3)
        × (length rows.new.rows ≡ length rows.old.rows + 2)) }
{
    rows.reserve(2)?;
    rows.push(&new[0]);
    rows.push(&new[1]);
    Ok(())
}

// The minimal solutions of x + 2 y + 3 z = 0 with y at least 0.
fn push_half(rows: &mut Pool) -> Result<(), AllocError>
    requires { (rows.old.width ≡ 3) × (length rows.old.rows ≡ 0) }
    ensures { OnOk result ((rows.new.width ≡ 3) × (length rows.new.rows ≡ 6)) }
{
    push_two(rows, [[-2, 1, 0], [1, 1, -1]])?;
    push_two(rows, [[3, 0, -1], [-3, 0, 1]])?;
    push_two(rows, [[-1, 2, -1], [0, 3, -2]])
}

// Those with y below 0.
fn push_others(rows: &mut Pool) -> Result<(), AllocError>
    requires { (rows.old.width ≡ 3) × (length rows.old.rows ≡ 6) }
    ensures { OnOk result (rows.new.width ≡ 3) }
{
    push_two(rows, [[2, -1, 0], [-1, -1, 1]])?;
    push_two(rows, [[1, -2, 1], [0, -3, 2]])
}

// The system of x + 2 y + 3 z = 0 for `graver`.
fn graver(alloc: Global, signs: [i8; 3]) -> Result<System, AllocError>
    requires { All IsSign signs }
    ensures { IfOk result (λ system. width system.equations ≡ 3) }
{
    let cells = Vec::from_slice(alloc, &[1, 2, 3])?;
    let signs = Vec::from_slice(alloc, &signs)?;
    let caps = Vec::from_slice(alloc, &[None; 3])?;
    Ok(System::build(Tool::Graver, 3, 3, cells, signs, caps))
}

// The system of x = y for `zsolve`, with x0.
fn diagonal(alloc: Global) -> Result<System, AllocError>
    ensures { IfOk result (λ system. width system.equations ≡ 3) }
{
    let cells = Vec::from_slice(alloc, &[1, -1, 0])?;
    let signs = Vec::from_slice(alloc, &[1, 1, 1])?;
    let caps = Vec::from_slice(alloc, &[None, None, Some(1)])?;
    Ok(System::build(Tool::Zsolve, 2, 3, cells, signs, caps))
}

fn finish(alloc: Global, input: Input) -> Result<Finish, AllocError>
    ensures { IfOk result (λ f. f.rows.width ≡ width f.system.equations) }
{
    let mut rows = Pool::new(alloc, 3);
    let system = match input {
        Input::Free => {
            push_half(&mut rows)?;
            push_others(&mut rows)?;
            graver(alloc, [2, 2, 2])?
        }
        Input::HalfFree => {
            push_half(&mut rows)?;
            graver(alloc, [2, 1, 2])?
        }
        Input::Diagonal => {
            push_two(&mut rows, [[0, 0, 1], [1, 1, 0]])?;
            diagonal(alloc)?
        }
    };
    Ok(Finish {
        system,
        rows,
        pairs: 0,
    })
}

// The file of the selected rows, where the call of this number fails, and whether it was written whole.
fn written(
    alloc: Global,
    input: Input,
    kind: Kind,
    fail: u64,
) -> Result<(Vec<u8>, Result<(), PutEnd>), Fail> {
    let grid = select(alloc, &finish(alloc, input)?, kind)?;
    let mut folder = MemFolder::new(alloc, vec![in alloc; fail]?);
    let end = write_grid(alloc, &mut folder, "P.gra", &grid);
    let bytes = match folder.file("P.gra") {
        Some(bytes) => bytes.to_vec(alloc)?,
        None => Vec::new(alloc),
    };
    Ok((bytes, end))
}

#[test]
fn files_of_small_systems(rt: HostRuntime) -> Result<(), Fail> {
    let cases = [
        (
            Input::Free,
            Kind::All,
            0,
            "5 3\n0 3 -2\n1 -2 1\n1 1 -1\n2 -1 0\n3 0 -1\n",
        ),
        (
            Input::HalfFree,
            Kind::All,
            0,
            "5 3\n-2 1 0\n-1 2 -1\n0 3 -2\n1 1 -1\n3 0 -1\n",
        ),
        // the third append fails after half of its line
        (Input::HalfFree, Kind::All, 4, "5 3\n-2 1 0\n-1 2"),
        (Input::Diagonal, Kind::Hom, 0, "1 2\n1 1\n"),
        (Input::Diagonal, Kind::Inhom, 0, "1 2\n0 0\n"),
    ];
    for (input, kind, fail, text) in cases {
        let (bytes, end) = written(rt.alloc(), input, kind, fail)?;
        assert!(rt; bytes.as_slice() == text.as_bytes(), "for {text}");
        assert_eq!(rt; end.is_ok(), fail == 0);
    }
    Ok(())
}
