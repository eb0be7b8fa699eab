//! A system and its copy.

use lift_core::{System, Tool};
use std::alloc::{AllocError, Global};
use std::test::Fail;

// 2 x = 1 for `zsolve`: 2 x - x0 = 0
fn half(alloc: Global) -> Result<System, AllocError> {
    let rows = Vec::from_slice(alloc, &[2, -1])?;
    let signs = Vec::from_slice(alloc, &[1, 1])?;
    let caps = Vec::from_slice(alloc, &[None, Some(1)])?;
    Ok(System::build(Tool::Zsolve, 1, 2, rows, signs, caps))
}

// Whether the calls answer as for 2 x - x0 = 0.
fn is_half(system: &System) -> bool {
    system.n() == 1
        && system.width() == 2
        && system.count() == 1
        && system.row(1) == [2, -1].as_slice()
        && system.solves(1, &[1, 2])
        && !system.solves(1, &[1, 1])
        && system.obeys(&[1, 1])
        && !system.obeys(&[1, 2])
        && !system.obeys(&[-1, 1])
        && system.home(&[3, 1]) == 1
        && system.written(&[3, 1]) == [3].as_slice()
}

#[test]
fn a_copy_is_an_equal_system(rt: HostRuntime) -> Result<(), Fail> {
    let system = half(rt.alloc())?;
    let copy = system.copy(rt.alloc())?;
    assert!(rt; copy.same(&system));
    assert!(rt; is_half(&copy));
    Ok(())
}
