//! Streams whose first call fails.

use crate::runs::{folder_of, run_into};
use crate::texts::{POLYGON, ZHOM, ZINHOM};
use lift_core::Tool;
use outside::MemSink;
use std::alloc::Global;
use std::test::Fail;

// A stream whose first call fails.
fn failing(alloc: Global) -> Result<MemSink, Fail> {
    Ok(MemSink::new(alloc, vec![in alloc; 1]?))
}

// A failing standard output is named, and leaves the solutions whole.
#[test]
fn first_put_on_standard_output_fails(rt: HostRuntime) -> Result<(), Fail> {
    let alloc = rt.alloc();
    let mut folder = folder_of(alloc, POLYGON, &[])?;
    let (out, err) = (failing(alloc)?, MemSink::new(alloc, Vec::new(alloc)));
    let end = run_into(&rt, alloc, Tool::Zsolve, &["P"], &mut folder, out, err)?;
    assert_eq!(rt;
        end.as_str(),
        "5 Outside(Out)\nzsolve: standard output: device failure\n"
    );
    assert!(rt; folder.file(ZHOM.0) == Some(ZHOM.1.as_bytes()));
    assert!(rt; folder.file(ZINHOM.0) == Some(ZINHOM.1.as_bytes()));
    Ok(())
}

// A failing standard error changes no end. Half of the first piece of the line stands there.
#[test]
fn first_put_on_standard_error_fails(rt: HostRuntime) -> Result<(), Fail> {
    let alloc = rt.alloc();
    let mut folder = folder_of(alloc, POLYGON, &[])?;
    let (out, err) = (MemSink::new(alloc, Vec::new(alloc)), failing(alloc)?);
    let end = run_into(&rt, alloc, Tool::Zsolve, &["P", "Q"], &mut folder, out, err)?;
    assert_eq!(rt; end.as_str(), "1 Usage\nzso");
    Ok(())
}
