//! Texts of matrices and relations.

use mat_files::{Rel, print_grid, print_line, read_grid, read_rel};
use std::test::Fail;

// Each call succeeds: odd white space, signs and zeros are read, and printed in the plain form.
#[test]
fn prints_what_it_read(rt: HostRuntime) -> Result<(), Fail> {
    let alloc = rt.alloc();
    let grid = read_grid(alloc, b" 2  3\r\n1 +2 03\n\t-4 -0 6\n\n", 64, 64)?;
    let mut text = print_grid(alloc, &grid)?;
    print_line(&[7, -8], &mut text)?;
    assert_eq!(rt; text.as_slice(), b"2 3\n1 2 3\n-4 0 6\n7 -8\n".as_slice());
    let relations = read_rel(alloc, b"1 3\n< > =\n", 1, 64)?;
    assert_eq!(rt;
        relations.cells.as_slice(),
        [Rel::Most, Rel::Least, Rel::Equal].as_slice()
    );
    Ok(())
}
