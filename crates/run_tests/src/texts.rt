//! Texts of restart files that are accepted, and texts that are refused with their first fault.

use crate::systems::{at_the_edge, even};
use lift_core::System;
use outside::{Folder, SureFolder};
use restart_file::{RestartEnd, RestartFault, read_restart};
use std::alloc::Global;
use std::test::Fail;

// Stage 2 at norm 2 of two equations, of which the second has a product 2^63-1.
const LAST: &[u8] = b"restart 2
tool hilbert
shape 3 3 2
signs 1 1 1
caps * * *
row 1 -1 0
row 4611686018427387904 4611686018427387903 -9223372036854775807
place 2 2
used 1
listed 2
0 0 1 -9223372036854775807
1 1 0 9223372036854775807
classes 1 0 1
waiting 0
digest 4c6c84b947a72f79a0d32852076f3e887438387b7a7c9a46e13bc0719cc0c78c
";

// The same stage in the first version.
const FIRST_VERSION: &[u8] = b"restart 1
tool hilbert
shape 3 3 2
signs 1 1 1
row 1 -1 0
row 4611686018427387904 4611686018427387903 -9223372036854775807
place 2 2
used 1
listed 2
0 0 1 -9223372036854775807
1 1 0 9223372036854775807
waiting 0
digest c71c84affc6b48d99499d382bb5c605cc696628bc4a6039612b6f153e8fdbac0
";

// The classes of another stage.
const CLASSES: &[u8] = b"restart 2
tool hilbert
shape 3 3 2
signs 1 1 1
caps * * *
row 1 -1 0
row 4611686018427387904 4611686018427387903 -9223372036854775807
place 2 2
used 1
listed 2
0 0 1 -9223372036854775807
1 1 0 9223372036854775807
classes 1 0 2
waiting 0
digest 6c1d7aa89225170bc4b92dc70fe02a636400885755cdb49404b37a7c0f3c1452
";

// Two rows whose pair has norm 2^63.
const WIDE: &[u8] = b"restart 1
tool hilbert
shape 2 2 1
signs 1 1
row 1 -1
place 1 4611686018427387904
used 0
listed 2
0 4611686018427387904 -4611686018427387904
4611686018427387904 0 4611686018427387904
waiting 0
digest 132681c82d43a91b9a6981a05568cbad0b1bd5380efcf0cfe9a0393a1e7979c7
";

// The last entry of the second row is 1.
const OTHER_PRODUCT: &[u8] = b"restart 1
tool hilbert
shape 2 2 1
signs 1 1
row 1 -1
place 1 4611686018427387904
used 0
listed 2
0 4611686018427387904 -4611686018427387904
4611686018427387904 0 1
waiting 0
digest c6ff608238ec91d2961ea59898a64340646cea145e780504b7d3b0ee23f5cbcd
";

// A row of another system.
const OTHER_ROW: &[u8] = b"restart 1
tool hilbert
shape 2 2 1
signs 1 1
row 1 -2
place 1 4611686018427387904
used 0
listed 2
0 4611686018427387904 -4611686018427387904
4611686018427387904 0 4611686018427387904
waiting 0
digest 9293cea8f67d3827dd661966e2c3dc8071cbceff82c480356101726f96fe19c1
";

// Three rows are said to be listed.
const ROW_TOO_FEW: &[u8] = b"restart 1
tool hilbert
shape 2 2 1
signs 1 1
row 1 -1
place 1 4611686018427387904
used 0
listed 3
0 4611686018427387904 -4611686018427387904
4611686018427387904 0 4611686018427387904
waiting 0
digest 5f9f0a784c7b4f123b69ebb5eeb9df9db09e21542afa15e7f16032213b04db75
";

// What stands in the way of reading the text as a restart file of the system.
fn end_of(alloc: Global, system: &System, text: &[u8]) -> Option<RestartEnd> {
    let mut folder = SureFolder::new(alloc);
    if folder.append("P.ckp0", text).is_err() {
        return Some(RestartEnd::Failed);
    }
    match read_restart(alloc, system, &mut folder, "P.ckp0") {
        Ok(_) => None,
        Err(end) => Some(end),
    }
}

// The same of a fault.
const fn bad(fault: RestartFault) -> Option<RestartEnd> {
    Some(RestartEnd::Bad(fault))
}

#[test]
fn both_versions_are_read(rt: HostRuntime) -> Result<(), Fail> {
    let system = at_the_edge(rt.alloc())?;
    for text in [LAST, FIRST_VERSION] {
        assert_eq!(rt; end_of(rt.alloc(), &system, text), None);
    }
    Ok(())
}

#[test]
fn other_classes_and_a_lost_byte_are_refused(rt: HostRuntime) -> Result<(), Fail> {
    let system = at_the_edge(rt.alloc())?;
    assert_eq!(rt;
        (
            end_of(rt.alloc(), &system, CLASSES),
            end_of(rt.alloc(), &system, &LAST[1..])
        ),
        (
            bad(RestartFault::Classes { line: 13 }),
            bad(RestartFault::Digest)
        )
    );
    Ok(())
}

#[test]
fn faults_have_their_line(rt: HostRuntime) -> Result<(), Fail> {
    let system = even(rt.alloc())?;
    for (text, end) in [
        (WIDE, None),
        (OTHER_PRODUCT, bad(RestartFault::NotSolution { line: 10 })),
        (OTHER_ROW, bad(RestartFault::OtherSystem { line: 5 })),
        (ROW_TOO_FEW, bad(RestartFault::Text { line: 11 })),
    ] {
        assert_eq!(rt; end_of(rt.alloc(), &system, text), end);
    }
    Ok(())
}
