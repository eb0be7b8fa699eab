//! Single calls on vectors.

use int_vector::{below, dot, lead, norm};

#[test]
fn single_calls(rt: HostRuntime) {
    assert_eq!(rt; norm(&[i64::MAX]), Some(9223372036854775807));
    assert_eq!(rt; norm(&[i64::MAX, 1]), None);
    assert_eq!(rt; norm(&[]), Some(0));
    assert_eq!(rt; dot(&[1 << 62, (1 << 62) - 1], &[1, 1]), Some(i64::MAX));
    assert_eq!(rt; dot(&[1 << 62, 1 << 62], &[1, 1]), None);
    for (u, within) in [
        ([0, 0], true),
        ([1, 0], true),
        ([1, 1], false),
        ([2, 0], false),
    ] {
        assert_eq!(rt; below(&u, &[1, -1]), within);
    }
    assert_eq!(rt; lead(&[0, -3, 1]), -1);
    assert_eq!(rt; lead(&[0, 0]), 0);
}
