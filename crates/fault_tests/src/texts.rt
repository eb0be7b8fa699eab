//! The files of two systems, and the restart texts of a run.

/// A file's name and its text.
pub(crate) type Text = (&'static str, &'static str);

/// The system of a polygon.
pub(crate) const POLYGON: &[Text] = &[
    ("P.mat", "3 2\n1 -1\n-3 1\n1 1\n"),
    ("P.sign", "1 2\n1 1\n"),
    ("P.rel", "1 3\n< < >\n"),
    ("P.rhs", "1 3\n2 1 1\n"),
];

/// Its homogeneous solutions.
pub(crate) const ZHOM: Text = ("P.zhom", "3 2\n1 1\n1 2\n1 3\n");

/// Its inhomogeneous solutions.
pub(crate) const ZINHOM: Text = ("P.zinhom", "4 2\n0 1\n1 0\n1 1\n2 0\n");

/// x = y, and a product with z that is 2^63-1.
pub(crate) const TWO_EQUATIONS: &[Text] = &[(
    "P.mat",
    "2 3\n1 -1 0\n4611686018427387904 4611686018427387903 -9223372036854775807\n",
)];

/// Its solution.
pub(crate) const HIL: Text = ("P.hil", "1 3\n1 1 1\n");

/// Its backup after the first closed norm.
pub(crate) const FIRST: Text = (
    "P.ckp0",
    "restart 2
tool hilbert
shape 3 3 2
signs 1 1 1
caps * * *
row 1 -1 0
row 4611686018427387904 4611686018427387903 -9223372036854775807
place 1 1
used 0
listed 3
0 0 1 0
0 1 0 -1
1 0 0 1
classes 1 1 1
waiting 0
digest 43f5d44a1809ea04925eedd9099d183c69ef3ba7b4b11802c9073541ebd23e02
",
);

/// After the second.
pub(crate) const SECOND: Text = (
    "P.ckp1",
    "restart 2
tool hilbert
shape 3 3 2
signs 1 1 1
caps * * *
row 1 -1 0
row 4611686018427387904 4611686018427387903 -9223372036854775807
place 1 2
used 1
listed 4
0 0 1 0
0 1 0 -1
1 0 0 1
1 1 0 0
classes 1 2 1
waiting 0
digest 58007e6e2fdf2555bc7082e76e8464ed14c290436b827efe8d045e6926b6db41
",
);

/// After the third, the first of the second equation.
pub(crate) const THIRD: Text = (
    "P.ckp0",
    "restart 2
tool hilbert
shape 3 3 2
signs 1 1 1
caps * * *
row 1 -1 0
row 4611686018427387904 4611686018427387903 -9223372036854775807
place 2 1
used 1
listed 1
0 0 1 -9223372036854775807
classes 0 0 1
waiting 1
1 1 0 9223372036854775807
digest d8c1b41d1c87b5979b2b902acf9074e9a9c233495560c1934d564a9b6bad4b1c
",
);

/// After the fourth.
pub(crate) const FOURTH: Text = (
    "P.ckp1",
    "restart 2
tool hilbert
shape 3 3 2
signs 1 1 1
caps * * *
row 1 -1 0
row 4611686018427387904 4611686018427387903 -9223372036854775807
place 2 2
used 1
listed 2
0 0 1 -9223372036854775807
1 1 0 9223372036854775807
classes 1 0 1
waiting 0
digest 4c6c84b947a72f79a0d32852076f3e887438387b7a7c9a46e13bc0719cc0c78c
",
);
