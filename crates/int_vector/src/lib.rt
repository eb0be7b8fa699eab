//! Vectors of whole numbers as slices: norm, product with a row, conformal order, sum, lexicographic order.
//!
//! A vector is a slice of `i64`. Entries are in range: from -(2^63-1) to 2^63-1, so that the negative of an entry is
//! one too. These are the innermost loops of the lifting. They take no memory, and a loop over two slices goes over
//! both at once and stops at the first entry that decides.
#![tactic(auto)]

ghost use Rattle.std.specs.Prelude.{◌≡◌, ◌+◌, ◌-◌, ◌^◌, ◌↔◌, ◌<◌, ◌≤◌, length, min, IsTrue, MatchOption, nat_abs, pos, ◌+ℤ◌, ◌*ℤ◌, ◌<ℤ◌};
ghost use Rattle.std.specs.List.{AllZip};
ghost use Rattle.std.specs.Ordering.{int_cmp};
ghost use Rattle.std.specs.Cmp.Lexicographic.{slice_cmp};
ghost use Rattle.int_vector.specs.Vectors.{IsWithin, ◌⊑◌, norm, dot, IsZero};
ghost use Rattle.int_vector.specs.Operations.{add, AreConformal, leading_entry, sign};

use std::cmp::Ordering;

/// The greatest absolute value of an entry in range, 2^63-1.
pub const LARGEST: u64 = 9223372036854775807;

/// The sum of the absolute values of the entries.
///
/// `None` exactly where it is greater than 2^63-1.
#[tactic(auto, using(crate::proofs::Steps::norm_more, crate::proofs::Steps::norm_more_le))]
pub fn norm(v: &[i64]) -> Option<u64>
    ensures { MatchOption result (LARGEST < norm v.now) (λ n. (n ≡ norm v.now) × (n ≤ LARGEST)) }
{
    // What is summed so far is below 2^63, and an absolute value at most 2^63: no sum of the two wraps.
    let mut sum: u64 = 0;
    for x in v {
        sum += x.unsigned_abs();
        if sum > LARGEST {
            return None;
        }
    }
    Some(sum)
}

/// The product of a row and a vector, for a vector whose norm is in range.
///
/// `None` exactly where the product is out of range: a partial sum may leave the range, and come back.
pub fn dot(a: &[i64], v: &[i64]) -> Option<i64>
    requires lengths { length a.now ≡ length v.now }
    requires small { norm v.now ≤ LARGEST }
    ensures { MatchOption result (LARGEST < nat_abs (dot a.now v.now))
        (λ x. (x ≡ dot a.now v.now) × (nat_abs x ≤ LARGEST)) }
{
    let mut sum: i128 = 0;
    for i in 0..a.len() {
        sum += a[i] as i128 * v[i] as i128;
    }
    if sum.unsigned_abs() > LARGEST as u128 {
        None
    } else {
        Some(sum as i64)
    }
}

/// Whether `u` is below `v` in the conformal order of Graver (1975): in each component it has no sign against the
/// entry of `v`, and its absolute value is no larger.
pub fn below(u: &[i64], v: &[i64]) -> bool
    requires { length u.now ≡ length v.now }
    ensures { IsTrue result ↔ (u.now ⊑ v.now) }
{
    for i in 0..u.len() {
        if !is_within(u[i], v[i]) {
            return false;
        }
    }
    true
}

/// Whether `x` has no sign against that of `y`, and is no larger.
fn is_within(x: i64, y: i64) -> bool
    ensures { IsTrue result ↔ IsWithin x y }
{
    // Most entries are 0, and are asked nothing else.
    if x == 0 {
        return true;
    }
    if x > 0 { y >= x } else { y <= x }
}

/// Whether two vectors are conformal: in no component they have opposite signs.
pub fn conformal(u: &[i64], v: &[i64]) -> bool
    requires { length u.now ≡ length v.now }
    ensures { IsTrue result ↔ AreConformal u.now v.now }
{
    for i in 0..u.len() {
        if are_opposite(u[i], v[i]) {
            return false;
        }
    }
    true
}

/// Whether one number is above 0 and the other below.
fn are_opposite(x: i64, y: i64) -> bool
    ensures { IsTrue result ↔ ((x *ℤ y) <ℤ pos 0) }
{
    // The product always has room in 128 bits, and to ask its sign is a single branch.
    (x as i128 * y as i128) < 0
}

/// Writes the sum of two vectors, each entry of which is in range, into `out`.
#[tactic(auto, using(crate::proofs::Sums::sum_laws))]
pub fn add_into(u: &[i64], v: &[i64], out: &mut [i64])
    requires first { length u.now ≡ length out.old }
    requires second { length v.now ≡ length out.old }
    requires fits { AllZip (λ x y. nat_abs (x +ℤ y) ≤ LARGEST) u.now v.now }
    ensures { out.new ≡ add u.now v.now }
{
    for i in 0..out.len() {
        out[i] = plus(u[i], v[i]);
    }
}

/// The sum of two entries.
fn plus(x: i64, y: i64) -> i64
    requires { nat_abs (x +ℤ y) ≤ LARGEST }
    ensures { result ≡ x +ℤ y }
{
    x + y
}

/// The lexicographic order: by the first component in which two vectors differ.
pub fn lex(u: &[i64], v: &[i64]) -> Ordering
    ensures { result ≡ slice_cmp int_cmp u.now v.now }
{
    u.cmp(v)
}

/// Whether two vectors are the same.
pub fn same(u: &[i64], v: &[i64]) -> bool
    ensures { IsTrue result ↔ (u.now ≡ v.now) }
{
    u == v
}

/// Whether each entry is 0.
pub fn is_zero(v: &[i64]) -> bool
    ensures { IsTrue result ↔ IsZero v.now }
{
    for x in v {
        if *x != 0 {
            return false;
        }
    }
    true
}

/// The sign of the leading entry, the first that is not 0: 1 or -1, and 0 for the zero vector.
///
/// Of a vector other than zero and its negative, exactly one has the sign 1.
pub fn lead(v: &[i64]) -> i8
    ensures { result ≡ sign (leading_entry v.now) }
{
    for entry in v {
        if *entry > 0 {
            return 1;
        }
        if *entry < 0 {
            return -1;
        }
    }
    0
}

/// How many rows a search compared: a counter that stays at 2^64-1 once it is there.
#[derive(Clone, Copy, Debug, Default, PartialEq, Eq)]
pub struct Visits {
    pub count: u64,
}

impl Visits {
    /// Counts one row more.
    pub fn add(&mut self)
        ensures { self.new.count ≡ min (self.old.count + 1) (2 ^ 64 - 1) }
    {
        self.count = self.count.saturating_add(1);
    }
}
