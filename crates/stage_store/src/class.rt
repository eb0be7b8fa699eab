//! Classes of rows: the places of those of one norm and one sign of the last entry, and the pairs of a norm by them.

ghost use Rattle.std.specs.Prelude.{◌≡◌, ◌<◌, ◌≤◌, ◌-◌, ◌*◌, ◌^◌, ℕ, [], length, slice_index_or, MatchOption};
ghost use Rattle.std.specs.List.{sum_by};
ghost use Rattle.std.specs.List.Sorted.{IsStrictlySortedBy};
ghost use Rattle.stage_store.specs.Classes.{ClassValue, class_cmp, ids_at, part_size, norm_at, ids_of};
ghost use Rattle.stage_store.specs.Least.{IsLeastAbove, HasNorm, HasPairNorm, lesser_lem};

use std::marker::Model;

/// Rows of one norm and one sign of the last entry, by their places.
#[derive(Drop)]
pub struct Class {
    norm: u64,
    ids: Vec<u32>,
}

impl Model for Class {
    ghost use Rattle.stage_store.specs.Classes.{ClassValue};

    ghost Value = { ClassValue };

    ghost view = { λ c. record { norm = c.norm; ids = c.ids.items } };
}

impl Class {
    /// The class of a norm, with the places of its rows.
    pub fn new(norm: u64, ids: Vec<u32>) -> Class
        ensures { result ≡ record { norm = norm; ids = ids.items } }
    {
        Class { norm, ids }
    }

    /// The norm of the rows.
    pub fn norm(&self) -> u64
        ensures { result ≡ self.now.norm }
    {
        self.norm
    }

    /// The places of the rows.
    pub fn ids(&self) -> &[u32]
        ensures { result.now ≡ self.now.ids }
    {
        &self.ids
    }
}

/// The first place of a norm that is not below n.
pub fn place_from(classes: &[Class], n: u64) -> usize
    requires { IsStrictlySortedBy class_cmp classes.now }
    ensures within { result ≤ length classes.now }
    ensures before { (k : ℕ) → k < result → norm_at classes.now k < n }
    ensures from { (k : ℕ) → result ≤ k → k < length classes.now → n ≤ norm_at classes.now k }
{
    let mut low = 0;
    let mut high = classes.len();
    while low < high {
        let middle = low + (high - low) / 2;
        if classes[middle].norm() < n {
            low = middle + 1;
        } else {
            high = middle;
        }
    }
    low
}

/// The same, looked for from a place on: back, and then onward.
fn place_near(classes: &[Class], n: u64, near: usize) -> usize
    requires { IsStrictlySortedBy class_cmp classes.now }
    ensures within { result ≤ length classes.now }
    ensures before { (k : ℕ) → k < result → norm_at classes.now k < n }
    ensures from { (k : ℕ) → result ≤ k → k < length classes.now → n ≤ norm_at classes.now k }
{
    let mut place = place_below(classes, n, near.min(classes.len()));
    while place < classes.len() && classes[place].norm() < n {
        place += 1;
    }
    place
}

/// A place before which all norms are below n, at or before another.
fn place_below(classes: &[Class], n: u64, from: usize) -> usize
    requires sorted { IsStrictlySortedBy class_cmp classes.now }
    requires within { from ≤ length classes.now }
    ensures within { result ≤ length classes.now }
    ensures before { (k : ℕ) → k < result → norm_at classes.now k < n }
{
    let mut place = from;
    while place > 0 && classes[place - 1].norm() >= n {
        place -= 1;
    }
    place
}

/// The first place of a norm that is not below n, where `count` of them are looked for one after another, and the last
/// one was at `near`.
pub fn place_next(classes: &[Class], n: u64, near: usize, count: usize) -> usize
    requires { IsStrictlySortedBy class_cmp classes.now }
    ensures within { result ≤ length classes.now }
    ensures before { (k : ℕ) → k < result → norm_at classes.now k < n }
    ensures from { (k : ℕ) → result ≤ k → k < length classes.now → n ≤ norm_at classes.now k }
{
    // A step takes less time than a search, but there may be many of them.
    if classes.len() / 16 < count {
        place_near(classes, n, near)
    } else {
        place_from(classes, n)
    }
}

/// The places of the rows of norm n, where the first place of a norm that is not below it is known.
fn ids_from(classes: &[Class], n: u64, place: usize) -> &[u32]
    requires sorted { IsStrictlySortedBy class_cmp classes.now }
    requires within { place ≤ length classes.now }
    requires before { (k : ℕ) → k < place → norm_at classes.now k < n }
    requires from { (k : ℕ) → place ≤ k → k < length classes.now → n ≤ norm_at classes.now k }
    ensures { result.now ≡ ids_at classes.now n }
{
    if place < classes.len() && classes[place].norm() == n {
        classes[place].ids()
    } else {
        &[]
    }
}

/// The places of the rows of norm n.
pub fn ids_of_norm(classes: &[Class], n: u64) -> &[u32]
    requires { IsStrictlySortedBy class_cmp classes.now }
    ensures { result.now ≡ ids_at classes.now n }
{
    ids_from(classes, n, place_from(classes, n))
}

/// The number of rows of norm n, where `count` norms are looked for one after another: `near` keeps the place.
pub fn size_near(classes: &[Class], n: u64, near: &mut usize, count: usize) -> u64
    requires { IsStrictlySortedBy class_cmp classes.now }
    ensures { result ≡ length (ids_at classes.now n) }
{
    *near = place_next(classes, n, *near, count);
    ids_from(classes, n, *near).len() as u64
}

/// The number of pairs of norm e.
pub fn count_pairs(plus: &[Class], minus: &[Class], e: u64) -> u64
    requires sorted { IsStrictlySortedBy class_cmp minus.now }
    requires small { sum_by (λ c. part_size minus.now e c) plus.now < 2 ^ 63 }
    ensures { result ≡ sum_by (λ c. part_size minus.now e c) plus.now }
{
    let mut total: u64 = 0;
    let mut place = minus.len();
    for c in plus {
        total += c.ids().len() as u64
            * size_near(minus, e.saturating_sub(c.norm()), &mut place, plus.len());
    }
    total
}

/// The places of the p-th pair of norm e.
pub fn find_pair(plus: &[Class], minus: &[Class], e: u64, p: u64) -> (u32, u32)
    requires sorted { IsStrictlySortedBy class_cmp minus.now }
    requires small { sum_by (λ c. part_size minus.now e c) plus.now < 2 ^ 63 }
    requires inside { p < length (ids_of plus.now minus.now e) }
    ensures { result ≡ slice_index_or (ids_of plus.now minus.now e) p (0, 0) }
{
    let mut rest = p;
    for c in plus {
        let seconds = ids_of_norm(minus, e.saturating_sub(c.norm()));
        let size = seconds.len() as u64;
        let part = c.ids().len() as u64 * size;
        if rest < part {
            let first = c.ids()[(rest / size) as usize];
            return (first, seconds[(rest % size) as usize]);
        }
        rest -= part;
    }
    unreachable!()
}

/// The lesser of two numbers that may be there.
pub fn lesser(x: Option<u64>, y: Option<u64>) -> Option<u64>
    ensures { result ≡ lesser_lem x y }
{
    match (x, y) {
        (None, _) => y,
        (Some(_), None) => x,
        (Some(a), Some(b)) => if a <= b { x } else { y },
    }
}

/// The least norm above d, where `count` of them are looked for one after another: `near` keeps the place.
fn norm_above(classes: &[Class], d: u64, near: &mut usize, count: usize) -> Option<u64>
    requires sorted { IsStrictlySortedBy class_cmp classes.now }
    requires small { d < 2 ^ 63 }
    ensures { IsLeastAbove (HasNorm classes.now) d result }
{
    let place = place_next(classes, d + 1, *near, count);
    *near = place;
    if place < classes.len() {
        Some(classes[place].norm())
    } else {
        None
    }
}

/// The least norm above d of a pair.
pub fn pair_norm_above(plus: &[Class], minus: &[Class], d: u64) -> Option<u64>
    requires sorted { IsStrictlySortedBy class_cmp minus.now }
    requires small { d < 2 ^ 63 }
    requires plus { (k : ℕ) → k < length plus.now → norm_at plus.now k ≤ d }
    requires minus { (k : ℕ) → k < length minus.now → norm_at minus.now k ≤ d }
    ensures { IsLeastAbove (HasPairNorm plus.now minus.now (length plus.now)) d result }
{
    let mut least = None;
    let mut place = minus.len();
    for c in plus {
        match norm_above(minus, d - c.norm(), &mut place, plus.len()) {
            Some(m) => least = lesser(least, Some(c.norm() + m)),
            None => {}
        }
    }
    least
}
