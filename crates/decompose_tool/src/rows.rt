//! The rows of the user's system, and how a vector stands to them.
ghost use Rattle.std.specs.Prelude.{◌≡◌, ◌↔◌, ◌≤◌, ◌<◌, ◌*◌, ◌*ℤ◌, List, ℤ, pos, nat_abs, length, None, IsTrue, slice_index_or};
ghost use Rattle.int_vector.specs.Range.{InRange};
ghost use Rattle.int_vector.specs.Vectors.{dot, norm, largest};
ghost use Rattle.mat_files.specs.declared.relations.Rel.TheVariants.{Equal};
ghost use Rattle.system_shape.specs.Problem.{Stands, difference_before};
ghost use Rattle.system_shape.specs.Shape.{given_relations, given_rights, relation_of, relation_fault, right_fault};
ghost use Rattle.decompose_tool.specs.Inside.Steps.{user_of, IsRead, IsTimes, IsStanding, in_front, no_row};

use lift_core::Tool;
use mat_files::{Grid, Rel, RelGrid};
use system_files::{Shaped, row};

// The relation of row i, counted from 0, of m rows.
fn relation(m: u32, relations: &Option<RelGrid>, i: usize) -> Rel
    requires fits { relation_fault m relations.now ≡ None }
    requires inside { i < m }
    ensures relation { result ≡ slice_index_or (given_relations m relations.now) i Equal }
    ensures count { length (given_relations m relations.now) ≡ m }
{
    match relations {
        Some(file) => file.cells[i],
        None => Rel::Equal,
    }
}

// Its right side.
fn right_side(tool: Tool, m: u32, rights: &Option<Grid>, i: usize) -> i64
    requires fits { right_fault tool m rights.now ≡ None }
    requires inside { i < m }
    ensures right { result ≡ slice_index_or (given_rights m rights.now) i (pos 0) }
    ensures count { length (given_rights m rights.now) ≡ m }
    ensures range { InRange result }
{
    match rights {
        Some(file) => file.cells[i],
        None => 0,
    }
}

// The product of a row and a vector whose norm is in range: it always has room in 128 bits.
fn product(a: &[i64], x: &[i64]) -> i128
    requires lengths { length a.now ≡ length x.now }
    requires small { norm x.now ≤ largest }
    ensures product { result ≡ dot a.now x.now }
    ensures small { nat_abs result ≤ 9223372036854775808 * 9223372036854775807 }
{
    let mut sum: i128 = 0;
    for i in 0..a.len() {
        sum += a[i] as i128 * x[i] as i128;
    }
    sum
}

// The right side for this multiple of the right sides.
fn multiple(right: i64, times: i64) -> i64
    requires range { InRange right }
    requires times { IsTimes times }
    ensures value { result ≡ right *ℤ times }
    ensures range { InRange result }
{
    if times == 0 { 0 } else { right }
}

// How the product of a row with a vector stands to its right side.
#[derive(Clone, Copy)]
pub(crate) struct Standing {
    relation: Rel,
    product: i128,
    right: i64,
}

impl Standing {
    // Whether it is as the relation says.
    pub(crate) fn holds(&self) -> bool
        ensures { IsTrue result
            ↔ Stands (relation_of self.now.relation) self.now.product self.now.right }
    {
        let right = i128::from(self.right);
        match self.relation {
            Rel::Most => self.product <= right,
            Rel::Least => self.product >= right,
            Rel::Equal => self.product == right,
        }
    }

    // The difference of both sides of an inequality.
    pub(crate) fn difference(&self) -> Option<i128>
        requires { nat_abs self.now.product ≤ 9223372036854775808 * 9223372036854775807 }
        ensures { (rest : List ℤ)
            → difference_before (relation_of self.now.relation) self.now.product self.now.right rest
            ≡ in_front result rest }
    {
        let right = i128::from(self.right);
        match self.relation {
            Rel::Most => Some(right - self.product),
            Rel::Least => Some(self.product - right),
            Rel::Equal => None,
        }
    }
}

// How many rows there are.
fn height(shaped: &Shaped) -> u32
    ensures { result ≡ shaped.now.input.mat.rows }
{
    shaped.input.mat.rows
}

// How many of the user's columns there are.
pub(crate) fn columns(shaped: &Shaped) -> u32
    ensures { result ≡ shaped.now.input.mat.cols }
{
    shaped.input.mat.cols
}

// How row i, counted from 0, stands at x.
pub(crate) fn standing_at(shaped: &Shaped, times: i64, x: &[i64], i: usize) -> Standing
    requires read { IsRead shaped.now }
    requires times { IsTimes times }
    requires width { length x.now ≡ shaped.now.input.mat.cols }
    requires small { norm x.now ≤ largest }
    requires inside { i < shaped.now.input.mat.rows }
    ensures inside { i < length (user_of shaped.now).rows }
    ensures stands { IsStanding
        (slice_index_or (user_of shaped.now).rows i no_row) times x.now result }
{
    let input = &shaped.input;
    let m = height(shaped);
    let right = right_side(shaped.system.tool(), m, &input.rhs, i);
    Standing {
        relation: relation(m, &input.rel, i),
        product: product(row(&input.mat, i), x),
        right: multiple(right, times),
    }
}
