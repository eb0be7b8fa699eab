//! A tree's answers, beside those of a plain search.

ghost use Rattle.std.specs.Prelude.{◌≡◌, ◌≤◌, ◌<◌, length, nat_abs, IfOk, All};
ghost use Rattle.int_vector.specs.Range.{InRange};
ghost use Rattle.reduce_tree.specs.Tree.{Fits, places_of};

use int_vector::{Visits, below};
use reduce_tree::Tree;
use row_pool::{Pool, RowId};
use std::alloc::{AllocError, Global};
use std::test::Fail;

// Files all rows of a pool.
fn whole_tree(alloc: Global, pool: &Pool) -> Result<Tree, AllocError>
    requires { pool.now.width ≤ 130 }
    ensures { IfOk result
        (λ tree. Fits tree pool.now × (length (places_of tree) ≡ length pool.now.rows)) }
{
    let mut tree = Tree::new(alloc, pool.width());
    for place in 0..pool.len() {
        tree.insert(pool, RowId(place))?;
    }
    Ok(tree)
}

// Files the first rows of a pool: files all, and takes the others out again.
fn tree_of(alloc: Global, pool: &Pool, len: u32) -> Result<Tree, AllocError>
    requires { (pool.now.width ≤ 130) × (len ≤ length pool.now.rows) }
    ensures { IfOk result (λ tree. Fits tree pool.now) }
{
    let mut tree = whole_tree(alloc, pool)?;
    tree.truncate(len);
    Ok(tree)
}

// The length of a tree of the first rows of (1, 0, 1) and (1, 1, -1), what it finds below z, and the visits.
fn among_two(alloc: Global, len: u32, z: [i64; 3]) -> Result<(u32, Option<RowId>, u64), AllocError>
    requires { len ≤ 2 }
{
    let mut pool = Pool::new(alloc, 3);
    pool.reserve(2)?;
    pool.push(&[1, 0, 1]);
    pool.push(&[1, 1, -1]);
    let tree = tree_of(alloc, &pool, len)?;
    let mut visits = Visits::default();
    let found = tree.find_below(&pool, &z, &mut visits);
    Ok((tree.len(), found, visits.count))
}

#[test]
fn two_rows(rt: HostRuntime) -> Result<(), Fail> {
    let cases = [
        (2, [2, 1, -1], Some(RowId(1)), 1),
        (2, [2, 1, 0], None, 0),
        (2, [1, 0, 2], Some(RowId(0)), 1),
        (1, [2, 1, -1], None, 0),
        (1, [1, 0, 2], Some(RowId(0)), 1),
    ];
    for (len, z, place, visits) in cases {
        assert_eq!(rt; among_two(rt.alloc(), len, z)?, (len, place, visits));
    }
    Ok(())
}

// The next number of a linear congruential generator (Knuth's MMIX).
fn next(number: u64) -> u64 {
    number
        .wrapping_mul(6364136223846793005)
        .wrapping_add(1442695040888963407)
}

// A number from -most to most.
fn entry(number: u64, most: u64) -> i64
    requires { most < 10 }
    ensures { nat_abs result ≤ 9 }
{
    (number % (2 * most + 1)) as i64 - most as i64
}

// A vector of a generated number.
fn vector(number: u64, ends: u64, middle: u64) -> [i64; 4]
    requires { (ends < 10) × (middle < 10) }
    ensures { All InRange result }
{
    [
        entry(number >> 52, ends),
        entry(number >> 44, middle),
        entry(number >> 36, middle),
        entry(number >> 28, ends),
    ]
}

// A thousand generated rows, two that are 0 but for the last entry, and the zero row. They fill buckets of up to 161
// rows, so of three blocks.
fn rows(alloc: Global) -> Result<Pool, AllocError>
    ensures { IfOk result (λ pool. (pool.width ≡ 4) × (length pool.rows ≡ 1003)) }
{
    let mut pool = Pool::new(alloc, 4);
    pool.reserve(1003)?;
    let mut number = 1;
    for _ in 0..1000_u32 {
        number = next(number);
        pool.push(&vector(number, 2, 9));
    }
    pool.push(&[0, 0, 0, -2]);
    pool.push(&[0, 0, 0, 1]);
    pool.push(&[0, 0, 0, 0]);
    Ok(pool)
}

// Whether one of the first rows is below z, by a look at each of them.
fn scan(pool: &Pool, len: u32, z: &[i64]) -> bool
    requires { (len ≤ length pool.now.rows) × (length z.now ≡ pool.now.width) }
{
    for place in 0..len {
        if below(pool.row(RowId(place)), z) {
            return true;
        }
    }
    false
}

// Of a hundred generated vectors, how many have one of the first rows below them by the tree, and about how many the
// scan finds otherwise.
fn compare(alloc: Global, len: u32) -> Result<(u32, u32), AllocError>
    requires { len ≤ 1003 }
{
    let pool = rows(alloc)?;
    let tree = tree_of(alloc, &pool, len)?;
    let mut found: u32 = 0;
    let mut differ: u32 = 0;
    let mut visits = Visits::default();
    let mut number = 7;
    for _ in 0..100 {
        number = next(number);
        let z = vector(number, 3, 3);
        let agrees = match tree.find_below(&pool, &z, &mut visits) {
            Some(id) => {
                found = found.saturating_add(1);
                id.0 < len && below(pool.row(id), &z)
            }
            None => !scan(&pool, len, &z),
        };
        if !agrees {
            differ = differ.saturating_add(1);
        }
    }
    Ok((found, differ))
}

// How many vectors have a row below them was counted by a program in another language.
#[test]
fn tree_and_scan_agree(rt: HostRuntime) -> Result<(), Fail> {
    let cases = [
        (1003, 100),
        (1002, 95),
        (1000, 90),
        (300, 82),
        (70, 35),
        (9, 11),
    ];
    for (len, found) in cases {
        assert_eq!(rt; compare(rt.alloc(), len)?, (found, 0), "of {len} rows");
    }
    Ok(())
}
