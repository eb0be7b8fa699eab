//! The pairs of a norm that may have an irreducible sum, by their numbers.

ghost use Rattle.std.specs.Prelude.{◌≡◌, ◌+◌, ◌-◌, ◌*◌, ◌%◌, ◌<◌, ◌≤◌, ◌^◌, ℕ, [], List, length, take, slice_index_or, MatchOption, IfOk, OnOk, IsFalse, false};
ghost use Rattle.stage_store.specs.declared.sieve.KeptPair.{KeptPair};
ghost use Rattle.std.specs.List.{Contains, AllByRecursion, sum_by};
ghost use Rattle.std.specs.List.Sorted.{IsStrictlySortedBy, IsNonDecreasingBy};
ghost use Rattle.lift_core.specs.Stages.{stage_norm, has_positive_last, has_negative_last};
ghost use Rattle.stage_store.specs.Classes.{class_cmp, ids_of, part_size, row_at, AreClasses};
ghost use Rattle.stage_store.specs.Sieve.{AreNormed};
ghost use Rattle.stage_store.specs.Opened.{AreAscending, AscendWithin, AreStarts, HasNoClass, IsClassOf, IsPlacedIn, IsNumberOf, HasNoNumber, IsNotNumbered, AreOpened, open_number};

use crate::class::{Class, ids_of_norm, place_from, size_near};
use crate::growing::norm_of;
use crate::sieve::KeptPair;
use row_pool::{Pool, RowId};
use std::alloc::{AllocError, Global};

/// A pair with its number, by the places of its rows.
#[derive(Clone, Copy, Drop)]
pub struct OpenPair {
    pub number: u64,
    pub first: u32,
    pub second: u32,
}

/// Which of the listed rows are enough to look for one below a sum of a norm.
#[derive(Clone, Copy, Drop)]
pub struct Halves {
    /// The first rows, so many of them: those of at most half of the norm, where the lists are known to be the defined ones.
    pub rows: u32,
    /// Whether those with x0 = 0 are enough for a sum with x0 = 1.
    pub by_x0: bool,
}

/// The open pairs of a norm, in order of their numbers, once they are known, and which of the listed rows are enough to
/// look for one below a sum of theirs.
#[derive(Drop)]
pub struct Opened {
    pub known: bool,
    pub norm: u64,
    pub pairs: Vec<OpenPair>,
    pub halves: Halves,
    /// Whether the lists are known to be the defined ones.
    pub defined: bool,
}

impl Opened {
    /// They are not known yet.
    pub fn unknown(alloc: Global) -> Opened
        ensures { (result.known ≡ false) × (result.defined ≡ false) }
    {
        Opened {
            known: false,
            norm: 0,
            pairs: Vec::new(alloc),
            halves: Halves {
                rows: 0,
                by_x0: false,
            },
            defined: false,
        }
    }
}

/// The place of a number among ascending ones.
fn place_of(ids: &[u32], id: u32) -> Option<usize>
    requires { AreAscending ids.now }
    ensures { MatchOption result (Contains ids.now id → ⊥)
        (λ k. (k < length ids.now) × (slice_index_or ids.now k 0 ≡ id)) }
{
    match ids.binary_search(&id) {
        Ok(k) => Some(k),
        Err(_) => None,
    }
}

/// The number of the first pair of each class of first rows.
fn part_starts(
    alloc: Global,
    plus: &[Class],
    minus: &[Class],
    e: u64,
) -> Result<Vec<u64>, AllocError>
    requires sorted { IsStrictlySortedBy class_cmp minus.now }
    requires small { sum_by (λ c. part_size minus.now e c) plus.now < 2 ^ 63 }
    ensures { IfOk result (λ starts. AreStarts plus.now minus.now e starts.items) }
{
    let mut starts = Vec::with_capacity(alloc, plus.len())?;
    let mut total: u64 = 0;
    let mut place = minus.len();
    for c in plus {
        starts.push(total)?;
        total += c.ids().len() as u64
            * size_near(minus, e.saturating_sub(c.norm()), &mut place, plus.len());
    }
    Ok(starts)
}

/// The class of a norm, by its place.
fn class_of_norm(classes: &[Class], n: u64) -> Option<usize>
    requires { IsStrictlySortedBy class_cmp classes.now }
    ensures { MatchOption result (HasNoClass classes.now n) (IsClassOf classes.now n) }
{
    let place = place_from(classes, n);
    if place < classes.len() && classes[place].norm() == n {
        Some(place)
    } else {
        None
    }
}

/// The number of the pair of two places, where the pairs of the first places and the second places are numbered from
/// `start` on.
fn number_in(firsts: &[u32], seconds: &[u32], start: u64, first: u32, second: u32) -> Option<u64>
    requires firsts { AreAscending firsts.now }
    requires seconds { AreAscending seconds.now }
    requires small { start + length firsts.now * length seconds.now < 2 ^ 63 }
    ensures { MatchOption result (Contains firsts.now first → Contains seconds.now second → ⊥)
        (IsPlacedIn firsts.now seconds.now start first second) }
{
    match (place_of(firsts, first), place_of(seconds, second)) {
        (Some(q), Some(r)) => Some(start + (q as u64 * seconds.len() as u64 + r as u64)),
        _ => None,
    }
}

/// The number of a pair of norm e, whose first row has a norm.
fn number_of(
    plus: &[Class],
    minus: &[Class],
    starts: &[u64],
    e: u64,
    norm: u64,
    first: u32,
    second: u32,
) -> Option<u64>
    requires plus { IsStrictlySortedBy class_cmp plus.now }
    requires minus { IsStrictlySortedBy class_cmp minus.now }
    requires plus_ids { AscendWithin plus.now }
    requires minus_ids { AscendWithin minus.now }
    requires starts { AreStarts plus.now minus.now e starts.now }
    requires small { sum_by (λ c. part_size minus.now e c) plus.now < 2 ^ 63 }
    ensures { MatchOption result (HasNoNumber plus.now minus.now e norm first second)
        (IsNumberOf plus.now minus.now e first second) }
{
    match class_of_norm(plus, norm) {
        None => None,
        Some(place) => {
            let seconds = ids_of_norm(minus, e.saturating_sub(norm));
            number_in(plus[place].ids(), seconds, starts[place], first, second)
        }
    }
}

/// The number of a kept pair, where it is one of norm e.
fn number_of_kept(
    listed: &Pool,
    width: usize,
    plus: &[Class],
    minus: &[Class],
    starts: &[u64],
    e: u64,
    pair: KeptPair,
) -> Option<u64>
    requires plus { AreClasses listed.now.rows has_positive_last plus.now }
    requires minus { AreClasses listed.now.rows has_negative_last minus.now }
    requires plus_ids { AscendWithin plus.now }
    requires minus_ids { AscendWithin minus.now }
    requires starts { AreStarts plus.now minus.now e starts.now }
    requires small { sum_by (λ c. part_size minus.now e c) plus.now < 2 ^ 63 }
    requires width { listed.now.width ≡ width + 1 }
    requires norms { AreNormed listed.now.rows }
    ensures { MatchOption result (IsNotNumbered plus.now minus.now e pair)
        (IsNumberOf plus.now minus.now e pair.first pair.second) }
{
    if pair.norm != e || pair.first >= listed.len() {
        return None;
    }
    let norm = norm_of(listed.row(RowId(pair.first)), width);
    number_of(plus, minus, starts, e, norm, pair.first, pair.second)
}

/// Whether a pair has norm e.
fn holds_norm(kept: &[KeptPair], e: u64) -> bool
    ensures { IsFalse result → (k : ℕ) (d : KeptPair) → k < length kept.now
        → (slice_index_or kept.now k d).norm ≡ e → ⊥ }
{
    for k in 0..kept.len() {
        if kept[k].norm == e {
            return true;
        }
    }
    false
}

/// Opens the pairs of norm e: those that were kept, by their numbers.
fn open_kept(
    alloc: Global,
    listed: &Pool,
    width: usize,
    plus: &[Class],
    minus: &[Class],
    e: u64,
    kept: &[KeptPair],
) -> Result<Vec<OpenPair>, AllocError>
    requires plus { AreClasses listed.now.rows has_positive_last plus.now }
    requires minus { AreClasses listed.now.rows has_negative_last minus.now }
    requires plus_ids { AscendWithin plus.now }
    requires minus_ids { AscendWithin minus.now }
    requires small { sum_by (λ c. part_size minus.now e c) plus.now < 2 ^ 63 }
    requires width { listed.now.width ≡ width + 1 }
    requires norms { AreNormed listed.now.rows }
    ensures { IfOk result (λ opens. AreOpened plus.now minus.now e kept.now opens.items) }
{
    let mut opens = Vec::new(alloc);
    if !holds_norm(kept, e) {
        return Ok(opens);
    }
    let starts = part_starts(alloc, plus, minus, e)?;
    for k in 0..kept.len() {
        let pair = kept[k];
        match number_of_kept(listed, width, plus, minus, &starts, e, pair) {
            None => {}
            Some(number) => opens.push(OpenPair {
                number,
                first: pair.first,
                second: pair.second,
            })?,
        }
    }
    Ok(opens)
}

/// The open pairs of norm e, in order of their numbers.
pub fn open_norm(
    alloc: Global,
    listed: &Pool,
    width: usize,
    plus: &[Class],
    minus: &[Class],
    e: u64,
    kept: &[KeptPair],
) -> Result<Opened, AllocError>
    requires plus { AreClasses listed.now.rows has_positive_last plus.now }
    requires minus { AreClasses listed.now.rows has_negative_last minus.now }
    requires plus_ids { AscendWithin plus.now }
    requires minus_ids { AscendWithin minus.now }
    requires small { sum_by (λ c. part_size minus.now e c) plus.now < 2 ^ 63 }
    requires width { listed.now.width ≡ width + 1 }
    requires norms { AreNormed listed.now.rows }
    ensures norm { IfOk result (λ o. o.norm ≡ e) }
    ensures opened { IfOk result (λ o. AreOpened plus.now minus.now e kept.now o.pairs.items) }
    ensures ascending { IfOk result (λ o. IsNonDecreasingBy open_number o.pairs.items) }
{
    let mut pairs = open_kept(alloc, listed, width, plus, minus, e, kept)?;
    pairs.sort_by_key(|pair| pair.number)?;
    Ok(Opened {
        known: true,
        norm: e,
        pairs,
        halves: Halves {
            rows: listed.len(),
            by_x0: false,
        },
        defined: false,
    })
}
