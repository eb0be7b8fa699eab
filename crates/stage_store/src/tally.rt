//! The numbers of pairs of some norms in a row, so that the next norm that has pairs is found by looking at a few numbers.

ghost use Rattle.std.specs.Prelude.{◌≡◌, ◌+◌, ◌-◌, ◌*◌, ◌<◌, ◌≤◌, ◌^◌, ◌⊎◌, ℕ, length, IfSome, MatchOption};
ghost use Rattle.std.specs.List.Sorted.{IsStrictlySortedBy};
ghost use Rattle.stage_store.specs.Classes.{class_cmp, norm_at};
ghost use Rattle.stage_store.specs.Tallies.{IsInRange, IsClear, HasRaised, HasGained, IsTally, IsNoted, IsNextNoted};

use crate::class::{Class, place_from, place_next};
use std::alloc::Global;

/// The most norms whose pairs are counted.
const MOST: u64 = 65_536;

/// The fewest norms that are counted at a time.
const FEWEST: u64 = 16;

/// The numbers of pairs of the norms from `base` on, `span` of them.
#[derive(Drop)]
pub struct Tally {
    pub base: u64,
    pub span: u64,
    pub counts: Vec<u64>,
}

impl Tally {
    /// No norm is counted yet.
    pub fn new(alloc: Global) -> Tally
        ensures range { IsInRange result }
        ensures empty { result.span ≡ 0 }
    {
        Tally {
            base: 0,
            span: 0,
            counts: Vec::new(alloc),
        }
    }

    /// The place of a norm, where it is counted.
    fn place(&self, norm: u64) -> Option<usize>
        ensures { MatchOption result
            ((norm < self.now.base) ⊎ (self.now.base + self.now.span ≤ norm))
            (λ i. (i < self.now.span) × (self.now.base + i ≡ norm)) }
    {
        if norm < self.base || norm - self.base >= self.span {
            return None;
        }
        Some((norm - self.base) as usize)
    }

    /// The number of pairs of a norm, where it is counted.
    pub fn pairs(&self, norm: u64) -> Option<u64>
        requires { IsInRange self.now }
        ensures { IfSome result (IsNoted self.now norm) }
    {
        match self.place(norm) {
            Some(place) => Some(self.counts[place]),
            None => None,
        }
    }

    /// The least norm above d that has pairs, where it is counted and those before it are.
    pub fn next_above(&self, d: u64) -> Option<u64>
        requires range { IsInRange self.now }
        requires small { d < 2 ^ 63 }
        ensures { IfSome result (IsNextNoted self.now d) }
    {
        let Some(from) = self.place(d + 1) else {
            return None;
        };
        for i in from..self.span as usize {
            if self.counts[i] > 0 {
                return Some(self.base + i as u64);
            }
        }
        None
    }

    /// Adds the product of two numbers at a place. Where that leaves the range, no norm is counted any more.
    fn raise(&mut self, place: usize, firsts: u32, seconds: usize)
        requires range { IsInRange self.old }
        requires place { place < self.old.span }
        ensures range { IsInRange self.new }
        ensures raised { HasRaised self.old self.new place (firsts * seconds) }
    {
        match raised(self.counts[place], firsts, seconds) {
            Some(count) => self.counts[place] = count,
            None => self.span = 0,
        }
    }

    /// Adds the pairs of a class with the classes of the other sign.
    pub fn add(&mut self, others: &[Class], class: &Class)
        requires range { IsInRange self.old }
        requires sorted { IsStrictlySortedBy class_cmp others.now }
        requires positive { (k : ℕ) → k < length others.now → 0 < norm_at others.now k }
        ensures range { IsInRange self.new }
        ensures gained { HasGained self.old self.new others.now class.now }
    {
        // Most norms list no row.
        if class.ids().is_empty() {
            return;
        }
        let from = place_from(others, self.base.saturating_sub(class.norm()));
        self.add_from(others, class, from);
    }

    /// The same, where the place is known from which on the pairs with this class have no norm below
    /// those that are counted.
    fn add_from(&mut self, others: &[Class], class: &Class, from: usize)
        requires range { IsInRange self.old }
        requires sorted { IsStrictlySortedBy class_cmp others.now }
        requires positive { (k : ℕ) → k < length others.now → 0 < norm_at others.now k }
        requires within { from ≤ length others.now }
        requires before { (k : ℕ) → k < from
            → norm_at others.now k < self.old.base - class.now.norm }
        requires from { (k : ℕ) → from ≤ k → k < length others.now
            → self.old.base - class.now.norm ≤ norm_at others.now k }
        ensures range { IsInRange self.new }
        ensures gained { HasGained self.old self.new others.now class.now }
    {
        let Ok(firsts) = u32::try_from(class.ids().len()) else {
            self.span = 0;
            return;
        };
        for k in from..others.len() {
            let Some(place) = self.place(class.norm().saturating_add(others[k].norm())) else {
                return;
            };
            self.raise(place, firsts, others[k].ids().len());
        }
    }

    /// The norms from `base` on are counted, of which none has pairs yet. More of them than the last time where that
    /// paid: where the norm comes soon after them. As few as there is memory for.
    fn clear(&mut self, base: u64)
        requires range { IsInRange self.old }
        requires small { base < 2 ^ 63 }
        ensures range { IsInRange self.new }
        ensures clear { IsClear base self.new }
    {
        let soon = base.saturating_sub(self.base) / 4 < self.span;
        let wanted = if soon {
            self.span.min(MOST) * 2
        } else {
            self.span / 2
        };
        let count = wanted.max(FEWEST).min(MOST);
        fill(&mut self.counts, count as usize);
        let span = count.min(self.counts.len() as u64);
        self.base = base;
        self.span = span;
        for i in 0..span as usize {
            self.counts[i] = 0;
        }
    }

    /// Counts the pairs of the norms from `base` on, by one walk over the classes of both signs.
    pub fn restart(&mut self, plus: &[Class], minus: &[Class], base: u64)
        requires range { IsInRange self.old }
        requires small { base < 2 ^ 63 }
        requires sorted { IsStrictlySortedBy class_cmp minus.now }
        requires positive { (k : ℕ) → k < length minus.now → 0 < norm_at minus.now k }
        ensures { IsTally plus.now minus.now self.new }
    {
        self.clear(base);
        let mut near = minus.len();
        for class in plus {
            let least = self.base.saturating_sub(class.norm());
            near = place_next(minus, least, near, plus.len());
            self.add_from(minus, class, near);
        }
    }
}

/// Zeros behind some numbers, up to so many; fewer where memory is refused.
fn fill(numbers: &mut Vec<u64>, len: usize) {
    while numbers.len() < len {
        if numbers.push(0).is_err() {
            return;
        }
    }
}

/// What a number and the product of two others come to, where that is in range.
fn raised(count: u64, firsts: u32, seconds: usize) -> Option<u64>
    ensures { IfSome result (λ n. n ≡ count + firsts * seconds) }
{
    match u32::try_from(seconds) {
        Ok(seconds) => count.checked_add(u64::from(firsts) * u64::from(seconds)),
        Err(_) => None,
    }
}
