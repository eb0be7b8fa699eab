//! Lines of bits over 64 rows: what each of the rows says, so that 64 of them are asked at once.

ghost use Rattle.std.specs.Prelude.{◌≡◌, ◌+◌, ◌*◌, ◌/◌, ◌%◌, ◌<◌, ◌≤◌, ℕ, length, slice_index_or, IfOk, IfSome, OnOk};
ghost use Rattle.stage_store.specs.Lines.{HasBit, IsSaidLevel, AreClear, MarksRow, with_bit, IsAny, AreInside, AreMarked, AreSaid, IsMarkedAt};

use std::alloc::{AllocError, Global};
use std::marker::Model;

/// Lines of 64 bits, one for each thing that a row may say. A line has a bit for each row.
#[derive(Drop)]
pub struct Lines {
    words: Vec<u64>,
}

impl Model for Lines {
    ghost use Rattle.std.specs.Prelude.{List, ℕ};

    ghost Value = { List ℕ };

    ghost view = { λ l. l.words.items };
}

impl Lines {
    /// So many lines without a bit that is set.
    pub fn new(alloc: Global, count: usize) -> Result<Lines, AllocError>
        ensures count { IfOk result (λ l. length l ≡ count) }
        ensures clear { IfOk result AreClear }
    {
        Ok(Lines {
            words: vec![in alloc; 0; count]?,
        })
    }

    /// Marks row `q` in the lines that are said by its levels: eight lines an item, the upper ones from the level on, or
    /// the lower ones before it.
    pub fn mark(&mut self, upper: bool, levels: &[u8], q: usize)
        requires count { length self.old ≡ 8 * length levels.now }
        requires row { q < 64 }
        ensures count { length self.new ≡ length self.old }
        ensures marks { MarksRow upper levels.now q self.old self.new }
    {
        for k in 0..levels.len() {
            mark_item(&mut self.words, upper, levels, k, q);
        }
    }

    /// Takes in the places of lines in which row `q` is marked, for each item the one next to those in which it is not.
    pub fn take_marked(
        &self,
        upper: bool,
        q: usize,
        places: &mut Vec<usize>,
    ) -> Result<(), AllocError>
        requires { q < 64 }
        ensures { OnOk result (AreMarked self.now q places.new.items) }
    {
        places.truncate(0);
        for k in 0..self.words.len() / 8 {
            if let Some(place) = self.marked_in(upper, q, k) {
                places.push(place)?;
            }
        }
        Ok(())
    }

    /// The line of an item in which a row is marked, and which stands next to those in which it is not.
    fn marked_in(&self, upper: bool, q: usize, item: usize) -> Option<usize>
        requires row { q < 64 }
        requires item { 8 * item + 8 ≤ length self.now }
        ensures { IfSome result (IsMarkedAt self.now q) }
    {
        for l in 0..8 {
            let place = 8 * item + level_at(upper, l);
            if (self.words[place] >> q) & 1 == 1 {
                return Some(place);
            }
        }
        None
    }

    /// A line, and one without a bit that is set where there is none.
    pub fn line(&self, m: usize) -> u64 {
        match self.words.get(m) {
            Some(word) => *word,
            None => 0,
        }
    }

    /// The rows that have a bit in one of the lines. Lines are read until all have one.
    pub fn any(&self, places: &[usize]) -> u64
        requires { AreInside (length self.now) places.now }
        ensures { IsAny self.now places.now result }
    {
        let mut bits = 0;
        for k in 0..places.len() {
            bits |= self.words[places[k]];
            if bits == u64::MAX {
                return bits;
            }
        }
        bits
    }
}

/// The levels of an item, first those that are said least: from the lowest on, or from the highest down.
fn level_at(upper: bool, l: usize) -> usize
    requires { l < 8 }
    ensures { result < 8 }
{
    if upper { l } else { 7 - l }
}

/// Marks row `q` in the lines of an item that are said. Of most items none are.
fn mark_item(words: &mut Vec<u64>, upper: bool, levels: &[u8], k: usize, q: usize)
    requires count { length words.old.items ≡ 8 * length levels.now }
    requires item { k < length levels.now }
    requires row { q < 64 }
    ensures count { length words.new.items ≡ length words.old.items }
    ensures marks { MarksRow upper levels.now q words.old.items words.new.items }
{
    let (from, to) = said_levels(upper, levels[k]);
    for l in from..to {
        set_bit(words, 8 * k + l, q);
    }
}

/// The levels of an item that are said: from the first one on, before the second.
fn said_levels(upper: bool, level: u8) -> (usize, usize)
    ensures to { result.1 ≤ 8 }
    ensures said { (l : ℕ) → result.0 ≤ l → l < result.1 → IsSaidLevel upper level l }
{
    let edge = (level as usize).min(8);
    if upper { (edge, 8) } else { (0, edge) }
}

/// Sets a bit of a word.
fn set_bit(words: &mut Vec<u64>, m: usize, q: usize)
    requires word { m < length words.old.items }
    requires bit { q < 64 }
    ensures { words.new.items ≡ with_bit words.old.items m q }
{
    words[m] |= 1_u64 << q;
}

/// The level of an item that is said and stands next to those that are not, where one is said.
fn edge(upper: bool, level: u8) -> Option<u8>
    ensures level { IfSome result (λ l. l < 8) }
    ensures said { IfSome result (IsSaidLevel upper level) }
{
    if upper {
        if level < 8 { Some(level) } else { None }
    } else if level > 0 {
        Some((level - 1).min(7))
    } else {
        None
    }
}

/// The greatest number of items, two for each column.
const ITEMS: usize = 260;

/// Takes in the places of lines that are said, one for each item of which a level is.
pub fn take_said(upper: bool, levels: &[u8], places: &mut Vec<usize>) -> Result<(), AllocError>
    ensures { OnOk result (AreSaid upper levels.now places.new.items) }
{
    places.truncate(0);
    for k in 0..levels.len().min(ITEMS) {
        if let Some(level) = edge(upper, levels[k]) {
            places.push(8 * k + level as usize)?;
        }
    }
    Ok(())
}
