//! What a search asks of a row before it compares it, and what neighbours have in common.

ghost use Rattle.std.specs.Prelude.{◌↔◌, IsTrue};
ghost use Rattle.reduce_tree.specs.Inside.Bounds.{Admits};

/// What is known of a row that is looked for, which is below a vector z and stands before an end.
#[derive(Clone, Copy)]
pub struct Bounds {
    /// The classes of the items of z, among which those of the row are.
    pub classes: u128,
    /// The bits that z's signature lacks, of which the row has none.
    pub outside: u128,
    /// The size of z's last entry, which is at least that of the row.
    pub size: u32,
    /// The end: the row's place is below it.
    pub end: u32,
}

/// Bits that some rows all have, a size that each of them reaches, and a place that none of them stands before.
#[derive(Clone, Copy)]
pub struct Word {
    pub bits: u128,
    pub size: u32,
    pub place: u32,
}

impl Bounds {
    /// Whether a row of which the word is true may be one that is looked for.
    pub fn admit(&self, word: &Word) -> bool
        ensures { IsTrue result ↔ Admits self.now word.now }
    {
        // Most words have such a bit: to ask this alone first is faster than to ask all three.
        if word.bits & self.outside != 0 {
            return false;
        }
        word.size <= self.size && word.place < self.end
    }
}
