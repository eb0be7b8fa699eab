//! A part of the pairs of a norm.

ghost use Rattle.std.specs.Prelude.{◌≡◌, ◌≤◌, ◌^◌};
ghost use Rattle.norm_board.specs.Blocks.{blocks_of};

/// A block of a norm: some pairs in a row, by their numbers. All blocks have 256 pairs but the last, which has the rest.
#[derive(Clone, Copy, Debug, PartialEq, Eq, Drop)]
pub struct Block {
    /// The block's number, from 0.
    pub number: u64,
    /// The number of its first pair.
    pub first: u64,
    /// How many pairs it has.
    pub count: u64,
}

/// How many blocks so many pairs of a norm make.
pub fn blocks_of(pairs: u64) -> u64
    requires { pairs ≤ 2 ^ 42 }
    ensures { result ≡ blocks_of pairs }
{
    (pairs + 255) / 256
}
