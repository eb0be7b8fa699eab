//! A tree over rows of a pool. It finds one below a vector in the conformal order, and compares few rows on the way.
//!
//! In a row below a vector z each entry is 0, or has the sign of z's entry and is no larger in absolute value. So a
//! search looks only where such a row can be:
//!
//! - Its last entry is 0 or has the sign of z's last entry. Rows are filed in three *parts*, by the sign of their last
//!   entry, and a search looks into two of them at most.
//! - Each of its entries that is not 0 has the sign of z's entry in that column. An *item* is a column with a sign, and
//!   its *class* a number below 128. In a part, rows are filed by the classes of three items, the first ones from one
//!   side or the other: three *tiers* of branches lead from class to class to a *bucket*. A search goes down the classes of z alone.
//! - Each threshold that one of its entries reaches is reached by z's entry. The *signature* of a vector has bits for
//!   the thresholds that its entries reach, so the row's is part of z's. And the *size* of its last entry, the absolute
//!   value, is at most that of z's. In a bucket, eight neighbours (an *eight*) have a word that is true of each: bits of
//!   their signatures, the least size and the least place; and so have 64 (a *block*). A search passes over a block, an
//!   eight or a row that cannot be below z, or does not stand before the end of the search.
//!
//! Each word and each step down the tiers is one-sided: it may let a search look at more rows than it need, and no row
//! below z is passed over. So a search is exact for each width, also where items share a class.
#![tactic(auto)]

mod bounds;
mod bucket;
mod index;
mod items;
pub mod laws;
mod signature;
mod tier;
mod tree;

pub use items::FiledBy;
pub use tree::Tree;
