//! Tiers: the branches of one depth, each with the numbers of its kids by class.

ghost use Rattle.std.specs.Prelude.{◌≡◌, ◌≢◌, ◌<◌, ◌≤◌, ℕ, [], length, slice_index_or, IfOk, OnOk, MatchOption, Some};
ghost use Rattle.std.specs.Int.{bit_at};
ghost use Rattle.reduce_tree.specs.Inside.Tiers.{empty_branch, IsKid, kid_of, KeepsKids, HasKidAt, kid_at, KeepsSteps};

use std::alloc::{AllocError, Global};
use std::marker::Model;

/// A branch: which classes have a kid, and a number for each class up to the greatest of these.
#[derive(Drop)]
pub struct Branch {
    classes: u128,
    kids: Vec<u32>,
}

impl Model for Branch {
    ghost use Rattle.reduce_tree.specs.Inside.Tiers.{BranchValue};

    ghost Value = { BranchValue };

    ghost view = { λ b. record { classes = b.classes; kids = b.kids.items } };
}

impl Branch {
    /// A branch without kids.
    fn new(alloc: Global) -> Branch
        ensures { result ≡ empty_branch }
    {
        Branch {
            classes: 0,
            kids: Vec::new(alloc),
        }
    }

    /// The kid of a class.
    fn kid(&self, class: u8) -> Option<u32>
        requires { class < 128 }
        ensures { MatchOption result (IsKid self.now class → ⊥)
            (λ kid. IsKid self.now class × (kid_of self.now class ≡ kid)) }
    {
        if (self.classes >> class) & 1 == 0 || class as usize >= self.kids.len() {
            return None;
        }
        Some(self.kids[class as usize])
    }

    /// Gives a class that has no kid this one. After an error the kids are as before.
    fn put(&mut self, class: u8, kid: u32) -> Result<(), AllocError>
        requires class { class < 128 }
        requires none { IsKid self.old class → ⊥ }
        ensures kept { KeepsKids self.old self.new }
        ensures here { OnOk result (IsKid self.new class × (kid_of self.new class ≡ kid)) }
    {
        fill(&mut self.kids, class as usize + 1)?;
        self.kids[class as usize] = kid;
        self.classes |= 1_u128 << class;
        Ok(())
    }
}

/// Appends zeros until there are `len` numbers at least. After an error the numbers are as before.
fn fill(numbers: &mut Vec<u32>, len: usize) -> Result<(), AllocError>
    ensures kept { (k : ℕ) → k < length numbers.old.items
        → slice_index_or numbers.new.items k 0 ≡ slice_index_or numbers.old.items k 0 }
    ensures count { length numbers.old.items ≤ length numbers.new.items }
    ensures enough { OnOk result (len ≤ length numbers.new.items) }
{
    while numbers.len() < len {
        numbers.push(0)?;
    }
    Ok(())
}

/// The least class of a set that is not empty.
pub fn lowest(classes: u128) -> u8
    requires { 0 < classes }
    ensures most { result < 128 }
    ensures set { bit_at classes result ≡ 1 }
{
    classes.trailing_zeros() as u8
}

/// A set of classes without one.
pub fn without(classes: u128, class: u8) -> u128
    requires { class < 128 }
    ensures less { bit_at classes class ≡ 1 → result < classes }
    ensures others { (c : ℕ) → c ≢ class → bit_at classes c ≡ 1 → bit_at result c ≡ 1 }
{
    classes & !(1_u128 << class)
}

/// The branches of one depth. Each kid that they give to a class is a number more.
#[derive(Drop)]
pub struct Tier {
    alloc: Global,
    branches: Vec<Branch>,
    kids: u32,
}

impl Model for Tier {
    ghost use Rattle.std.specs.Prelude.{List};
    ghost use Rattle.reduce_tree.specs.Inside.Tiers.{BranchValue};

    ghost Value = { List BranchValue };

    ghost view = { λ t. t.branches.items };
}

impl Tier {
    /// A tier without branches.
    pub fn new(alloc: Global) -> Tier
        ensures { result ≡ [] }
    {
        Tier {
            alloc,
            branches: Vec::new(alloc),
            kids: 0,
        }
    }

    /// The classes that have a kid in a branch.
    pub fn classes(&self, branch: u32) -> u128
        ensures { (c : ℕ) → HasKidAt self.now branch c → bit_at result c ≡ 1 }
    {
        if branch as usize >= self.branches.len() {
            return 0;
        }
        self.branches[branch as usize].classes
    }

    /// The kid of a class in a branch.
    pub fn kid(&self, branch: u32, class: u8) -> Option<u32>
        requires { class < 128 }
        ensures { HasKidAt self.now branch class → result ≡ Some (kid_at self.now branch class) }
    {
        if branch as usize >= self.branches.len() {
            return None;
        }
        self.branches[branch as usize].kid(class)
    }

    /// The kid of a class in a branch, which is made where it is not there, and the branch too. All kids that are there stay.
    pub fn step(&mut self, branch: u32, class: u8) -> Result<u32, AllocError>
        requires { class < 128 }
        ensures kept { KeepsSteps self.old self.new }
        ensures step { IfOk result
            (λ kid. HasKidAt self.new branch class × (kid_at self.new branch class ≡ kid)) }
    {
        self.grow(branch)?;
        if let Some(kid) = self.branches[branch as usize].kid(class) {
            return Ok(kid);
        }
        if self.kids == u32::MAX {
            return Err(AllocError);
        }
        let kid = self.kids;
        self.branches[branch as usize].put(class, kid)?;
        self.kids += 1;
        Ok(kid)
    }

    /// Makes branches until this one is there.
    fn grow(&mut self, branch: u32) -> Result<(), AllocError>
        ensures kept { KeepsSteps self.old self.new }
        ensures there { OnOk result (branch < length self.new) }
    {
        while self.branches.len() <= branch as usize {
            let empty = Branch::new(self.alloc);
            self.branches.push(empty)?;
        }
        Ok(())
    }
}
