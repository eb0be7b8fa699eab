//! How many rows have a last entry above 0, 0, and below 0.

ghost use Rattle.std.specs.Prelude.{◌≡◌, ◌++◌, ◌∷◌, ◌+◌, ◌<◌, ◌^◌, [], ℤ, List, ℕ, length, All};
ghost use Rattle.lift_core.specs.Stages.{has_positive_last};
ghost use Rattle.restart_file.specs.Texts.{class_counts, has_zero_last};
ghost use Rattle.restart_file.specs.Inside.Classes.{class_of};

// Whether the last entry is above 0.
#[tactic(auto, using(crate::proofs::Counted::last_entry))]
fn ends_above(row: &[i64], width: usize) -> bool
    requires { length row.now ≡ width + 1 }
    ensures { result ≡ has_positive_last row.now }
{
    row[width] > 0
}

// Whether the last entry is 0.
#[tactic(auto, using(crate::proofs::Counted::last_entry))]
fn ends_zero(row: &[i64], width: usize) -> bool
    requires { length row.now ≡ width + 1 }
    ensures { result ≡ has_zero_last row.now }
{
    row[width] == 0
}

// The place of the row's class among the three.
fn class_of(row: &[i64]) -> usize
    requires { 0 < length row.now }
    ensures class { result ≡ class_of row.now }
    ensures within { result < 3 }
{
    let width = row.len() - 1;
    if ends_above(row, width) {
        0
    } else if ends_zero(row, width) {
        1
    } else {
        2
    }
}

// Counts the row.
pub(crate) fn add_class(counts: &mut [u64; 3], row: &[i64])
    requires some { 0 < length row.now }
    requires small { All (λ n. n < 2 ^ 32) counts.old }
    ensures { (rows : List (List ℤ)) → counts.old ≡ class_counts rows
        → counts.new ≡ class_counts (rows ++ row.now ∷ []) }
{
    counts[class_of(row)] += 1;
}
