//! Numbers of blocks, kept as runs of numbers that follow on one another.

ghost use Rattle.std.specs.Prelude.{◌≡◌, ◌+◌, ◌<◌, ◌≤◌, ◌++◌, ◌∷◌, [], length, IsTrue, ◌↔◌, OnOk, OnErr, vec_len, vec_capacity};
ghost use Rattle.std.specs.List.{AllByRecursion};
ghost use Rattle.norm_board.specs.Inside.NumberRuns.{numbers_of, count_up, IsRun};

use std::alloc::{AllocError, Global};
use std::marker::Model;

/// The numbers from `first` on, `count` of them.
#[derive(Clone, Copy, Drop)]
pub(crate) struct Run {
    pub(crate) first: u64,
    pub(crate) count: u64,
}

/// Numbers below 2^63, in the order in which they came.
#[derive(Drop)]
pub(crate) struct Runs {
    runs: Vec<Run>,
}

impl Model for Runs {
    ghost use Rattle.std.specs.Prelude.{◌-◌, length, vec_len, vec_capacity};
    ghost use Rattle.std.specs.List.{AllByRecursion};
    ghost use Rattle.norm_board.specs.Inside.NumberRuns.{RunsValue, numbers_of, IsRun};

    ghost Value = { RunsValue };

    ghost view = { λ r. record {
      numbers = numbers_of r.runs.items;
      count = vec_len r.runs;
      spare = vec_capacity r.runs - vec_len r.runs;
    } };

    ghost invariant = { λ r. AllByRecursion IsRun r.runs.items };
}

// Whether the second run follows on the first.
fn follows(first: Run, second: Run) -> bool
    ensures { IsTrue result ↔ (first.first + first.count ≡ second.first) }
{
    second.first >= first.first && second.first - first.first == first.count
}

// Adds a run at the end, joined to the last one where it follows on that.
fn add_run(runs: &mut Vec<Run>, run: Run)
    requires room { vec_len runs.old < vec_capacity runs.old }
    requires low { AllByRecursion IsRun runs.old.items }
    requires run { IsRun run }
    ensures numbers { numbers_of runs.new.items ≡ numbers_of runs.old.items
        ++ count_up run.first run.count }
    ensures low { AllByRecursion IsRun runs.new.items }
    ensures len { vec_len runs.new ≤ vec_len runs.old + 1 }
    ensures capacity { vec_capacity runs.new ≡ vec_capacity runs.old }
{
    let Some(last) = runs.pop() else {
        runs.push_reserved(run);
        return;
    };
    if follows(last, run) {
        runs.push_reserved(Run {
            first: last.first,
            count: last.count + run.count,
        });
    } else {
        runs.push_reserved(last);
        runs.push_reserved(run);
    }
}

// Adds the runs one after another.
fn add_runs(runs: &mut Vec<Run>, more: &[Run])
    requires room { vec_len runs.old + length more.now ≤ vec_capacity runs.old }
    requires low { AllByRecursion IsRun runs.old.items }
    requires more { AllByRecursion IsRun more.now }
    ensures numbers { numbers_of runs.new.items ≡ numbers_of runs.old.items ++ numbers_of more.now }
    ensures low { AllByRecursion IsRun runs.new.items }
    ensures capacity { vec_capacity runs.new ≡ vec_capacity runs.old }
    ensures len { vec_len runs.new ≤ vec_len runs.old + length more.now }
{
    for run in more {
        add_run(runs, *run);
    }
}

impl Runs {
    /// No numbers.
    pub(crate) fn new(alloc: Global) -> Runs
        ensures { result.numbers ≡ [] }
    {
        Runs {
            runs: Vec::new(alloc),
        }
    }

    /// Makes room for one number.
    pub(crate) fn reserve(&mut self) -> Result<(), AllocError>
        ensures numbers { self.new.numbers ≡ self.old.numbers }
        ensures ok { OnOk result (1 ≤ self.new.spare) }
        ensures err { OnErr result (self.new.spare ≡ self.old.spare) }
    {
        self.runs.reserve(1)
    }

    /// Makes room for the numbers of another list.
    pub(crate) fn reserve_for(&mut self, other: &Runs) -> Result<(), AllocError>
        ensures numbers { self.new.numbers ≡ self.old.numbers }
        ensures ok { OnOk result (other.now.count ≤ self.new.spare) }
        ensures err { OnErr result (self.new.spare ≡ self.old.spare) }
    {
        self.runs.reserve(other.runs.len())
    }

    /// Adds a number at the end.
    pub(crate) fn push(&mut self, number: u64)
        requires room { 1 ≤ self.old.spare }
        requires low { number < 9223372036854775808 }
        ensures { self.new.numbers ≡ self.old.numbers ++ number ∷ [] }
    {
        add_run(
            &mut self.runs,
            Run {
                first: number,
                count: 1,
            },
        );
    }

    /// Moves the other's numbers to the end of these.
    pub(crate) fn append(&mut self, other: &mut Runs)
        requires { other.old.count ≤ self.old.spare }
        ensures numbers { self.new.numbers ≡ self.old.numbers ++ other.old.numbers }
        ensures other { other.new.numbers ≡ [] }
    {
        add_runs(&mut self.runs, &other.runs);
        other.runs.clear();
    }
}
