//! What a command is asked to do.
ghost use Rattle.std.specs.Prelude.{◌≡◌, IfOk};
ghost use Rattle.tool_words.specs.declared.jobs.WordEnd.TheVariants.{Memory};

use std::alloc::{AllocError, AllocFailed, Global};
use std::marker::Model;

/// The name of a project, seen as the list of its bytes.
#[derive(Debug, Drop)]
pub struct Name {
    text: String,
}

impl Model for Name {
    ghost use Rattle.std.specs.Prelude.{ℕ, List, string_bytes};

    ghost Value = { List ℕ };

    ghost view = { λ n. string_bytes n.text };
}

impl Name {
    pub(crate) fn new(alloc: Global, text: &str) -> Result<Name, AllocError>
        ensures { IfOk result (λ n. n ≡ text.now) }
    {
        Ok(Name {
            text: String::from_str(alloc, text)?,
        })
    }

    /// The name as a text.
    pub fn text(&self) -> &str
        ensures { result.now ≡ self.now }
    {
        self.text.as_str()
    }
}

/// What a command is asked to do.
#[derive(Debug, Drop)]
pub struct Job {
    /// The project, without tables.
    pub project: Option<Name>,
    /// The columns of the tables whose Graver basis is wanted, 2 to 20.
    pub tables: Option<u32>,
    /// How many workers, 1 to 32.
    pub workers: u32,
    /// The pair budget, at most 2^62.
    pub pairs: u64,
    /// The row budget of a stage, 1 to 2^21.
    pub rows: u32,
    /// A restart file is written after so many closed norms, 1 to 2^20.
    pub backup: Option<u32>,
    /// The run goes on from a restart file.
    pub resume: bool,
    /// No summary is put.
    pub quiet: bool,
}

/// Why words are not read.
#[derive(Clone, Copy, Debug, PartialEq, Eq)]
pub enum WordEnd {
    /// The words are not those of the command.
    Usage,
    /// Memory ran out.
    Memory,
}

impl From<AllocError> for WordEnd {
    ghost from_gives = { λ _ e. e ≡ Memory };

    fn from(_: AllocError) -> WordEnd {
        WordEnd::Memory
    }
}

impl<T: Drop> From<AllocFailed<T>> for WordEnd {
    ghost from_gives = { λ _ e. e ≡ Memory };

    fn from(_: AllocFailed<T>) -> WordEnd {
        WordEnd::Memory
    }
}
