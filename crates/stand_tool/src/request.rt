//! The words of the command: the name of a tool, and then the words of that tool's command.

ghost use Rattle.std.specs.Prelude.{◌≡◌, ◌<◌, length, drop, true, IfOk};
ghost use Rattle.tool_words.specs.Jobs.{IsWithinLimits};
ghost use Rattle.stand_tool.specs.Requests.{tool_in, is_plain, AsksFor};

use lift_core::Tool;
use outside::Words;
use std::alloc::{AllocError, Global};
use tool_words::{Job, WordEnd, read_words};

/// What the words ask for.
#[derive(Debug, Drop)]
pub struct Request {
    /// The tool that is run.
    pub tool: Tool,
    /// Its job.
    pub job: Job,
}

// The tool that a word names.
fn tool(word: &str) -> Option<Tool>
    ensures { result ≡ tool_in word.now }
{
    if word == "graver" {
        Some(Tool::Graver)
    } else if word == "hilbert" {
        Some(Tool::Hilbert)
    } else if word == "zsolve" {
        Some(Tool::Zsolve)
    } else {
        None
    }
}

// All words but the first.
fn rest_of(alloc: Global, words: &Words) -> Result<Words, AllocError>
    requires { 0 < length words.now }
    ensures { IfOk result (λ rest. rest ≡ drop 1 words.now) }
{
    let mut rest = Words::new(alloc);
    for i in 1..words.len() {
        rest.push(words.word(i))?;
    }
    Ok(rest)
}

// Whether a job has no tables, no backups and no restart.
fn is_plain(job: &Job) -> bool
    ensures { result ≡ is_plain job.now }
{
    job.tables.is_none() && job.backup.is_none() && !job.resume
}

/// What the words ask for: their first word names a tool, and the rest is a job of it without tables, backups and restart.
///
/// # Errors
/// Usage where the words are not of this form. Memory where memory ran out.
pub fn read_request(alloc: Global, words: &Words) -> Result<Request, WordEnd>
    // The words are not of the form, or the request is theirs.
    ensures reads { AsksFor words.now result }
    ensures within { IfOk result (λ r. IsWithinLimits r.job) }
    ensures plain { IfOk result (λ r. is_plain r.job ≡ true) }
{
    if words.is_empty() {
        return Err(WordEnd::Usage);
    }
    let Some(tool) = tool(words.word(0)) else {
        return Err(WordEnd::Usage);
    };
    let rest = rest_of(alloc, words)?;
    let job = read_words(alloc, tool, &rest)?;
    if !is_plain(&job) {
        return Err(WordEnd::Usage);
    }
    Ok(Request { tool, job })
}
