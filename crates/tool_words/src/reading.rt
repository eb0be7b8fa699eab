//! From words to a job.
ghost use Rattle.std.specs.Prelude.{◌≡◌, ◌==◌, IfOk, IfSome, map, IsUtf8, slice_index, option_map};
ghost use Rattle.std.specs.List.{AllByRecursion};
ghost use Rattle.clap.specs.Walk.{rows_of};
ghost use Rattle.clap.specs.Matches.{found_of};
ghost use Rattle.clap.specs.Values.{kind_of};
ghost use Rattle.tool_words.specs.Numbers.{number_in};
ghost use Rattle.tool_words.specs.Jobs.{IsWithinLimits, ReadsJob, is_apart};
ghost use Rattle.tool_words.specs.Walks.{is_true};
ghost use Rattle.tool_words.specs.Inside.Commands.{IsOptionNumber, MakesJob, EndsBy, seen, texts_in};

use crate::commands::{matches_in, text_in};
use crate::{Job, Name, WordEnd};
use clap::error::ErrorKind;
use clap::{ArgMatches, Error};
use lift_core::Tool;
use outside::{Words, is_project_name};
use std::alloc::{AllocError, Global};

// The texts of the options and of the project, and which flags are given.
#[derive(Drop)]
struct FoundTexts<'a> {
    project: Option<&'a str>,
    tables: Option<&'a str>,
    workers: Option<&'a str>,
    pairs: Option<&'a str>,
    rows: Option<&'a str>,
    backup: Option<&'a str>,
    resume: bool,
    quiet: bool,
}

// Whether a plus stands first, which std would read over.
fn has_plus(text: &[u8]) -> bool
    ensures { result ≡ (slice_index text.now 0 == 43) }
{
    match text {
        [first, ..] => *first == b'+',
        [] => false,
    }
}

// The number of a text, where it is one within the limits.
fn number(text: &str, least: u64, most: u64) -> Option<u64>
    ensures { result ≡ number_in least most text.now }
{
    if has_plus(text.as_bytes()) {
        return None;
    }
    match text.parse::<u64>() {
        Ok(n) if n >= least && n <= most => Some(n),
        _ => None,
    }
}

// The words as texts.
fn texts<'w>(alloc: Global, words: &'w Words) -> Result<Vec<&'w str>, AllocError>
    ensures texts { IfOk result (λ t. map (λ w. w.now) t.items ≡ words.now) }
    ensures utf8 { IfOk result (λ _. AllByRecursion IsUtf8 words.now) }
{
    let mut texts = Vec::new(alloc);
    for i in 0..words.len() {
        texts.push(words.word(i))?;
    }
    Ok(texts)
}

// The number of an option, where it is given.
fn number_of(text: Option<&str>, least: u64, most: u64) -> Result<Option<u64>, WordEnd>
    ensures { IsOptionNumber least most (option_map (λ t. t.now) text.entry) result }
{
    match text {
        None => Ok(None),
        Some(text) => match number(text, least, most) {
            Some(n) => Ok(Some(n)),
            None => Err(WordEnd::Usage),
        },
    }
}

// The same of a number that is small.
fn small_number_of(text: Option<&str>, least: u32, most: u32) -> Result<Option<u32>, WordEnd>
    ensures { IsOptionNumber least most (option_map (λ t. t.now) text.entry) result }
{
    match number_of(text, least as u64, most as u64)? {
        None => Ok(None),
        Some(n) => Ok(Some(n as u32)),
    }
}

// Whether the options may stand together, and the project's name is one.
fn stands_apart(
    tables: Option<&str>,
    project: Option<&str>,
    backup: Option<&str>,
    resume: bool,
) -> bool
    ensures { result
        ≡ is_apart (option_map (λ t. t.now) tables.entry) (option_map (λ t. t.now) project.entry)
        (option_map (λ t. t.now) backup.entry) resume }
{
    match tables {
        None => match project {
            None => false,
            Some(project) => is_project_name(project.as_bytes()),
        },
        Some(_) => match project {
            Some(_) => false,
            None => match backup {
                Some(_) => false,
                None => !resume,
            },
        },
    }
}

fn name(alloc: Global, text: Option<&str>) -> Result<Option<Name>, AllocError>
    ensures { IfOk result (λ n. n ≡ option_map (λ t. t.now) text.entry) }
{
    match text {
        None => Ok(None),
        Some(text) => Ok(Some(Name::new(alloc, text)?)),
    }
}

// The job that the texts are.
fn job(alloc: Global, texts: &FoundTexts<'_>) -> Result<Job, WordEnd>
    ensures reads { MakesJob (seen texts.now) result }
    ensures within { IfOk result IsWithinLimits }
{
    let tables = small_number_of(texts.tables, 2, 20)?;
    let workers = small_number_of(texts.workers, 1, 32)?;
    let pairs = number_of(texts.pairs, 0, 1 << 62)?;
    let rows = small_number_of(texts.rows, 1, 1 << 21)?;
    let backup = small_number_of(texts.backup, 1, 1 << 20)?;
    if !stands_apart(texts.tables, texts.project, texts.backup, texts.resume) {
        return Err(WordEnd::Usage);
    }
    let project = name(alloc, texts.project)?;
    Ok(Job {
        project,
        tables,
        workers: workers.unwrap_or(4),
        pairs: pairs.unwrap_or(1 << 40),
        rows: rows.unwrap_or(1 << 20),
        backup,
        resume: texts.resume,
        quiet: texts.quiet,
    })
}

// Whether a flag's text says that it is given.
fn is_set(text: Option<&str>) -> bool
    ensures { result ≡ is_true (option_map (λ t. t.now) text.entry) }
{
    match text {
        None => false,
        Some(text) => text == "true",
    }
}

fn found_texts<'a>(found: &ArgMatches<'a>) -> FoundTexts<'a>
    ensures { seen result ≡ texts_in (rows_of (found_of found.now)) }
{
    FoundTexts {
        project: text_in(found, "project"),
        tables: text_in(found, "tables"),
        workers: text_in(found, "workers"),
        pairs: text_in(found, "pairs"),
        rows: text_in(found, "rows"),
        backup: text_in(found, "backup"),
        resume: is_set(text_in(found, "resume")),
        quiet: is_set(text_in(found, "quiet")),
    }
}

fn end_of(error: &Error) -> WordEnd
    ensures { EndsBy (kind_of error.now) result }
{
    match error.kind() {
        ErrorKind::OutOfMemory => WordEnd::Memory,
        _ => WordEnd::Usage,
    }
}

/// The job that the words of a command are.
///
/// # Errors
/// `Usage` exactly where the words are not of the form, and `Memory` where memory runs out.
pub fn read_words(alloc: Global, tool: Tool, words: &Words) -> Result<Job, WordEnd>
    // The words are not of the form, or the job is theirs.
    ensures reads { ReadsJob tool words.now result }

    // The numbers of a job are within the limits.
    ensures within { IfOk result IsWithinLimits }
{
    let texts = texts(alloc, words)?;
    match matches_in(alloc, tool, texts.as_slice()) {
        Ok(found) => job(alloc, &found_texts(&found)),
        Err(error) => Err(end_of(&error)),
    }
}
