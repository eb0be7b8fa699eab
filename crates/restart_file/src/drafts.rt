//! What was read of a restart text, and the line that is read next.

ghost use Rattle.std.specs.Prelude.{◌≡◌, ◌≢◌, ◌≤◌, ◌<◌, ◌+◌, ◌^◌, ◌↔◌, ℕ, List, Option, None, IsTrue, IfOk, OnOk, MatchOption, length, take, codes, All};
ghost use Rattle.std.specs.List.{AllByRecursion};
ghost use Rattle.int_vector.specs.Range.{InRange};
ghost use Rattle.lift_core.specs.Systems.{ToolSystem};
ghost use Rattle.lift_core.specs.ToolSystems.{width};
ghost use Rattle.stage_store.specs.Stage.{IsStageRow};
ghost use Rattle.restart_file.specs.declared.dues.Due.TheVariants.{FirstLine, SystemLine, PlaceLine, UsedLine, ListedLine, ListedRow, ClassesLine, WaitingLine, WaitingRow, LastLine};
ghost use Rattle.restart_file.specs.declared.ends.RestartEnd.TheVariants.{Bad};
ghost use Rattle.restart_file.specs.declared.ends.RestartFault.TheVariants.{Text};
ghost use Rattle.restart_file.specs.Texts.{class_counts, system_lines, version_line};
ghost use Rattle.restart_file.specs.Reading.{IsFor, IsRow, listed_due, start, system_due, waiting_due};
ghost use Rattle.restart_file.specs.Inside.Drafts.{HasWidths, IsTrueSoFar, RowSteps, TakesLine, cursor_of, progress_in};

use crate::classes::add_class;
use crate::counts::{classes_in, count_in, place_in};
use crate::dues::Due;
use crate::ends::{RestartEnd, RestartFault};
use crate::lines::{Version, push_system_line, system_line_count, version_text};
use crate::rows::{Found, add_row, is_behind, norm_of, row_in};
use lift_core::System;
use row_pool::{Pool, RowId};
use std::alloc::Global;

// The most rows of a list.
const MOST_ROWS: u64 = 2_097_152;

// The most used pairs.
const MOST_USED: u64 = 4_611_686_018_427_387_904;

/// What was read of a restart text: the line that is due, and what the lines before it say.
#[derive(Drop)]
pub(crate) struct Draft {
    pub(crate) version: Version,
    pub(crate) due: Due,
    pub(crate) number: u32,
    pub(crate) norm: u64,
    pub(crate) used: u64,
    pub(crate) listed: Pool,
    pub(crate) waiting: Pool,
}

// Nothing was read yet.
pub(crate) fn empty_draft(alloc: Global, system: &System) -> Draft
    ensures start { cursor_of result ≡ start }
    ensures widths { HasWidths system.now result }
{
    let width = system.width() + 1;
    Draft {
        version: Version::Second,
        due: Due::FirstLine,
        number: 0,
        norm: 0,
        used: 0,
        listed: Pool::new(alloc, width),
        waiting: Pool::new(alloc, width),
    }
}

// The fault of a line that is not of its form.
pub(crate) fn bad_text(l: u64) -> RestartEnd
    ensures { result ≡ Bad (Text l) }
{
    RestartEnd::Bad(RestartFault::Text { line: l })
}

// The version of a first line.
fn version_in(line: &[u8]) -> Option<Version>
    ensures { MatchOption result ((u : Version) → line.now ≢ version_line u)
        (λ u. line.now ≡ version_line u) }
{
    if line == version_text(Version::First) {
        Some(Version::First)
    } else if line == version_text(Version::Second) {
        Some(Version::Second)
    } else {
        None
    }
}

// Whether none of the user's columns has a cap.
fn has_no_caps(system: &System) -> bool
    ensures { IsTrue result
        ↔ AllByRecursion (λ c. c ≡ None) (take system.now.n system.now.equations.caps) }
{
    system.keeps();
    for j in 0..system.n() {
        if system.cap(j + 1).is_some() {
            return false;
        }
    }
    true
}

// Whether a text of the version can stand for the system.
fn is_for(system: &System, version: Version) -> bool
    ensures { IsTrue result ↔ IsFor system.now version }
{
    match version {
        Version::First => has_no_caps(system),
        Version::Second => true,
    }
}

// What is due behind line i of the system.
fn due_behind(system: &System, version: Version, i: u32) -> Due
    requires { i < length (system_lines version system.now) }
    ensures { result ≡ system_due version system.now (i + 1) }
{
    let count = system_line_count(version, system);
    if i + 1 < count {
        Due::SystemLine(i + 1)
    } else {
        Due::PlaceLine
    }
}

// What is due where so many listed rows are to come.
fn listed_due(version: Version, left: u32) -> Due
    ensures { result ≡ listed_due version left }
{
    if left > 0 {
        return Due::ListedRow(left);
    }
    match version {
        Version::First => Due::WaitingLine,
        Version::Second => Due::ClassesLine,
    }
}

// What is due where so many waiting rows are to come.
fn waiting_due(left: u32) -> Due
    ensures { result ≡ waiting_due left }
{
    if left > 0 {
        Due::WaitingRow(left)
    } else {
        Due::LastLine
    }
}

// How many of the rows have a last entry above 0, 0, and below 0.
fn classes_of(rows: &Pool) -> [u64; 3]
    requires { 0 < rows.now.width }
    ensures { result ≡ class_counts rows.now.rows }
{
    let mut counts = [0; 3];
    for i in 0..rows.len() {
        add_class(&mut counts, rows.row(RowId(i)));
    }
    counts
}

// Takes the line of the version.
fn take_version(draft: &mut Draft, system: &System, l: u64, line: &[u8]) -> Result<(), RestartEnd>
    ensures steps { TakesLine system.now draft.old.version FirstLine
        (progress_in draft.old) line.now l (cursor_of draft.new) result }
    ensures widths { HasWidths system.now draft.old → HasWidths system.now draft.new }
{
    let Some(version) = version_in(line) else {
        return Err(bad_text(l));
    };
    if !is_for(system, version) {
        return Err(RestartEnd::Bad(RestartFault::OtherSystem { line: l }));
    }
    draft.version = version;
    draft.due = Due::SystemLine(0);
    Ok(())
}

// Takes a line of the system.
fn take_system(
    draft: &mut Draft,
    system: &System,
    i: u32,
    l: u64,
    line: &[u8],
    text: &mut Vec<u8>,
) -> Result<(), RestartEnd>
    requires { i < length (system_lines draft.old.version system.now) }
    ensures steps { TakesLine system.now draft.old.version (SystemLine i)
        (progress_in draft.old) line.now l (cursor_of draft.new) result }
    ensures widths { HasWidths system.now draft.old → HasWidths system.now draft.new }
{
    text.clear();
    push_system_line(text, draft.version, system, i)?;
    if text.as_slice() != line {
        return Err(RestartEnd::Bad(RestartFault::OtherSystem { line: l }));
    }
    draft.due = due_behind(system, draft.version, i);
    Ok(())
}

// Takes the line of the place.
fn take_place(
    draft: &mut Draft,
    system: &System,
    l: u64,
    line: &[u8],
    text: &mut Vec<u8>,
) -> Result<(), RestartEnd>
    ensures steps { TakesLine system.now draft.old.version PlaceLine
        (progress_in draft.old) line.now l (cursor_of draft.new) result }
    ensures widths { HasWidths system.now draft.old → HasWidths system.now draft.new }
{
    let Some((number, norm)) = place_in(line, system, text)? else {
        return Err(bad_text(l));
    };
    draft.number = number;
    draft.norm = norm;
    draft.due = Due::UsedLine;
    Ok(())
}

// Takes the line of the used pairs.
fn take_used(
    draft: &mut Draft,
    system: &System,
    l: u64,
    line: &[u8],
    text: &mut Vec<u8>,
) -> Result<(), RestartEnd>
    ensures steps { TakesLine system.now draft.old.version UsedLine
        (progress_in draft.old) line.now l (cursor_of draft.new) result }
    ensures widths { HasWidths system.now draft.old → HasWidths system.now draft.new }
{
    let _ = system.count();
    let Some(used) = count_in(line, b"used ", MOST_USED, text)? else {
        return Err(bad_text(l));
    };
    draft.used = used;
    draft.due = Due::ListedLine;
    Ok(())
}

// Takes the line of the number of listed rows.
fn take_listed_count(
    draft: &mut Draft,
    system: &System,
    l: u64,
    line: &[u8],
    text: &mut Vec<u8>,
) -> Result<(), RestartEnd>
    ensures steps { TakesLine system.now draft.old.version ListedLine
        (progress_in draft.old) line.now l (cursor_of draft.new) result }
    ensures widths { HasWidths system.now draft.old → HasWidths system.now draft.new }
{
    let _ = system.count();
    let Some(count) = count_in(line, b"listed ", MOST_ROWS, text)? else {
        return Err(bad_text(l));
    };
    draft.due = listed_due(draft.version, count as u32);
    Ok(())
}

// Takes the line of the classes.
fn take_classes(
    draft: &mut Draft,
    system: &System,
    l: u64,
    line: &[u8],
    text: &mut Vec<u8>,
) -> Result<(), RestartEnd>
    requires widths { HasWidths system.now draft.old }
    ensures steps { TakesLine system.now draft.old.version ClassesLine
        (progress_in draft.old) line.now l (cursor_of draft.new) result }
    ensures widths { HasWidths system.now draft.new }
{
    let _ = system.count();
    let Some(counts) = classes_in(line, MOST_ROWS, text)? else {
        return Err(bad_text(l));
    };
    if counts != classes_of(&draft.listed) {
        return Err(RestartEnd::Bad(RestartFault::Classes { line: l }));
    }
    draft.due = Due::WaitingLine;
    Ok(())
}

// Takes the line of the number of waiting rows.
fn take_waiting_count(
    draft: &mut Draft,
    system: &System,
    l: u64,
    line: &[u8],
    text: &mut Vec<u8>,
) -> Result<(), RestartEnd>
    ensures steps { TakesLine system.now draft.old.version WaitingLine
        (progress_in draft.old) line.now l (cursor_of draft.new) result }
    ensures widths { HasWidths system.now draft.old → HasWidths system.now draft.new }
{
    let _ = system.count();
    let Some(count) = count_in(line, b"waiting ", MOST_ROWS, text)? else {
        return Err(bad_text(l));
    };
    draft.due = waiting_due(count as u32);
    Ok(())
}

// The row of the line, where it is one of the stage.
fn stage_row_in(
    line: &[u8],
    system: &System,
    k: u32,
    l: u64,
    row: &mut [i64],
    text: &mut Vec<u8>,
) -> Result<(), RestartEnd>
    requires from { 1 ≤ k }
    requires to { k ≤ length system.now.equations.rows }
    requires width { length row.old ≡ width system.now.equations + 1 }
    ensures steps { RowSteps system.now k line.now l row.new result }
    ensures width { length row.new ≡ length row.old }
    ensures range { All InRange row.new }
{
    match row_in(line, system, k, row, text)? {
        Found::NoRow => Err(bad_text(l)),
        Found::NoSolution => Err(RestartEnd::Bad(RestartFault::NotSolution { line: l })),
        Found::StageRow => Ok(()),
    }
}

// Takes the line of a listed row.
fn take_listed(
    draft: &mut Draft,
    system: &System,
    left: u32,
    l: u64,
    line: &[u8],
    text: &mut Vec<u8>,
) -> Result<(), RestartEnd>
    requires widths { HasWidths system.now draft.old }
    requires sound { IsTrueSoFar system.now (cursor_of draft.old) }
    requires due { draft.old.due ≡ ListedRow left }
    ensures steps { TakesLine system.now draft.old.version (ListedRow left)
        (progress_in draft.old) line.now l (cursor_of draft.new) result }
    ensures widths { HasWidths system.now draft.new }
{
    let mut room = [0i64; 130];
    let row = &mut room[..system.width() as usize + 1];
    stage_row_in(line, system, draft.number, l, row, text)?;
    if norm_of(row) > draft.norm || !is_behind(&draft.listed, row) {
        return Err(RestartEnd::Bad(RestartFault::Order { line: l }));
    }
    add_row(&mut draft.listed, row, left)?;
    draft.due = listed_due(draft.version, left - 1);
    Ok(())
}

// Takes the line of a waiting row.
fn take_waiting(
    draft: &mut Draft,
    system: &System,
    left: u32,
    l: u64,
    line: &[u8],
    text: &mut Vec<u8>,
) -> Result<(), RestartEnd>
    requires widths { HasWidths system.now draft.old }
    requires sound { IsTrueSoFar system.now (cursor_of draft.old) }
    requires due { draft.old.due ≡ WaitingRow left }
    ensures steps { TakesLine system.now draft.old.version (WaitingRow left)
        (progress_in draft.old) line.now l (cursor_of draft.new) result }
    ensures widths { HasWidths system.now draft.new }
{
    let mut room = [0i64; 130];
    let row = &mut room[..system.width() as usize + 1];
    stage_row_in(line, system, draft.number, l, row, text)?;
    if norm_of(row) <= draft.norm || !is_behind(&draft.waiting, row) {
        return Err(RestartEnd::Bad(RestartFault::Order { line: l }));
    }
    add_row(&mut draft.waiting, row, left)?;
    draft.due = waiting_due(left - 1);
    Ok(())
}

// Takes the line that is due, which is not the last.
pub(crate) fn take_line(
    draft: &mut Draft,
    system: &System,
    l: u64,
    line: &[u8],
    text: &mut Vec<u8>,
) -> Result<(), RestartEnd>
    requires widths { HasWidths system.now draft.old }
    requires sound { IsTrueSoFar system.now (cursor_of draft.old) }
    requires due { draft.old.due ≢ LastLine }
    ensures steps { TakesLine system.now draft.old.version draft.old.due
        (progress_in draft.old) line.now l (cursor_of draft.new) result }
    ensures widths { HasWidths system.now draft.new }
{
    match draft.due {
        Due::FirstLine => take_version(draft, system, l, line),
        Due::SystemLine(i) => take_system(draft, system, i, l, line, text),
        Due::PlaceLine => take_place(draft, system, l, line, text),
        Due::UsedLine => take_used(draft, system, l, line, text),
        Due::ListedLine => take_listed_count(draft, system, l, line, text),
        Due::ListedRow(left) => take_listed(draft, system, left, l, line, text),
        Due::ClassesLine => take_classes(draft, system, l, line, text),
        Due::WaitingLine => take_waiting_count(draft, system, l, line, text),
        Due::WaitingRow(left) => take_waiting(draft, system, left, l, line, text),
        Due::LastLine => unreachable!(),
    }
}
