//! The lines of a restart text.

ghost use Rattle.std.specs.Prelude.{◌≡◌, ◌++◌, ◌∷◌, ◌+◌, ◌<◌, ◌≤◌, [], length, slice_index_or, map, codes, decimal, OnOk};
ghost use Rattle.hex.specs.Hex.{encode_lower};
ghost use Rattle.mat_files.specs.Texts.{line_of};
ghost use Rattle.restart_file.specs.Texts.{spaced, counts_line, version_line, tool_line, shape_line, signs_line, cap_text, caps_line, row_line, system_lines};

use hex::encode_to_slice;
use itoa::Buffer;
use lift_core::{System, Tool};
use mat_files::print_line;
use std::alloc::{AllocError, Global};

/// The version of a restart text. The second names the caps and the numbers of rows by the sign of their last entry.
#[derive(Clone, Copy, Debug, PartialEq, Eq, Drop)]
pub enum Version {
    First,
    Second,
}

// Adds a number.
fn push_count(line: &mut Vec<u8>, count: u64) -> Result<(), AllocError>
    ensures { OnOk result (line.new.items ≡ line.old.items ++ decimal count) }
{
    let mut buffer = Buffer::new();
    line.extend_from_slice(buffer.format(count).as_bytes())
}

// Adds numbers, joined by one space.
fn push_spaced(line: &mut Vec<u8>, counts: &[u64]) -> Result<(), AllocError>
    ensures { OnOk result (line.new.items ≡ line.old.items ++ spaced (map decimal counts.now)) }
{
    let mut rest = counts;
    while let [first, others @ ..] = rest {
        push_count(line, *first)?;
        if !others.is_empty() {
            line.push(b' ')?;
        }
        rest = others;
    }
    Ok(())
}

// Adds the line of a word and numbers.
pub(crate) fn push_counts(line: &mut Vec<u8>, word: &[u8], counts: &[u64]) -> Result<(), AllocError>
    ensures { OnOk result (line.new.items ≡ line.old.items ++ counts_line word.now counts.now) }
{
    line.extend_from_slice(word)?;
    push_spaced(line, counts)?;
    line.push(b'\n')?;
    Ok(())
}

// Adds the line of a word and the cells of a row.
pub(crate) fn push_cells(line: &mut Vec<u8>, word: &[u8], cells: &[i64]) -> Result<(), AllocError>
    ensures { OnOk result (line.new.items ≡ line.old.items ++ (word.now ++ line_of cells.now)) }
{
    line.extend_from_slice(word)?;
    print_line(cells, line)
}

// The line of the version.
pub(crate) fn version_text(version: Version) -> &'static [u8]
    ensures { result.now ≡ version_line version }
{
    match version {
        Version::First => b"restart 1\n",
        Version::Second => b"restart 2\n",
    }
}

// The line of the tool.
fn tool_text(tool: Tool) -> &'static [u8]
    ensures { result.now ≡ tool_line tool }
{
    match tool {
        Tool::Graver => b"tool graver\n",
        Tool::Hilbert => b"tool hilbert\n",
        Tool::Zsolve => b"tool zsolve\n",
    }
}

// Adds the line of the signs.
fn push_signs(line: &mut Vec<u8>, system: &System) -> Result<(), AllocError>
    ensures { OnOk result (line.new.items ≡ line.old.items ++ signs_line system.now) }
{
    let mut signs = [0i64; 129];
    let width = system.width() as usize;
    let row = &mut signs[..width];
    for j in 0..width {
        row[j] = i64::from(system.sign(j as u32 + 1));
    }
    push_cells(line, b"signs ", row)
}

// Adds a cap.
fn push_cap(line: &mut Vec<u8>, cap: Option<u64>) -> Result<(), AllocError>
    ensures { OnOk result (line.new.items ≡ line.old.items ++ cap_text cap) }
{
    match cap {
        None => {
            line.push(b'*')?;
            Ok(())
        }
        Some(most) => push_count(line, most),
    }
}

// Adds the line of the caps.
fn push_caps(line: &mut Vec<u8>, system: &System) -> Result<(), AllocError>
    ensures { OnOk result (line.new.items ≡ line.old.items ++ caps_line system.now) }
{
    system.keeps();
    line.extend_from_slice(b"caps ")?;
    let width = system.width();
    for j in 0..width {
        push_cap(line, system.cap(j + 1))?;
        if j + 1 < width {
            line.push(b' ')?;
        }
    }
    line.push(b'\n')?;
    Ok(())
}

// Adds the line of a row of the system, numbered from 0.
fn push_row(line: &mut Vec<u8>, system: &System, i: u32) -> Result<(), AllocError>
    requires { i < length system.now.equations.rows }
    ensures { OnOk result
        (line.new.items ≡ line.old.items
        ++ row_line (slice_index_or system.now.equations.rows i [])) }
{
    system.keeps();
    push_cells(line, b"row ", system.row(i + 1))
}

// The number of lines of the system.
pub(crate) fn system_line_count(version: Version, system: &System) -> u32
    ensures count { result ≡ length (system_lines version system.now) }
    ensures most { result ≤ 68 }
{
    match version {
        Version::First => system.count() + 3,
        Version::Second => system.count() + 4,
    }
}

// Adds a line of the system, numbered from 0.
pub(crate) fn push_system_line(
    line: &mut Vec<u8>,
    version: Version,
    system: &System,
    i: u32,
) -> Result<(), AllocError>
    requires { i < length (system_lines version system.now) }
    ensures { OnOk result
        (line.new.items ≡ line.old.items ++ slice_index_or (system_lines version system.now) i []) }
{
    match i {
        0 => line.extend_from_slice(tool_text(system.tool())),
        1 => push_counts(
            line,
            b"shape ",
            &[
                u64::from(system.n()),
                u64::from(system.width()),
                u64::from(system.count()),
            ],
        ),
        2 => push_signs(line, system),
        _ => match version {
            Version::First => push_row(line, system, i - 3),
            Version::Second if i == 3 => push_caps(line, system),
            Version::Second => push_row(line, system, i - 4),
        },
    }
}

// Adds the last line, of this digest.
pub(crate) fn push_digest(line: &mut Vec<u8>, digest: &[u8; 32]) -> Result<(), AllocError>
    ensures { OnOk result
        (line.new.items ≡ line.old.items
        ++ (codes "digest " ++ encode_lower digest.now ++ 10 ∷ [])) }
{
    let mut digits = [0u8; 64];
    encode_to_slice(digest.as_slice(), &mut digits).unwrap();
    line.extend_from_slice(b"digest ")?;
    line.extend_from_slice(&digits)?;
    line.push(b'\n')?;
    Ok(())
}
