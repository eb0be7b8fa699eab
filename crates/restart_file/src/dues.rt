//! The lines of a restart text, by what is due.

/// The line that is due where a text was read so far. A row that is due carries the number of the rows of its list that
/// are to come, and a line of the system its number from 0.
#[derive(Clone, Copy, Debug, PartialEq, Eq)]
pub enum Due {
    FirstLine,
    SystemLine(u32),
    PlaceLine,
    UsedLine,
    ListedLine,
    ListedRow(u32),
    ClassesLine,
    WaitingLine,
    WaitingRow(u32),
    LastLine,
}
