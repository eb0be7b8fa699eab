//! What a line on standard error says.

ghost use Rattle.std.specs.Prelude.{◌≡◌, [], codes};
ghost use Rattle.tool_frame.specs.Wordings.{words_in, plain, with_number, with_numbers, text_fault_text, fault_text, shape_text};

use mat_files::TextFault;
use system_files::FileFault;

/// A text with up to two numbers in it: `before`, the first number, `between`, the second number, `after`.
#[derive(Clone, Copy, Debug)]
pub struct Wording {
    pub before: &'static str,
    pub first: Option<u64>,
    pub between: &'static str,
    pub second: Option<u64>,
    pub after: &'static str,
}

/// The most bytes, rows and columns of a file.
#[derive(Clone, Copy, Debug)]
pub struct Limits {
    pub bytes: u64,
    pub rows: u32,
    pub cols: u32,
}

/// A text without a number.
pub fn plain_wording(text: &'static str) -> Wording
    ensures { words_in result ≡ plain text.now }
{
    Wording {
        before: text,
        first: None,
        between: "",
        second: None,
        after: "",
    }
}

// The byte at which a text has a fault.
fn at_byte(at: u64, text: &'static str) -> Wording
    ensures { words_in result ≡ with_number (codes "byte ") at text.now }
{
    Wording {
        before: "byte ",
        first: Some(at),
        between: text,
        second: None,
        after: "",
    }
}

// A count that is above its limit.
fn too_many(found: u64, text: &'static str, limit: u32) -> Wording
    ensures { words_in result ≡ with_numbers [] found text.now limit [] }
{
    Wording {
        before: "",
        first: Some(found),
        between: text,
        second: Some(u64::from(limit)),
        after: "",
    }
}

// What is said of the fault of a text.
fn text_wording(fault: &TextFault, limits: Limits) -> Wording
    ensures { words_in result ≡ text_fault_text limits fault.now }
{
    match fault {
        TextFault::NotNumber { at } => at_byte(*at, ": not a number"),
        TextFault::NotRelation { at } => at_byte(*at, ": not a relation"),
        TextFault::NotCap { at } => at_byte(*at, ": not a cap"),
        TextFault::OutOfRange { at } => at_byte(*at, ": out of range"),
        TextFault::Early { at } => at_byte(*at, ": more expected"),
        TextFault::Extra { at } => at_byte(*at, ": nothing more expected"),
        TextFault::TooManyRows { found } => too_many(*found, " rows, at most ", limits.rows),
        TextFault::TooManyCols { found } => too_many(*found, " columns, at most ", limits.cols),
        TextFault::NoCols => plain_wording("no columns"),
    }
}

/// What is said of the fault of a file with these limits.
pub fn fault_wording(fault: &FileFault, limits: Limits) -> Wording
    ensures { words_in result ≡ fault_text limits fault.now }
{
    match fault {
        FileFault::Missing => plain_wording("no such file"),
        FileFault::TooLong { .. } => Wording {
            before: "longer than ",
            first: Some(limits.bytes),
            between: " bytes",
            second: None,
            after: "",
        },
        FileFault::Text(fault) => text_wording(fault, limits),
    }
}

/// What is said of a matrix that is not as wide or as high as it has to be.
pub fn shape_wording(rows: u32, cols: u32) -> Wording
    ensures { words_in result ≡ shape_text rows cols }
{
    Wording {
        before: "wrong shape ",
        first: Some(u64::from(rows)),
        between: " x ",
        second: Some(u64::from(cols)),
        after: "",
    }
}
