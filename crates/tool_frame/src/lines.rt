//! The lines on standard error.

ghost use Rattle.std.specs.Prelude.{◌≡◌, ◌∷◌, [], OnOk, OnErr};
ghost use Rattle.std.specs.Option.{option_map};
ghost use Rattle.std.specs.Io.KnownBytes.{append_known};
ghost use Rattle.outside.specs.Causes.{HasCause};
ghost use Rattle.outside.specs.Pieces.{MayPut};
ghost use Rattle.tool_frame.specs.Wordings.{digits_in, words_in, line_of, file_line, message_in};

use crate::Wording;
use itoa::Buffer;
use outside::{PutEnd, Sink, put_pieces};

// The number's digits; nothing where there is none.
fn digits(buffer: &mut Buffer, number: Option<u64>) -> &str
    ensures { result.now ≡ digits_in number }
{
    match number {
        Some(number) => buffer.format(number),
        None => "",
    }
}

// Puts the line of these texts.
fn put_texts<'a, S: Sink>(
    sink: &mut S,
    program: &'a str,
    before: &'a str,
    first: &'a str,
    between: &'a str,
    second: &'a str,
    after: &'a str,
) -> Result<(), PutEnd>
    ensures done { OnOk result (S.held sink.new
        ≡ append_known (S.held sink.old) (line_of program.now
        (before.now ∷ first.now ∷ between.now ∷ second.now ∷ after.now ∷ []))) }
    ensures refused { OnErr result (MayPut (line_of program.now
        (before.now ∷ first.now ∷ between.now ∷ second.now ∷ after.now ∷ []))
        (S.held sink.old) (S.held sink.new)) }
    ensures cause { HasCause (S.faults sink.old) (S.faults sink.new) result }
{
    put_pieces(
        sink,
        &[
            program.as_bytes(),
            b": ",
            before.as_bytes(),
            first.as_bytes(),
            between.as_bytes(),
            second.as_bytes(),
            after.as_bytes(),
            b"\n",
        ],
    )
}

// Puts the line of these texts for a project's file.
fn put_file_texts<'a, S: Sink>(
    sink: &mut S,
    program: &'a str,
    project: &'a str,
    ending: &'a str,
    before: &'a str,
    first: &'a str,
    between: &'a str,
    second: &'a str,
    after: &'a str,
) -> Result<(), PutEnd>
    ensures done { OnOk result (S.held sink.new
        ≡ append_known (S.held sink.old) (file_line program.now project.now ending.now
        (before.now ∷ first.now ∷ between.now ∷ second.now ∷ after.now ∷ []))) }
    ensures refused { OnErr result (MayPut (file_line program.now project.now ending.now
        (before.now ∷ first.now ∷ between.now ∷ second.now ∷ after.now ∷ []))
        (S.held sink.old) (S.held sink.new)) }
    ensures cause { HasCause (S.faults sink.old) (S.faults sink.new) result }
{
    put_pieces(
        sink,
        &[
            program.as_bytes(),
            b": ",
            project.as_bytes(),
            ending.as_bytes(),
            b": ",
            before.as_bytes(),
            first.as_bytes(),
            between.as_bytes(),
            second.as_bytes(),
            after.as_bytes(),
            b"\n",
        ],
    )
}

// Puts the line `PROGRAM: TEXT`, piece by piece. After a refusal a prefix of it was put.
fn put_line<S: Sink>(sink: &mut S, program: &str, wording: &Wording) -> Result<(), PutEnd>
    ensures done { OnOk result
        (S.held sink.new
        ≡ append_known (S.held sink.old) (line_of program.now (words_in wording.now))) }
    ensures refused { OnErr result
        (MayPut (line_of program.now (words_in wording.now)) (S.held sink.old) (S.held sink.new)) }
    ensures cause { HasCause (S.faults sink.old) (S.faults sink.new) result }
{
    let mut first = Buffer::new();
    let mut second = Buffer::new();
    put_texts(
        sink,
        program,
        wording.before,
        digits(&mut first, wording.first),
        wording.between,
        digits(&mut second, wording.second),
        wording.after,
    )
}

// Puts the line `PROGRAM: FILE: TEXT` for the project's file with this ending, piece by piece. After a refusal a prefix
// of it was put.
fn put_file_line<S: Sink>(
    sink: &mut S,
    program: &str,
    project: &str,
    ending: &str,
    wording: &Wording,
) -> Result<(), PutEnd>
    ensures done { OnOk result
        (S.held sink.new
        ≡ append_known (S.held sink.old)
        (file_line program.now project.now ending.now (words_in wording.now))) }
    ensures refused { OnErr result
        (MayPut (file_line program.now project.now ending.now (words_in wording.now))
        (S.held sink.old) (S.held sink.new)) }
    ensures cause { HasCause (S.faults sink.old) (S.faults sink.new) result }
{
    let mut first = Buffer::new();
    let mut second = Buffer::new();
    put_file_texts(
        sink,
        program,
        project,
        ending,
        wording.before,
        digits(&mut first, wording.first),
        wording.between,
        digits(&mut second, wording.second),
        wording.after,
    )
}

/// Puts the line `PROGRAM: TEXT`, or, for the project's file with this ending, `PROGRAM: FILE: TEXT`. After a refusal a
/// prefix of it was put.
pub fn put_message<S: Sink>(
    sink: &mut S,
    program: &str,
    project: &str,
    file: Option<&'static str>,
    wording: &Wording,
) -> Result<(), PutEnd>
    ensures done { OnOk result (S.held sink.new
        ≡ append_known (S.held sink.old) (message_in program.now project.now
        (option_map (λ e. e.now) file.entry) (words_in wording.now))) }
    ensures refused { OnErr result (MayPut (message_in program.now project.now
        (option_map (λ e. e.now) file.entry) (words_in wording.now))
        (S.held sink.old) (S.held sink.new)) }
    ensures cause { HasCause (S.faults sink.old) (S.faults sink.new) result }
{
    match file {
        Some(ending) => put_file_line(sink, program, project, ending, wording),
        None => put_line(sink, program, wording),
    }
}
