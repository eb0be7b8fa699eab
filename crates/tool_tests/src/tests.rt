//! Runs of the top call over a folder in memory: what they end in, what they put out, and which files they leave.

use lift_core::Tool;
use outside::{MemFolder, MemSink, Words};
use std::alloc::Global;
use std::test::Fail;
use std::thread::Threads;
use tool_top::run_tool;
use worker_gate::FreeGate;

// A project's file, by its ending, and its text.
type Text = (&'static str, &'static str);

// A run: the tool, its words, its input files, the calls of the folder and of standard output that fail, and what is to
// come: the status with its end, the output files, and what standard output and standard error gain.
#[derive(Clone, Copy)]
struct Case {
    tool: Tool,
    words: &'static [&'static str],
    input: &'static [Text],
    failing: (&'static [u64], &'static [u64]),
    end: &'static str,
    output: &'static [Text],
    out: &'static str,
    err: &'static str,
}

// A run of a project that ends well.
const fn done(
    tool: Tool,
    input: &'static [Text],
    end: &'static str,
    output: &'static [Text],
    out: &'static str,
) -> Case {
    Case {
        tool,
        words: &["P"],
        input,
        failing: (&[], &[]),
        end,
        output,
        out,
        err: "",
    }
}

// A run of a project that ends before anything is written.
const fn refused(tool: Tool, input: &'static [Text], end: &'static str, err: &'static str) -> Case {
    Case {
        tool,
        words: &["P"],
        input,
        failing: (&[], &[]),
        end,
        output: &[],
        out: "",
        err,
    }
}

// The endings of all output files.
const OUTPUTS: [&str; 4] = [".gra", ".hil", ".zhom", ".zinhom"];

// The name of the project's file with this ending.
fn file(alloc: Global, ending: &str) -> Result<String, Fail> {
    let mut name = String::from_str(alloc, "P")?;
    name.push_str(ending)?;
    Ok(name)
}

// A text of the end, what was put out, and the files.
fn report(alloc: Global, end: &str, out: &str, err: &str, files: &str) -> Result<String, Fail> {
    Ok(format!(in alloc; "{end}\n{out}{err}{files}")?)
}

// The text of bytes.
fn text(alloc: Global, bytes: &[u8]) -> Result<String, Fail> {
    let mut shown = String::new(alloc);
    for byte in bytes {
        shown.push(char::from(*byte))?;
    }
    Ok(shown)
}

// The output files that are there, each with its ending and its text.
fn outputs(alloc: Global, folder: &MemFolder) -> Result<String, Fail> {
    let mut files = String::new(alloc);
    for ending in &OUTPUTS {
        if let Some(bytes) = folder.file(file(alloc, ending)?.as_str()) {
            files.push_str(ending)?;
            files.push('\n')?;
            files.push_str(text(alloc, bytes)?.as_str())?;
        }
    }
    Ok(files)
}

// A folder with these files, of whose calls the listed ones fail.
fn folder_of(alloc: Global, input: &[Text], failing: &[u64]) -> Result<MemFolder, Fail> {
    let mut folder = MemFolder::new(alloc, failing.to_vec(alloc)?);
    for (ending, text) in input {
        folder.insert(file(alloc, ending)?.as_str(), text.as_bytes())?;
    }
    Ok(folder)
}

// These words.
fn words_of(alloc: Global, words: &[&str]) -> Result<Words, Fail> {
    let mut list = Words::new(alloc);
    for word in words {
        list.push(word)?;
    }
    Ok(list)
}

// What a run of the case comes to.
fn outcome<R: Threads + Sync>(rt: &R, alloc: Global, case: &Case) -> Result<String, Fail> {
    let mut folder = folder_of(alloc, case.input, case.failing.0)?;
    let words = words_of(alloc, case.words)?;
    let mut out = MemSink::new(alloc, case.failing.1.to_vec(alloc)?);
    let mut err = MemSink::new(alloc, Vec::new(alloc));
    let status = run_tool(
        rt,
        alloc,
        case.tool,
        &words,
        &mut folder,
        &mut out,
        &mut err,
        &FreeGate,
    );
    let end = format!(in alloc; "{} {:?}", status.code, status.end)?;
    let put = text(alloc, out.bytes())?;
    let said = text(alloc, err.bytes())?;
    let files = outputs(alloc, &folder)?;
    report(
        alloc,
        end.as_str(),
        put.as_str(),
        said.as_str(),
        files.as_str(),
    )
}

// What the case is to come to.
fn wanted(alloc: Global, case: &Case) -> Result<String, Fail> {
    let mut files = String::new(alloc);
    for (ending, text) in case.output {
        files.push_str(ending)?;
        files.push('\n')?;
        files.push_str(text)?;
    }
    report(alloc, case.end, case.out, case.err, files.as_str())
}

// What came and what was to come, for each case where these differ.
fn differences<R: Threads + Sync>(rt: &R, alloc: Global, cases: &[Case]) -> Result<String, Fail> {
    let mut shown = String::new(alloc);
    for case in cases {
        let came = outcome(rt, alloc, case)?;
        let due = wanted(alloc, case)?;
        if came.as_str() != due.as_str() {
            shown.push_str("came: ")?;
            shown.push_str(came.as_str())?;
            shown.push_str("due: ")?;
            shown.push_str(due.as_str())?;
        }
    }
    Ok(shown)
}

#[test]
fn three_unit_vectors_are_written(rt: HostRuntime) -> Result<(), Fail> {
    let cases = [done(
        Tool::Hilbert,
        &[(".mat", "0 3\n")],
        "0 Done { solutions: 3, pairs: 0, norm_total: 3 }",
        &[(".hil", "3 3\n0 0 1\n0 1 0\n1 0 0\n")],
        "3 solutions, 0 pairs\n",
    )];
    assert_eq!(rt; differences(&rt, rt.alloc(), &cases)?.as_str(), "");
    Ok(())
}

#[test]
fn minimal_solutions_are_written(rt: HostRuntime) -> Result<(), Fail> {
    let cases = [
        // Odd white space, a sign and leading zeros.
        done(
            Tool::Hilbert,
            &[(".mat", " 1  2\r\n   +1   -02\r\n\n")],
            "0 Done { solutions: 1, pairs: 2, norm_total: 3 }",
            &[(".hil", "1 2\n2 1\n")],
            "1 solutions, 2 pairs\n",
        ),
        // Magic squares of order three.
        done(
            Tool::Hilbert,
            &[(
                ".mat",
                "7 9\n1 1 1 -1 -1 -1 0 0 0\n1 1 1 0 0 0 -1 -1 -1\n0 1 1 -1 0 0 -1 0 0\n1 0 1 0 -1 0 0 -1 0\n\
                 1 1 0 0 0 -1 0 0 -1\n0 1 1 0 -1 0 0 0 -1\n1 1 0 0 -1 0 -1 0 0\n",
            )],
            "0 Done { solutions: 5, pairs: 113, norm_total: 45 }",
            &[(
                ".hil",
                "5 9\n0 2 1 2 1 0 1 0 2\n1 0 2 2 1 0 0 2 1\n1 1 1 1 1 1 1 1 1\n1 2 0 0 1 2 2 0 1\n2 0 1 0 1 2 1 2 0\n",
            )],
            "5 solutions, 113 pairs\n",
        ),
        // The Graver basis of one equation, and with a column that is at least 0.
        done(
            Tool::Graver,
            &[(".mat", "1 3\n1 2 3\n")],
            "0 Done { solutions: 5, pairs: 64, norm_total: 19 }",
            &[(".gra", "5 3\n0 3 -2\n1 -2 1\n1 1 -1\n2 -1 0\n3 0 -1\n")],
            "5 solutions, 64 pairs\n",
        ),
        done(
            Tool::Graver,
            &[(".mat", "1 3\n1 2 3\n"), (".sign", "1 3\n2 1 2\n")],
            "0 Done { solutions: 5, pairs: 35, norm_total: 19 }",
            &[(".gra", "5 3\n-2 1 0\n-1 2 -1\n0 3 -2\n1 1 -1\n3 0 -1\n")],
            "5 solutions, 35 pairs\n",
        ),
        // The moves between tables of three by three.
        done(
            Tool::Graver,
            &[(
                ".mat",
                "6 9\n1 1 1 0 0 0 0 0 0\n0 0 0 1 1 1 0 0 0\n0 0 0 0 0 0 1 1 1\n1 0 0 1 0 0 1 0 0\n0 1 0 0 1 0 0 1 0\n0 0 1 0 0 1 0 0 1\n",
            )],
            "0 Done { solutions: 15, pairs: 144, norm_total: 72 }",
            &[(
                ".gra",
                "15 9\n0 0 0 0 1 -1 0 -1 1\n0 0 0 1 -1 0 -1 1 0\n0 0 0 1 0 -1 -1 0 1\n0 1 -1 -1 0 1 1 -1 0\n0 1 -1 0 -1 1 0 0 0\n\
                 0 1 -1 0 0 0 0 -1 1\n0 1 -1 1 -1 0 -1 0 1\n1 -1 0 -1 0 1 0 1 -1\n1 -1 0 -1 1 0 0 0 0\n1 -1 0 0 0 0 -1 1 0\n\
                 1 -1 0 0 1 -1 -1 0 1\n1 0 -1 -1 0 1 0 0 0\n1 0 -1 -1 1 0 0 -1 1\n1 0 -1 0 -1 1 -1 1 0\n1 0 -1 0 0 0 -1 0 1\n",
            )],
            "15 solutions, 144 pairs\n",
        ),
        // A column that is at most 0, and an inequality.
        done(
            Tool::Hilbert,
            &[(".mat", "1 2\n1 1\n"), (".sign", "1 2\n1 -1\n")],
            "0 Done { solutions: 1, pairs: 1, norm_total: 2 }",
            &[(".hil", "1 2\n1 -1\n")],
            "1 solutions, 1 pairs\n",
        ),
        done(
            Tool::Hilbert,
            &[(".mat", "1 2\n1 -1\n"), (".rel", "1 1\n<\n")],
            "0 Done { solutions: 2, pairs: 2, norm_total: 3 }",
            &[(".hil", "2 2\n0 1\n1 1\n")],
            "2 solutions, 2 pairs\n",
        ),
        // The diagonal, with and without right sides.
        done(
            Tool::Zsolve,
            &[
                (".mat", "1 2\n1 -1\n"),
                (".sign", "1 2\n1 1\n"),
                (".rhs", "1 1\n0\n"),
            ],
            "0 Done { solutions: 2, pairs: 1, norm_total: 2 }",
            &[(".zhom", "1 2\n1 1\n"), (".zinhom", "1 2\n0 0\n")],
            "2 solutions, 1 pairs\n",
        ),
        done(
            Tool::Zsolve,
            &[(".mat", "1 2\n1 -1\n"), (".sign", "1 2\n1 1\n")],
            "0 Done { solutions: 2, pairs: 1, norm_total: 2 }",
            &[(".zhom", "1 2\n1 1\n"), (".zinhom", "1 2\n0 0\n")],
            "2 solutions, 1 pairs\n",
        ),
        // The polygon: (1, 1) stays because of a slack.
        done(
            Tool::Zsolve,
            &[
                (".mat", "3 2\n1 -1\n-3 1\n1 1\n"),
                (".sign", "1 2\n1 1\n"),
                (".rel", "1 3\n< < >\n"),
                (".rhs", "1 3\n2 1 1\n"),
            ],
            "0 Done { solutions: 7, pairs: 60, norm_total: 15 }",
            &[
                (".zhom", "3 2\n1 1\n1 2\n1 3\n"),
                (".zinhom", "4 2\n0 1\n1 0\n1 1\n2 0\n"),
            ],
            "7 solutions, 60 pairs\n",
        ),
        // A product that is the greatest number of the range.
        done(
            Tool::Hilbert,
            &[(
                ".mat",
                "2 3\n1 -1 0\n4611686018427387904 4611686018427387903 -9223372036854775807\n",
            )],
            "0 Done { solutions: 1, pairs: 2, norm_total: 3 }",
            &[(".hil", "1 3\n1 1 1\n")],
            "1 solutions, 2 pairs\n",
        ),
        // 2 x = 1 has no solution.
        done(
            Tool::Zsolve,
            &[
                (".mat", "1 1\n2\n"),
                (".sign", "1 1\n1\n"),
                (".rhs", "1 1\n1\n"),
            ],
            "0 Done { solutions: 0, pairs: 2, norm_total: 0 }",
            &[(".zhom", "0 1\n"), (".zinhom", "0 1\n")],
            "0 solutions, 2 pairs\n",
        ),
    ];
    assert_eq!(rt; differences(&rt, rt.alloc(), &cases)?.as_str(), "");
    Ok(())
}

// The pairs of 17 and 17 columns in lexicographic order, each a row with a 1 among the first and one among the last.
fn pair_rows(alloc: Global) -> Result<String, Fail> {
    let mut rows = String::new(alloc);
    for pair in 0..289 {
        let (first, last) = (16 - pair / 17, 33 - pair % 17);
        for column in 0..34 {
            let entry = if column == first || column == last {
                '1'
            } else {
                '0'
            };
            rows.push(entry)?;
            rows.push(if column < 33 { ' ' } else { '\n' })?;
        }
    }
    Ok(rows)
}

#[test]
fn seventeen_by_seventeen_have_all_pairs(rt: HostRuntime) -> Result<(), Fail> {
    let alloc = rt.alloc();
    let case = refused(
        Tool::Hilbert,
        &[(
            ".mat",
            "1 34\n1 1 1 1 1 1 1 1 1 1 1 1 1 1 1 1 1 -1 -1 -1 -1 -1 -1 -1 -1 -1 -1 -1 -1 -1 -1 -1 -1 -1\n",
        )],
        "",
        "",
    );
    let end = "0 Done { solutions: 289, pairs: 289, norm_total: 578 }";
    let out = "289 solutions, 289 pairs\n";
    let files = format!(in alloc; ".hil\n289 34\n{}", pair_rows(alloc)?)?;
    let due = report(alloc, end, out, "", files.as_str())?;
    assert_eq!(rt; outcome(&rt, alloc, &case)?.as_str(), due.as_str());
    Ok(())
}

// A matrix file of one byte more than is read.
#[test]
fn a_long_file_is_not_read(rt: HostRuntime) -> Result<(), Fail> {
    let alloc = rt.alloc();
    let mut folder = MemFolder::new(alloc, Vec::new(alloc));
    folder.insert("P.mat", vec![in alloc; b' '; 4_194_305]?.as_slice())?;
    let words = words_of(alloc, &["P"])?;
    let mut out = MemSink::new(alloc, Vec::new(alloc));
    let mut err = MemSink::new(alloc, Vec::new(alloc));
    let status = run_tool(
        &rt,
        alloc,
        Tool::Hilbert,
        &words,
        &mut folder,
        &mut out,
        &mut err,
        &FreeGate,
    );
    let end = format!(in alloc; "{} {:?}", status.code, status.end)?;
    let said = text(alloc, err.bytes())?;
    let came = report(alloc, end.as_str(), "", said.as_str(), "")?;
    assert_eq!(rt;
        came.as_str(),
        "2 TooLong(Mat)\nhilbert: P.mat: longer than 4194304 bytes\n"
    );
    Ok(())
}

#[test]
fn the_first_fault_is_the_end(rt: HostRuntime) -> Result<(), Fail> {
    let cases = [
        refused(
            Tool::Hilbert,
            &[],
            "2 Missing(Mat)",
            "hilbert: P.mat: no such file\n",
        ),
        refused(
            Tool::Hilbert,
            &[(".mat", "2 2\n1 2 3\n")],
            "2 Text(Mat, Early { at: 10 })",
            "hilbert: P.mat: byte 10: more expected\n",
        ),
        refused(
            Tool::Hilbert,
            &[(".mat", "1 1\n9223372036854775808\n")],
            "2 Text(Mat, OutOfRange { at: 4 })",
            "hilbert: P.mat: byte 4: out of range\n",
        ),
        refused(
            Tool::Hilbert,
            &[(".mat", "1 1\n3x\n")],
            "2 Text(Mat, NotNumber { at: 4 })",
            "hilbert: P.mat: byte 4: not a number\n",
        ),
        refused(
            Tool::Hilbert,
            &[(".mat", "1 1\n5 6\n")],
            "2 Text(Mat, Extra { at: 6 })",
            "hilbert: P.mat: byte 6: nothing more expected\n",
        ),
        refused(
            Tool::Hilbert,
            &[(".mat", "")],
            "2 Text(Mat, Early { at: 0 })",
            "hilbert: P.mat: byte 0: more expected\n",
        ),
        refused(
            Tool::Hilbert,
            &[(".mat", "65 1\n")],
            "2 Text(Mat, TooManyRows { found: 65 })",
            "hilbert: P.mat: 65 rows, at most 64\n",
        ),
        refused(
            Tool::Hilbert,
            &[(".mat", "1 65\n")],
            "2 Text(Mat, TooManyCols { found: 65 })",
            "hilbert: P.mat: 65 columns, at most 64\n",
        ),
        refused(
            Tool::Hilbert,
            &[(".mat", "1 0\n")],
            "2 Text(Mat, NoCols)",
            "hilbert: P.mat: no columns\n",
        ),
        refused(
            Tool::Hilbert,
            &[(".mat", "0 3\n"), (".ub", "")],
            "2 Refused(Ub)",
            "hilbert: P.ub: not supported\n",
        ),
        refused(
            Tool::Hilbert,
            &[(".mat", "1 2\n1 -1\n"), (".rhs", "1 1\n0\n")],
            "2 Shape(RhsNotHere)",
            "hilbert: P.rhs: only for zsolve\n",
        ),
        refused(
            Tool::Graver,
            &[(".mat", "1 2\n1 -1\n"), (".rhs", "1 1\n0\n")],
            "2 Shape(RhsNotHere)",
            "graver: P.rhs: only for zsolve\n",
        ),
        refused(
            Tool::Hilbert,
            &[(".mat", "1 2\n1 -1\n"), (".rel", "1 2\n< =\n")],
            "2 Shape(RelShape { rows: 1, cols: 2 })",
            "hilbert: P.rel: wrong shape 1 x 2\n",
        ),
        refused(
            Tool::Zsolve,
            &[(".mat", "1 2\n1 -1\n")],
            "2 Shape(SignNeeded)",
            "zsolve: P.sign: needed\n",
        ),
        refused(
            Tool::Zsolve,
            &[(".mat", "1 2\n1 -1\n"), (".sign", "1 2\n1 0\n")],
            "2 Shape(Free { at: 2 })",
            "zsolve: P.sign: column 2: free variables are not supported\n",
        ),
        refused(
            Tool::Zsolve,
            &[(".mat", "1 2\n1 -1\n"), (".sign", "1 2\n1 3\n")],
            "2 Shape(BadSign { at: 2, value: 3 })",
            "zsolve: P.sign: column 2: bad sign 3\n",
        ),
        refused(
            Tool::Zsolve,
            &[(".mat", "1 2\n1 -1\n"), (".sign", "1 1\n1\n")],
            "2 Shape(SignShape { rows: 1, cols: 1 })",
            "zsolve: P.sign: wrong shape 1 x 1\n",
        ),
        refused(
            Tool::Zsolve,
            &[
                (".mat", "1 2\n1 -1\n"),
                (".sign", "1 2\n1 1\n"),
                (".rhs", "2 1\n0\n0\n"),
            ],
            "2 Shape(RhsShape { rows: 2, cols: 1 })",
            "zsolve: P.rhs: wrong shape 2 x 1\n",
        ),
        refused(
            Tool::Hilbert,
            &[(".mat", "1 2\n1 -2\n"), (".cap", "1 2\n-1 *\n")],
            "2 Text(Cap, NotCap { at: 4 })",
            "hilbert: P.cap: byte 4: not a cap\n",
        ),
        refused(
            Tool::Hilbert,
            &[(".mat", "1 2\n1 -2\n"), (".cap", "1 1\n*\n")],
            "2 Shape(CapShape { rows: 1, cols: 1 })",
            "hilbert: P.cap: wrong shape 1 x 1\n",
        ),
        // A number leaves the range at the second equation.
        refused(
            Tool::Hilbert,
            &[(".mat", "2 3\n1 -3 0\n4611686018427387904 0 -1\n")],
            "3 Overflow { stage: 2, place: Row(IntRow { cells: [3, 1, 0] }) }",
            "hilbert: overflow at equation 2: solution 3 1 0\n",
        ),
    ];
    assert_eq!(rt; differences(&rt, rt.alloc(), &cases)?.as_str(), "");
    Ok(())
}

#[test]
fn words_and_caps_are_obeyed(rt: HostRuntime) -> Result<(), Fail> {
    let cases = [
        Case {
            words: &["P", "Q"],
            ..refused(
                Tool::Hilbert,
                &[(".mat", "0 3\n")],
                "1 Usage",
                "hilbert: usage: hilbert [-q|--quiet] [--workers=N] [--pairs=N] [--rows=N] [--backup=N] [-r|--resume] PROJECT\n",
            )
        },
        // No file is looked at: the first call of the folder would fail.
        Case {
            words: &["--tables=2"],
            failing: (&[1], &[]),
            ..done(
                Tool::Graver,
                &[(".mat", "0 3\n")],
                "0 Done { solutions: 3, pairs: 21, norm_total: 12 }",
                &[],
                "3 solutions, 21 pairs\nnorm total 12\n",
            )
        },
        Case {
            words: &["--rows=3", "P"],
            ..refused(
                Tool::Hilbert,
                &[(".mat", "1 2\n1 -2\n")],
                "4 Rows { stage: 1, norm: 3, count: 4 }",
                "hilbert: row budget spent at equation 1, norm 3: 4 rows needed\n",
            )
        },
        Case {
            words: &["--pairs", "1", "P"],
            ..refused(
                Tool::Hilbert,
                &[(
                    ".mat",
                    "2 3\n1 -1 0\n4611686018427387904 4611686018427387903 -9223372036854775807\n",
                )],
                "4 Pairs { stage: 2, norm: 3, needed: 2 }",
                "hilbert: pair budget spent at equation 2, norm 3: 2 pairs needed\n",
            )
        },
        Case {
            words: &["-q", "--workers=2", "P"],
            ..done(
                Tool::Hilbert,
                &[(".mat", "1 2\n1 -2\n"), (".cap", "1 2\n1 *\n")],
                "0 Done { solutions: 0, pairs: 2, norm_total: 0 }",
                &[(".hil", "0 2\n")],
                "",
            )
        },
        done(
            Tool::Zsolve,
            &[
                (".mat", "1 2\n1 1\n"),
                (".sign", "1 2\n1 1\n"),
                (".rhs", "1 1\n3\n"),
                (".cap", "1 2\n2 2\n"),
            ],
            "0 Done { solutions: 2, pairs: 12, norm_total: 6 }",
            &[(".zhom", "0 2\n"), (".zinhom", "2 2\n1 2\n2 1\n")],
            "2 solutions, 12 pairs\n",
        ),
    ];
    assert_eq!(rt; differences(&rt, rt.alloc(), &cases)?.as_str(), "");
    Ok(())
}

// The project's files of a polygon.
const POLYGON: &[Text] = &[
    (".mat", "3 2\n1 -1\n-3 1\n1 1\n"),
    (".sign", "1 2\n1 1\n"),
    (".rel", "1 3\n< < >\n"),
    (".rhs", "1 3\n2 1 1\n"),
];

// The second call of the folder reads the matrix, the tenth looks for `.lat`, and the twenty-first appends the second row of
// the second file, of which half a line stands there then. The second put on standard output has the word behind the count.
#[test]
fn a_device_fault_is_named(rt: HostRuntime) -> Result<(), Fail> {
    let cases = [
        Case {
            failing: (&[2], &[]),
            ..refused(
                Tool::Zsolve,
                POLYGON,
                "5 Outside(Mat)",
                "zsolve: P.mat: device failure\n",
            )
        },
        Case {
            failing: (&[10], &[]),
            ..refused(
                Tool::Zsolve,
                POLYGON,
                "5 Outside(Lat)",
                "zsolve: P.lat: device failure\n",
            )
        },
        Case {
            failing: (&[21], &[]),
            err: "zsolve: P.zinhom: device failure\n",
            ..done(
                Tool::Zsolve,
                POLYGON,
                "5 Outside(Zinhom)",
                &[
                    (".zhom", "3 2\n1 1\n1 2\n1 3\n"),
                    (".zinhom", "4 2\n0 1\n1 "),
                ],
                "",
            )
        },
        Case {
            failing: (&[], &[2]),
            err: "zsolve: standard output: device failure\n",
            ..done(
                Tool::Zsolve,
                POLYGON,
                "5 Outside(Out)",
                &[
                    (".zhom", "3 2\n1 1\n1 2\n1 3\n"),
                    (".zinhom", "4 2\n0 1\n1 0\n1 1\n2 0\n"),
                ],
                "7 solut",
            )
        },
    ];
    assert_eq!(rt; differences(&rt, rt.alloc(), &cases)?.as_str(), "");
    Ok(())
}
