//! Runs that stop, and runs that go on from their restart files.

use lift_core::Tool;
use outside::{MemFolder, MemSink, Words};
use std::alloc::Global;
use std::test::Fail;
use std::thread::Threads;
use tool_top::run_tool;
use worker_gate::FreeGate;

// A project's file, by its ending, and its text.
type Text = (&'static str, &'static str);

// One run: its words, and what is to come: the status with its end, and what standard output and standard error gain.
#[derive(Clone, Copy)]
struct Run {
    words: &'static [&'static str],
    end: &'static str,
    out: &'static str,
    err: &'static str,
}

// Runs of a tool over one folder, one after another: its input files, the calls of the folder that fail, and the restart and
// output files that stand in the end.
#[derive(Clone, Copy)]
struct Case {
    tool: Tool,
    input: &'static [Text],
    failing: &'static [u64],
    runs: &'static [Run],
    files: &'static [Text],
}

// Stage 2 at norm 1 of the system of two equations below.
const EARLIER: &str = "restart 2
tool hilbert
shape 3 3 2
signs 1 1 1
caps * * *
row 1 -1 0
row 4611686018427387904 4611686018427387903 -9223372036854775807
place 2 1
used 1
listed 1
0 0 1 -9223372036854775807
classes 0 0 1
waiting 1
1 1 0 9223372036854775807
digest d8c1b41d1c87b5979b2b902acf9074e9a9c233495560c1934d564a9b6bad4b1c
";

// And at norm 2.
const LATER: &str = "restart 2
tool hilbert
shape 3 3 2
signs 1 1 1
caps * * *
row 1 -1 0
row 4611686018427387904 4611686018427387903 -9223372036854775807
place 2 2
used 1
listed 2
0 0 1 -9223372036854775807
1 1 0 9223372036854775807
classes 1 0 1
waiting 0
digest 4c6c84b947a72f79a0d32852076f3e887438387b7a7c9a46e13bc0719cc0c78c
";

// The same in the first version of the text.
const FIRST_VERSION: &str = "restart 1
tool hilbert
shape 3 3 2
signs 1 1 1
row 1 -1 0
row 4611686018427387904 4611686018427387903 -9223372036854775807
place 2 2
used 1
listed 2
0 0 1 -9223372036854775807
1 1 0 9223372036854775807
waiting 0
digest c71c84affc6b48d99499d382bb5c605cc696628bc4a6039612b6f153e8fdbac0
";

// A text that is accepted and that no run writes: the one pair has the norm 2^63.
const FORGED: &str = "restart 1
tool hilbert
shape 2 2 1
signs 1 1
row 1 -1
place 1 4611686018427387904
used 0
listed 2
0 4611686018427387904 -4611686018427387904
4611686018427387904 0 4611686018427387904
waiting 0
digest 132681c82d43a91b9a6981a05568cbad0b1bd5380efcf0cfe9a0393a1e7979c7
";

// The same with both rows exchanged.
const OUT_OF_ORDER: &str = "restart 1
tool hilbert
shape 2 2 1
signs 1 1
row 1 -1
place 1 4611686018427387904
used 0
listed 2
4611686018427387904 0 4611686018427387904
0 4611686018427387904 -4611686018427387904
waiting 0
digest c24ac35e661ea0a611e50be609127abad6bc46f477096823e69e436c4670f8d5
";

// Stage 1 at norm 2 of x = 2y, of whose rows one is left out.
const WITHOUT_A_ROW: &str = "restart 1
tool hilbert
shape 2 2 1
signs 1 1
row 1 -2
place 1 2
used 1
listed 2
0 1 -2
1 0 1
waiting 0
digest 33a98d295018c67ca1024341f337c73818068a9ee76294406cacfba7642a7fcb
";

// The same whole, with more used pairs.
const MORE_PAIRS: &str = "restart 1
tool hilbert
shape 2 2 1
signs 1 1
row 1 -2
place 1 2
used 5
listed 3
0 1 -2
1 0 1
1 1 -1
waiting 0
digest 534b26d40d6aafd9a8ba8bc3570c3f6f9ce13f50a1dd7d7bb1a894e9cb155da0
";

// And with too few.
const FEWER_PAIRS: &str = "restart 1
tool hilbert
shape 2 2 1
signs 1 1
row 1 -2
place 1 2
used 0
listed 2
0 1 -2
1 0 1
waiting 0
digest 6cec8ed71e6afcd3d9433b964352d599025e54624f6bfaeb95c24fb6cfae2375
";

// x = y, and a product with z that is 2^63-1.
const TWO_EQUATIONS: Text = (
    ".mat",
    "2 3\n1 -1 0\n4611686018427387904 4611686018427387903 -9223372036854775807\n",
);

// x = 2y
const ONE_EQUATION: Text = (".mat", "1 2\n1 -2\n");

// What the run of both equations ends in, and what it puts.
const DONE: &str = "0 Done { solutions: 1, pairs: 2, norm_total: 3 }";

const SUMMARY: &str = "1 solutions, 2 pairs\n";

const SOLUTION: Text = (".hil", "1 3\n1 1 1\n");

// The endings of all files that a run may leave.
const ENDINGS: [&str; 6] = [".ckp0", ".ckp1", ".gra", ".hil", ".zhom", ".zinhom"];

// The run that is stopped by its budget of pairs, with a backup of each norm.
const STOPPED: Run = Run {
    words: &["--pairs=1", "--backup=1", "P"],
    end: "4 Pairs { stage: 2, norm: 3, needed: 2 }",
    out: "",
    err: "hilbert: pair budget spent at equation 2, norm 3: 2 pairs needed\n",
};

// Runs of one system of `hilbert`.
const fn hilbert(input: &'static [Text], runs: &'static [Run], files: &'static [Text]) -> Case {
    Case {
        tool: Tool::Hilbert,
        input,
        failing: &[],
        runs,
        files,
    }
}

// The name of the project's file with this ending.
fn file(alloc: Global, ending: &str) -> Result<String, Fail> {
    let mut name = String::from_str(alloc, "P")?;
    name.push_str(ending)?;
    Ok(name)
}

// The text of bytes.
fn text(alloc: Global, bytes: &[u8]) -> Result<String, Fail> {
    let mut shown = String::new(alloc);
    for byte in bytes {
        shown.push(char::from(*byte))?;
    }
    Ok(shown)
}

// A folder with these files, of whose calls the listed ones fail.
fn folder_of(alloc: Global, input: &[Text], failing: &[u64]) -> Result<MemFolder, Fail> {
    let mut folder = MemFolder::new(alloc, failing.to_vec(alloc)?);
    for (ending, text) in input {
        folder.insert(file(alloc, ending)?.as_str(), text.as_bytes())?;
    }
    Ok(folder)
}

// These words.
fn words_of(alloc: Global, words: &[&str]) -> Result<Words, Fail> {
    let mut list = Words::new(alloc);
    for word in words {
        list.push(word)?;
    }
    Ok(list)
}

// What a run over the folder comes to.
fn run_once<R: Threads + Sync>(
    rt: &R,
    alloc: Global,
    tool: Tool,
    words: &[&str],
    folder: &mut MemFolder,
) -> Result<String, Fail> {
    let words = words_of(alloc, words)?;
    let mut out = MemSink::new(alloc, Vec::new(alloc));
    let mut err = MemSink::new(alloc, Vec::new(alloc));
    let status = run_tool(
        rt, alloc, tool, &words, folder, &mut out, &mut err, &FreeGate,
    );
    let put = text(alloc, out.bytes())?;
    let said = text(alloc, err.bytes())?;
    let end = format!(in alloc; "{} {:?}", status.code, status.end)?;
    Ok(format!(in alloc; "{}\n{}{}", end.as_str(), put.as_str(), said.as_str())?)
}

// The restart and output files that are there, each with its ending and its text.
fn files_in(alloc: Global, folder: &MemFolder) -> Result<String, Fail> {
    let mut files = String::new(alloc);
    for ending in &ENDINGS {
        if let Some(bytes) = folder.file(file(alloc, ending)?.as_str()) {
            files.push_str(ending)?;
            files.push('\n')?;
            files.push_str(text(alloc, bytes)?.as_str())?;
        }
    }
    Ok(files)
}

// What all runs of the case come to, and what then stands.
fn outcome<R: Threads + Sync>(rt: &R, alloc: Global, case: &Case) -> Result<String, Fail> {
    let mut folder = folder_of(alloc, case.input, case.failing)?;
    let mut shown = String::new(alloc);
    for each in case.runs {
        shown.push_str(run_once(rt, alloc, case.tool, each.words, &mut folder)?.as_str())?;
    }
    shown.push_str(files_in(alloc, &folder)?.as_str())?;
    Ok(shown)
}

// What they are to come to.
fn wanted(alloc: Global, case: &Case) -> Result<String, Fail> {
    let mut shown = String::new(alloc);
    for each in case.runs {
        shown.push_str(each.end)?;
        shown.push('\n')?;
        shown.push_str(each.out)?;
        shown.push_str(each.err)?;
    }
    for (ending, text) in case.files {
        shown.push_str(ending)?;
        shown.push('\n')?;
        shown.push_str(text)?;
    }
    Ok(shown)
}

// What came and what was to come, for each case where these differ.
fn differences<R: Threads + Sync>(rt: &R, alloc: Global, cases: &[Case]) -> Result<String, Fail> {
    let mut shown = String::new(alloc);
    for case in cases {
        let came = outcome(rt, alloc, case)?;
        let due = wanted(alloc, case)?;
        if came.as_str() != due.as_str() {
            shown.push_str("came: ")?;
            shown.push_str(came.as_str())?;
            shown.push_str("due: ")?;
            shown.push_str(due.as_str())?;
        }
    }
    Ok(shown)
}

// Four norms are closed before the budget is spent, so the third backup stands in the first file and the fourth in the
// second. The later one is taken; where it is cut, the earlier one; and the first backup of a run that is resumed goes to the
// file that was not taken.
#[test]
fn a_stopped_run_goes_on(rt: HostRuntime) -> Result<(), Fail> {
    let cases = [
        hilbert(
            &[TWO_EQUATIONS],
            &[
                STOPPED,
                Run {
                    words: &["--resume", "--pairs=2", "P"],
                    end: DONE,
                    out: SUMMARY,
                    err: "",
                },
            ],
            &[(".ckp0", EARLIER), (".ckp1", LATER), SOLUTION],
        ),
        hilbert(
            &[TWO_EQUATIONS, (".ckp0", EARLIER), (".ckp1", "restart 2\n")],
            &[
                Run {
                    words: &["-r", "--pairs=1", "--backup=1", "P"],
                    end: "4 Pairs { stage: 2, norm: 3, needed: 2 }",
                    out: "",
                    err: "hilbert: pair budget spent at equation 2, norm 3: 2 pairs needed\n",
                },
                Run {
                    words: &["-r", "P"],
                    end: DONE,
                    out: SUMMARY,
                    err: "",
                },
            ],
            &[(".ckp0", EARLIER), (".ckp1", LATER), SOLUTION],
        ),
        hilbert(
            &[TWO_EQUATIONS, (".ckp0", LATER), (".ckp1", EARLIER)],
            &[Run {
                words: &["-rq", "P"],
                end: DONE,
                out: "",
                err: "",
            }],
            &[(".ckp0", LATER), (".ckp1", EARLIER), SOLUTION],
        ),
        hilbert(
            &[TWO_EQUATIONS, (".ckp0", FIRST_VERSION)],
            &[Run {
                words: &["-r", "P"],
                end: DONE,
                out: SUMMARY,
                err: "",
            }],
            &[(".ckp0", FIRST_VERSION), SOLUTION],
        ),
        hilbert(
            &[ONE_EQUATION, (".cap", "1 2\n1 *\n")],
            &[Run {
                words: &["-q", "--backup=4", "P"],
                end: "0 Done { solutions: 0, pairs: 2, norm_total: 0 }",
                out: "",
                err: "",
            }],
            &[(".hil", "0 2\n")],
        ),
    ];
    assert_eq!(rt; differences(&rt, rt.alloc(), &cases)?.as_str(), "");
    Ok(())
}

// Where neither file is accepted, the line says why of both, and nothing changes.
#[test]
fn a_file_that_is_refused_has_its_cause(rt: HostRuntime) -> Result<(), Fail> {
    let cases = [
        hilbert(
            &[ONE_EQUATION],
            &[Run {
                words: &["--resume", "P"],
                end: "2 BadRestart(Missing, Missing)",
                out: "",
                err: "hilbert: P.ckp0: no such file; P.ckp1: no such file\n",
            }],
            &[],
        ),
        hilbert(
            &[TWO_EQUATIONS, (".ckp0", "restart 2\n"), (".ckp1", "")],
            &[Run {
                words: &["--resume", "P"],
                end: "2 BadRestart(Digest, Digest)",
                out: "",
                err: "hilbert: P.ckp0: digest differs; P.ckp1: digest differs\n",
            }],
            &[(".ckp0", "restart 2\n"), (".ckp1", "")],
        ),
        hilbert(
            &[ONE_EQUATION, (".ckp0", FEWER_PAIRS), (".ckp1", LATER)],
            &[Run {
                words: &["--resume", "P"],
                end: "2 BadRestart(Used, OtherSystem { line: 3 })",
                out: "",
                err: "hilbert: P.ckp0: used pairs too few; P.ckp1: line 3: other system\n",
            }],
            &[(".ckp0", FEWER_PAIRS), (".ckp1", LATER)],
        ),
        hilbert(
            &[(".mat", "1 2\n1 -1\n"), (".ckp1", OUT_OF_ORDER)],
            &[Run {
                words: &["--resume", "P"],
                end: "2 BadRestart(Missing, Order { line: 10 })",
                out: "",
                err: "hilbert: P.ckp0: no such file; P.ckp1: line 10: out of order\n",
            }],
            &[(".ckp1", OUT_OF_ORDER)],
        ),
    ];
    assert_eq!(rt; differences(&rt, rt.alloc(), &cases)?.as_str(), "");
    Ok(())
}

// A file that is accepted and that no run wrote leads to the end of the walk of its lists: an overflow, a solution that is
// missing, or more used pairs.
#[test]
fn a_forged_file_is_walked_on(rt: HostRuntime) -> Result<(), Fail> {
    let cases = [
        hilbert(
            &[(".mat", "1 2\n1 -1\n"), (".ckp0", FORGED)],
            &[Run {
                words: &["--resume", "P"],
                end: "3 Overflow { stage: 1, place: Norm(9223372036854775808) }",
                out: "",
                err: "hilbert: overflow at equation 1: norm 9223372036854775808\n",
            }],
            &[(".ckp0", FORGED)],
        ),
        hilbert(
            &[ONE_EQUATION, (".ckp0", WITHOUT_A_ROW)],
            &[Run {
                words: &["--resume", "P"],
                end: "0 Done { solutions: 0, pairs: 1, norm_total: 0 }",
                out: "0 solutions, 1 pairs\n",
                err: "",
            }],
            &[(".ckp0", WITHOUT_A_ROW), (".hil", "0 2\n")],
        ),
        hilbert(
            &[ONE_EQUATION, (".ckp1", MORE_PAIRS)],
            &[Run {
                words: &["--resume", "P"],
                end: "0 Done { solutions: 1, pairs: 6, norm_total: 3 }",
                out: "1 solutions, 6 pairs\n",
                err: "",
            }],
            &[(".ckp1", MORE_PAIRS), (".hil", "1 2\n2 1\n")],
        ),
    ];
    assert_eq!(rt; differences(&rt, rt.alloc(), &cases)?.as_str(), "");
    Ok(())
}
