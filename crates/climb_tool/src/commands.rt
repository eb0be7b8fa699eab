//! The words of the command.
ghost use Rattle.std.specs.Prelude.{◌≡◌, ◌≤◌, ℕ, None, Some, IfSome, MatchOption, min};
ghost use Rattle.std.specs.Option.{option_map};
ghost use Rattle.mat_files.specs.Words.{digits_value};
ghost use Rattle.climb_tool.specs.Commands.{Command, budget_in, command_in, named, up_to, project_of};

use outside::{Words, is_project_name};

// The most steps where the words do not say.
const MOST_STEPS: u32 = 65_536;

// A project, and the most steps.
#[derive(Clone, Copy)]
pub(crate) struct Command<'a> {
    pub(crate) project: &'a str,
    pub(crate) budget: u32,
}

// The value of one or more digits, or one above the most where it is greater.
fn capped_value(digits: &[u8]) -> Option<u32>
    ensures { MatchOption result (digits_value digits.now ≡ None)
        (λ m. (n : ℕ) × (digits_value digits.now ≡ Some n) × (m ≡ min n 65537)) }
{
    if digits.is_empty() {
        return None;
    }
    let mut value: u32 = 0;
    for digit in digits {
        if !digit.is_ascii_digit() {
            return None;
        }
        value = (10 * value + u32::from(*digit - b'0')).min(MOST_STEPS + 1);
    }
    Some(value)
}

// The number of the digits, where it is not above the most.
fn number(digits: &[u8]) -> Option<u32>
    ensures number { result ≡ up_to 65536 (digits_value digits.now) }
    ensures small { IfSome result (λ n. n ≤ 65536) }
{
    match capped_value(digits) {
        Some(value) if value <= MOST_STEPS => Some(value),
        _ => None,
    }
}

// The number behind `--steps=`.
fn budget(word: &[u8]) -> Option<u32>
    ensures number { result ≡ budget_in word.now }
    ensures small { IfSome result (λ n. n ≤ 65536) }
{
    match word.strip_prefix(b"--steps=") {
        Some(digits) => number(digits),
        None => None,
    }
}

// The command of a budget and a project's name.
fn named<'a>(budget: Option<u32>, project: &'a str) -> Option<Command<'a>>
    requires { IfSome budget (λ n. n ≤ 65536) }
    ensures command { option_map (λ c. record { project = c.project.now; budget = c.budget }) result
        ≡ named budget project.now }
    ensures small { IfSome result (λ c. c.budget ≤ 65536) }
{
    match budget {
        Some(budget) if is_project_name(project.as_bytes()) => Some(Command { project, budget }),
        _ => None,
    }
}

// The command, where the words are one: `--steps=N` may stand before the project.
pub(crate) fn read_command(words: &Words) -> Option<Command<'_>>
    ensures command { option_map (λ c. record { project = c.project.now; budget = c.budget }) result
        ≡ command_in words.now }
    ensures small { IfSome result (λ c. c.budget ≤ 65536) }
{
    match words.len() {
        1 => named(Some(MOST_STEPS), words.word(0)),
        2 => named(budget(words.word(0).as_bytes()), words.word(1)),
        _ => None,
    }
}

// The project; nothing where the words are no command.
pub(crate) fn project_or_nothing(words: &Words) -> &str
    ensures { result.now ≡ project_of (command_in words.now) }
{
    match read_command(words) {
        Some(command) => command.project,
        None => "",
    }
}
