//! The commands, as `clap` reads them.
ghost use Rattle.std.specs.Prelude.{◌≡◌, map, IfOk, option_map};
ghost use Rattle.clap.specs.Walk.{rows_of, first_of};
ghost use Rattle.clap.specs.Matches.{found_of};
ghost use Rattle.clap.specs.Simple.{app_of, with_rule, matches_of};
ghost use Rattle.clap.specs.Kinds.{FailsBy};
ghost use Rattle.clap.specs.Faults.{fault_of};
ghost use Rattle.tool_words.specs.Choices.{flag, valued};
ghost use Rattle.tool_words.specs.Inside.Commands.{command_for, rule_for, with_own_rules};

use clap::{Arg, ArgAction, ArgMatches, Command, Error};
use lift_core::Tool;
use std::alloc::{AllocError, Global};

// The command with one flag more.
fn with_flag<'a>(
    alloc: Global,
    command: Command<'a>,
    name: &'a str,
    letter: char,
) -> Result<Command<'a>, AllocError>
    ensures { IfOk result
        (λ r. app_of r ≡ with_rule (app_of command.entry) (rule_for (flag name.now letter))) }
{
    let flag = Arg::new(alloc, name)
        .short(letter)
        .long(name)
        .action(ArgAction::SetTrue);
    command.arg(flag)
}

// The command with one option more, which takes one value.
fn with_value<'a>(
    alloc: Global,
    command: Command<'a>,
    name: &'a str,
) -> Result<Command<'a>, AllocError>
    ensures { IfOk result
        (λ r. app_of r ≡ with_rule (app_of command.entry) (rule_for (valued name.now))) }
{
    let option = Arg::new(alloc, name).long(name);
    command.arg(option)
}

// The command with the options that this tool has alone.
fn with_own_values<'a>(
    alloc: Global,
    tool: Tool,
    command: Command<'a>,
) -> Result<Command<'a>, AllocError>
    ensures { IfOk result (λ r. app_of r ≡ with_own_rules tool (app_of command.entry)) }
{
    match tool {
        Tool::Graver => with_value(alloc, command, "tables"),
        Tool::Hilbert | Tool::Zsolve => Ok(command),
    }
}

// The whole command of a tool.
fn command<'a>(alloc: Global, tool: Tool) -> Result<Command<'a>, AllocError>
    ensures { IfOk result (λ c. app_of c ≡ command_for tool) }
{
    let command = Command::new(alloc, "command")
        .no_binary_name(true)
        .disable_help_flag(true);
    let command = with_flag(alloc, command, "quiet", 'q')?;
    let command = with_flag(alloc, command, "resume", 'r')?;
    let command = with_value(alloc, command, "workers")?;
    let command = with_value(alloc, command, "pairs")?;
    let command = with_value(alloc, command, "rows")?;
    let command = with_value(alloc, command, "backup")?;
    let command = with_own_values(alloc, tool, command)?;
    command.arg(Arg::new(alloc, "project"))
}

// What `clap` finds in the words, or why it refuses them.
pub(crate) fn matches_in<'a>(
    alloc: Global,
    tool: Tool,
    words: &'a [&'a str],
) -> Result<ArgMatches<'a>, Error>
    ensures refused { FailsBy
        (fault_of (command_for tool) (map (λ w. w.now) words.entry.now)) result }
    ensures read { IfOk result
        (λ m. rows_of (found_of m)
        ≡ matches_of (command_for tool) (map (λ w. w.now) words.entry.now)) }
{
    let command = command(alloc, tool)?;
    command.try_get_matches_from(words)
}

// The first text of an argument.
pub(crate) fn text_in<'a>(found: &ArgMatches<'a>, id: &str) -> Option<&'a str>
    ensures { option_map (λ s. s.now) result ≡ first_of id.now (rows_of (found_of found.now)) }
{
    found.get_str(id)
}
