//! The words of the command.
ghost use Rattle.std.specs.Prelude.{◌≡◌, unwrap_or};
ghost use Rattle.std.specs.Option.{option_map};
ghost use Rattle.decompose_tool.specs.Requests.{tool_in, asked_in, project_of};

use lift_core::Tool;
use outside::{Words, is_project_name};

// What the command is asked for.
#[derive(Clone, Copy)]
pub(crate) struct Request<'a> {
    pub(crate) tool: Tool,
    pub(crate) project: &'a str,
}

// The tool that a word names.
fn tool(word: &str) -> Option<Tool>
    ensures { result ≡ tool_in word.now }
{
    if word == "graver" {
        Some(Tool::Graver)
    } else if word == "hilbert" {
        Some(Tool::Hilbert)
    } else if word == "zsolve" {
        Some(Tool::Zsolve)
    } else {
        None
    }
}

// What the words ask for, where they are a tool's name and then a project's.
pub(crate) fn read_request(words: &Words) -> Option<Request<'_>>
    ensures { option_map (λ r. record { tool = r.tool; project = r.project.now }) result
        ≡ asked_in words.now }
{
    if words.len() != 2 {
        return None;
    }
    let project = words.word(1);
    if !is_project_name(project.as_bytes()) {
        return None;
    }
    let tool = tool(words.word(0))?;
    Some(Request { tool, project })
}

// The project; nothing where the words are of another form.
pub(crate) fn project_or_nothing(words: &Words) -> &str
    ensures { result.now ≡ project_of (asked_in words.now) }
{
    match read_request(words) {
        Some(request) => request.project,
        None => "",
    }
}
