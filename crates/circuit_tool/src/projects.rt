//! The words of the command.

ghost use Rattle.std.specs.Prelude.{◌≡◌, [], unwrap_or};
ghost use Rattle.std.specs.Option.{option_map};
ghost use Rattle.circuit_tool.specs.Sets.{project_in};

use outside::{Words, is_project_name};

// The project, where the words are its name alone.
pub(crate) fn project(words: &Words) -> Option<&str>
    ensures { option_map (λ name. name.now) result ≡ project_in words.now }
{
    if words.len() != 1 {
        return None;
    }
    let name = words.word(0);
    if is_project_name(name.as_bytes()) {
        Some(name)
    } else {
        None
    }
}

// The project; nothing where the words are no project.
pub(crate) fn project_or_nothing(words: &Words) -> &str
    ensures { result.now ≡ unwrap_or (project_in words.now) [] }
{
    match project(words) {
        Some(project) => project,
        None => "",
    }
}
