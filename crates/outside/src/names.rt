//! The names of projects.

ghost use Rattle.std.specs.Prelude.{◌≡◌, ◌==◌, not};
ghost use Rattle.std.specs.List.{list_all};
ghost use Rattle.outside.specs.Names.{is_name};

fn has_no_zero(bytes: &[u8]) -> bool
    ensures { result ≡ list_all (λ b. not (b == 0)) bytes.now }
{
    bytes.iter().all(|b| *b != 0)
}

/// Whether the bytes are a project's name: 1 to 200 bytes, no zero byte, no dash at the front.
pub fn is_project_name(name: &[u8]) -> bool
    ensures { result ≡ is_name name.now }
{
    match name {
        [] => false,
        [first, ..] => {
            if name.len() > 200 || *first == b'-' {
                return false;
            }
            has_no_zero(name)
        }
    }
}
