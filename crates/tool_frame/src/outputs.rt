//! The output files.

ghost use Rattle.std.specs.Prelude.{◌≡◌, ◌++◌, OnOk, OnErr};
ghost use Rattle.std.specs.Option.{option_map};
ghost use Rattle.outside.specs.Causes.{HasCause};
ghost use Rattle.mat_files.specs.Printed.{text_of};
ghost use Rattle.solution_files.specs.Outputs.{written, MayWrite};

use mat_files::Grid;
use outside::{Folder, PutEnd};
use solution_files::write_grid;
use std::alloc::Global;
use system_files::file_name;

/// Writes the matrix into the project's file with this ending, anew.
///
/// # Errors
/// `Failed` where the folder failed, and `Memory` where memory ran out. The file is then as before, empty, or a prefix
/// of the text.
pub fn write_output<F: Folder>(
    alloc: Global,
    folder: &mut F,
    project: &str,
    ending: &str,
    grid: &Grid,
) -> Result<(), PutEnd>
    ensures done { OnOk result
        (F.held folder.new
        ≡ option_map (written (project.now ++ ending.now) (text_of grid.now))
        (F.held folder.old)) }
    ensures refused { OnErr result
        (MayWrite (project.now ++ ending.now) (text_of grid.now) (F.held folder.old)
        (F.held folder.new)) }
    ensures cause { HasCause (F.faults folder.old) (F.faults folder.new) result }
{
    let name = file_name(alloc, project, ending)?;
    write_grid(alloc, folder, name.as_str(), grid)
}
