//! The endings of a project's files.

ghost use Rattle.std.specs.Prelude.{◌≡◌};
ghost use Rattle.tool_top.specs.Names.{ending};

use crate::Part;

// The ending of a file's name.
pub(crate) fn ending(part: Part) -> &'static str
    ensures { result.now ≡ ending part }
{
    match part {
        Part::Mat => ".mat",
        Part::Sign => ".sign",
        Part::Rel => ".rel",
        Part::Rhs => ".rhs",
        Part::Cap => ".cap",
        Part::Lat => ".lat",
        Part::Lb => ".lb",
        Part::Ub => ".ub",
        Part::Ckp0 => ".ckp0",
        Part::Ckp1 => ".ckp1",
        Part::Gra => ".gra",
        Part::Hil => ".hil",
        Part::Zhom => ".zhom",
        Part::Zinhom => ".zinhom",
        Part::Out => "",
    }
}
