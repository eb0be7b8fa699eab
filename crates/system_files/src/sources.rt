//! The input files of a project, by their endings.

ghost use Rattle.std.specs.Prelude.{◌≡◌};
ghost use Rattle.system_files.specs.Sources.{ending};

/// An input file of a project, by its ending.
#[derive(Clone, Copy, Debug, PartialEq, Eq)]
pub enum Source {
    /// `.mat`, the matrix.
    Mat,
    /// `.sign`, the signs of the columns.
    Sign,
    /// `.rel`, the relations of the rows.
    Rel,
    /// `.rhs`, the right sides.
    Rhs,
    /// `.cap`, the caps of the columns.
    Cap,
    /// `.lat`, a lattice basis, which is not supported.
    Lat,
    /// `.lb`, lower bounds, which are not supported.
    Lb,
    /// `.ub`, upper bounds, which are not supported.
    Ub,
}

impl Source {
    /// What stands behind the project in the file's name.
    pub fn ending(self) -> &'static str
        ensures { result.now ≡ ending self }
    {
        match self {
            Source::Mat => ".mat",
            Source::Sign => ".sign",
            Source::Rel => ".rel",
            Source::Rhs => ".rhs",
            Source::Cap => ".cap",
            Source::Lat => ".lat",
            Source::Lb => ".lb",
            Source::Ub => ".ub",
        }
    }
}
