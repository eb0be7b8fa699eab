//! The law of halves: of the rows below a vector, those with at most half of a measure are enough.

ghost use Rattle.lift_core.specs.Halves.{HalvesDecide, NormsAdd, SizesAdd};

/// Where the lists are the defined ones and z is a stage vector of the next norm, a listed row is below z exactly where
/// one is that has at most half of z's measure.
///
/// This holds for each additive measure, as the norm or the size of an entry. It is one measure for each z: the rows with
/// at most half of two measures are not enough.
pub fn halves_law()
    ensures decide { HalvesDecide }
    ensures norms { NormsAdd }
    ensures sizes { SizesAdd }
{}
