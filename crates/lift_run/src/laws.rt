//! The laws on the norms that a run closes. The functions do nothing: what they ensure is the law.

ghost use Rattle.lift_run.specs.Counts.{NormsAreBounded};
ghost use Rattle.lift_run.specs.Places.{LeadsThroughPlaces, LeadsThroughDefined};

/// A walk closes at most as many norms as its limit of pairs and the rows that wait in its stages: at each closed norm a
/// waiting row is listed or a pair is used.
pub fn length_law()
    ensures { NormsAreBounded }
{}

/// From defined lists, the stages that a Keep is told of have the defined lists of their places, and where an end is
/// reached they are those of all places that are closed on the way to it.
pub fn places_law()
    ensures places { LeadsThroughPlaces }
    ensures defined { LeadsThroughDefined }
{}
