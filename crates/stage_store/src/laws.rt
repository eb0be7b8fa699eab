//! Laws on the numbering of pairs, and on what the sift passes over. Each function does nothing: what it ensures is the law.

ghost use Rattle.stage_store.specs.Laws.{PairsAreNumbered, PairsStandOnce};
ghost use Rattle.stage_store.specs.SiftLaws.{CapMakesNone, ClashMakesNone, FarMakesNone, NearBars, NoneStays};
ghost use Rattle.stage_store.specs.SiftLaws.{NegativesHaveSums, NegativesMakeNone};

/// Each pair of a norm has exactly one number.
pub fn number_law()
    ensures numbered { PairsAreNumbered }
    ensures once { PairsStandOnce }
{}

/// Rows that make no irreducible sum, whichever rows are listed: a pair of them may be passed over.
///
/// Two entries of a column but the last have opposite signs, or one is at its cap and the other has its sign; a listed row
/// is below a row with an amount more, which the partner has; or a listed row bounds the last entry of the partner. What
/// makes none makes none when more rows are listed.
pub fn sift_laws()
    ensures clash { ClashMakesNone }
    ensures caps { CapMakesNone }
    ensures near { NearBars }
    ensures reach { FarMakesNone }
    ensures stable { NoneStays }
{}

/// Where the negative of each listed row is listed, a row and its negative are sifted together.
///
/// What is an irreducible sum of two rows is, with the other sign, one of their negatives. So f and g make none exactly
/// where -g and -f make none.
pub fn mirror_law()
    ensures sums { NegativesHaveSums }
    ensures none { NegativesMakeNone }
{}
