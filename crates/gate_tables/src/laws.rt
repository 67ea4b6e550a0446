ghost use Rattle.gate_tables.specs.Differences.{LawOfDifferences, LawOfParts};

/// The law of differences: the differences of two lists of rows, applied to the first in any order, lead to the second, in some
/// order, if in neither two rows of a table have one key.
pub fn law_of_differences()
    ensures { LawOfDifferences }
{}

/// The law of parts: the differences of parts of rows suffice. If two lists of rows have the same others beside them, their
/// differences, applied to the first with the others in any order, lead to the second with the others, in some order, if in neither
/// whole two rows of a table have one key.
pub fn law_of_parts()
    ensures { LawOfParts }
{}
