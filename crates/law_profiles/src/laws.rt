ghost use Rattle.law_profiles.specs.Sums.{NodeSumsAreCounts, LineSumsAreCounts, WordSumsAreCounts};

/// What the rows of a profile tell is together what a report counts. Over all nodes: the turns, the
/// misses, the actions of the handler, the hops and the messages of each kind. Over all lines: the
/// misses, INV, BUSY, REPM with UPDATE, the actions of the handler and those that spilled; and no more
/// hits than turns. Over all code words: the misses, and the turns but for those of slots whose PC
/// stands outside the code.
pub fn sums_are_counts()
    ensures nodes { NodeSumsAreCounts }
    ensures lines { LineSumsAreCounts }
    ensures words { WordSumsAreCounts }
{}
