ghost use Rattle.gate_progress.specs.Coming.{LawOfComing};
ghost use Rattle.gate_progress.specs.Courses.{LawOfCourses, LawOfSuccesses};
ghost use Rattle.gate_progress.specs.Finding.{LawOfFinding};
ghost use Rattle.gate_progress.specs.Halving.{LawOfHalving, LawOfSparing};
ghost use Rattle.gate_progress.specs.Turns.{LawOfOvertaking, LawOfTurns};

/// The law of courses: the first in service lands, if the host stages it, its required names succeed and the host lands it, over
/// whatever comes in between that lets it run. No rule denies what the host tells.
pub fn law_of_courses()
    ensures { LawOfCourses }
{}

/// The law of successes: if of each required name the last that a host has said since the commit was staged is a success, the batch
/// passes with the last of these.
pub fn law_of_successes()
    ensures { LawOfSuccesses }
{}

/// The law of turns: of two waiting batches of one priority that are both fresh, or both retried, the one with the smaller number is
/// served first.
pub fn law_of_turns()
    ensures { LawOfTurns }
{}

/// The law of overtaking: as long as a batch waits, over any list of acts, nothing comes before it but what was before it already, a
/// batch of a greater priority, or, if it is fresh, a retried one of its priority.
pub fn law_of_overtaking()
    ensures { LawOfOvertaking }
{}

/// The law of coming: as long as a batch waits, each batch that fails or lands lowers the work before it (`work_before`), and nothing
/// raises it, over any list of acts that queue nothing above its priority. If none is left, the next tick orders it.
pub fn law_of_coming()
    ensures { LawOfComing }
{}

/// The law of halving: each failure halves the batch that has a change, until the change is alone, and the next one ends its approval. So
/// a batch of up to 2ⁿ changes fails `n + 1` times at the most, over any list of acts that leave approval and priority of the change.
pub fn law_of_halving()
    ensures { LawOfHalving }
{}

/// The law of sparing: if each batch that fails has the change that is to blame, every other change stays approved until it lands, over any
/// list of acts of which no deed and no settings end its approval.
pub fn law_of_sparing()
    ensures { LawOfSparing }
{}

/// The law of finding: as long as a change of the running batch is approved, fewer batches fail or land than its work allows
/// (`work_until`), over any list of acts that leave it alone and queue nothing above its priority. Once it isn't, a batch that had no other
/// change has failed, or it has landed, if no settings end its approval.
pub fn law_of_finding()
    ensures { LawOfFinding }
{}
