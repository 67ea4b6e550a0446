ghost use Rattle.gate_queue.specs.Following.{LawOfTheQueue};
ghost use Rattle.gate_queue.specs.History.{LawOfEntries, LawOfHistories};
ghost use Rattle.gate_queue.specs.MayChange.{LawOfUntouched};
ghost use Rattle.gate_queue.specs.Progress.{LawOfFirsts, LawOfFreeing, LawOfLandings, LawOfPassing, LawOfStagings, LawOfTimeOuts, LawOfWaiting};
ghost use Rattle.gate_queue.specs.States.{LawOfStates};
ghost use Rattle.gate_queue.specs.Words.{LawOfSince, LawOfTheLast, LawOfSets, LawOfTests};

/// The law of `since`: it holds exactly if the events can be cut at one that started it, and each event that came after
/// has kept it.
pub fn law_of_since()
    ensures { LawOfSince }
{}

/// The law of `last_of`: it gives what some event says after which no event says anything, and nothing exactly if no
/// event says anything.
pub fn law_of_the_last<X>()
    ensures { LawOfTheLast X }
{}

/// The law of the sets of a change: a label is among its labels, a status among those that succeeded on its head, a person
/// among its reviews or its delegates, exactly if the words of the history say so.
pub fn law_of_sets()
    ensures { LawOfSets }
{}

/// The law of states: an act that keeps its limits leaves a state after it, if the next number leaves room for the act.
pub fn law_of_states()
    ensures { LawOfStates }
{}

/// The law of the queue: what each deed on a change does to the batches, one by one, on every state and if no rule
/// denies it. The machine has one definition for all of them, by which the queue follows the desk.
pub fn law_of_the_queue()
    ensures { LawOfTheQueue }
{}

/// The law of tests: if a batch is tested for a base and a commit, then it was ordered on that base, which is still the
/// base; at each moment since, the settings were those of now; since the order it was staged with that commit, and neither
/// ordered nor staged anew; and after that each required status of the commit succeeded, with no report of it since the
/// success, and no bad one before.
pub fn law_of_tests()
    ensures { LawOfTests }
{}

/// The law of histories: after every legal history, roles, settings, base and clock of the state are what the history says;
/// each change is what the history says of it; it has approvers exactly if an approval of it stands; and it is in one batch on
/// `Staging` if it stands or is landing, in one on `Trying` if it is tried, and else in none.
pub fn law_of_histories()
    ensures { LawOfHistories }
{}

/// The law of entries: after every legal history, an act that keeps its limits adds an entry that tells all that the clause
/// `history` of `Gate::act` says of one, if the next number leaves room for the act.
pub fn law_of_entries()
    ensures { LawOfEntries }
{}

/// The law of what an act may change: after any act on a state, each person, each change, each batch under a number below the
/// next one, and the settings are as they were, unless `may_change` names them; and the next number hasn't become smaller.
pub fn law_of_untouched()
    ensures { LawOfUntouched }
{}

/// The law of the first in service: if no batch runs on a branch, the next tick orders its first batch to be staged on the base.
pub fn law_of_firsts()
    ensures { LawOfFirsts }
{}

/// The law of stagings: a batch that the host was ordered to stage on `Staging` is tested from the moment on at which the host tells of its
/// staging commit. No rule denies that news, unless the commit is the base.
pub fn law_of_stagings()
    ensures { LawOfStagings }
{}

/// The law of waiting: the batch that runs on `Staging` runs on over all that lets it run, until it passes, and the base stays. What does
/// (`lets_run`): whatever a rule denies, roles, settings that equal those of now, news of tries, statuses that aren't a failure of it,
/// ticks before its time is over, and deeds that leave approval and priority of its changes. What is to land waits for a base or a refusal
/// alone.
pub fn law_of_waiting()
    ensures { LawOfWaiting }
{}

/// The law of passing: the success of a required name after which all required names have succeeded orders the host to land the commit
/// that was tested, on the base, and no rule denies it.
pub fn law_of_passing()
    ensures { LawOfPassing }
{}

/// The law of landings: when the commit of a batch that is to land is reported as the base, its changes have landed, none of them is
/// approved any longer, and `Staging` is free. No rule denies that report, unless the commit is the base already.
pub fn law_of_landings()
    ensures { LawOfLandings }
{}

/// The law of freeing: the batch that runs on `Staging` runs no longer after a failure of it, and a tick then orders the next one. None runs
/// after another base or a refusal to land it. No rule denies these.
pub fn law_of_freeing()
    ensures { LawOfFreeing }
{}

/// The law of time-outs: a batch that the host stages or tests runs no longer after the first tick that comes when the time of the
/// settings is over, and no rule denies that tick. What is to land has no such time.
pub fn law_of_time_outs()
    ensures { LawOfTimeOuts }
{}
