ghost use Rattle.gate_state.specs.Checks.{LawOfChecks};
ghost use Rattle.gate_state.specs.Counts.{LawOfEnqueue, LawOfTry, LawOfTakeOut, LawOfRestart, LawOfStart, LawOfStage, LawOfReport, LawOfLand, LawOfRequeue, LawOfFail, LawOfDrop};
ghost use Rattle.gate_state.specs.Service.{LawOfNumbers, LawOfOrder, LawOfPlaces, LawOfQueues, LawOfRests, LawOfSingles};

/// The law of service: if each waiting batch goes before all behind it, then it does so after a batch was put at its place
/// under a new number, and after changes were taken out. If also no two batches of a lane have the same number, and none one
/// that is still to come, then both stay so, whatever is done to the lane; and no batch is given a number but the next ones.
/// If that holds of both lanes of a queue, and no batch of one has the number of a batch of the other, then that too stays so,
/// whatever is done to the queue. And if each batch of a lane has one change alone, and none is landing, then that stays so, whatever may be done to tries.
pub fn law_of_service()
    ensures places { LawOfPlaces }
    ensures rests { LawOfRests }
    ensures order { LawOfOrder }
    ensures numbers { LawOfNumbers }
    ensures queues { LawOfQueues }
    ensures singles { LawOfSingles }
{}

/// The law of changes: what is done to a lane loses no change and doubles none, but for those that it names.
pub fn law_of_changes()
    ensures enqueue { LawOfEnqueue }
    ensures enqueue_try { LawOfTry }
    ensures take_out { LawOfTakeOut }
    ensures restart { LawOfRestart }
    ensures start { LawOfStart }
    ensures stage { LawOfStage }
    ensures report { LawOfReport }
    ensures land { LawOfLand }
    ensures requeue { LawOfRequeue }
    ensures fail { LawOfFail }
    ensures drop { LawOfDrop }
{}

/// The law of checks: the tests that `State::fits` makes are passed by exactly the states of the machine.
pub fn law_of_checks()
    ensures { LawOfChecks }
{}
