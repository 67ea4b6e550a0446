ghost use Rattle.gate_guard.specs.Due.{LawOfDuties};
ghost use Rattle.gate_guard.specs.Moves.{LawOfDelivering, LawOfMoves, LawOfStaying};

use gate_queue::{empty_history_is_legal, law_of_histories, law_of_since, law_of_tests};
use gate_store::law_of_deliveries;

/// The law of moves: over every list of what a host tells the bot and does, with pushes of others in between, each move of the main branch
/// that the host makes goes from its value to the merge of that value with the heads of a batch, one at least. When the order to land came,
/// each change of the batch was approved without a break, open and fit, at exactly that head, and of each status that the settings required
/// then, a success of that commit was told, after it was told that the batch is staged with it, and a check had said so. So it is in every
/// run in which a staging that is told is of the merge that was ordered, a success that is told of a merge is one that a check has said, and
/// the host moves the branch only by an order to land that has come, and only from the value that the order names.
pub fn law_of_moves()
    ensures moves { LawOfMoves }

    // What is to be merged, tested or landed for main by the state was ordered so, and fits what is known now; and each order to land that
    // nothing has ended is to land.
    ensures duties { LawOfDuties }

    // What a keeper is told leads its records so, and the orders that have come are those of its answers.
    ensures delivering { LawOfDelivering }

    // What has come stays.
    ensures stays { LawOfStaying }
{
    law_of_deliveries();
    law_of_histories();
    law_of_since();
    law_of_tests();
    empty_history_is_legal();
}
