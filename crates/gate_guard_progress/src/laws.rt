ghost use Rattle.gate_guard_progress.specs.Arriving.{LawOfArriving};
ghost use Rattle.gate_guard_progress.specs.Journals.{LawOfJournals, LawOfShowing};
ghost use Rattle.gate_guard_progress.specs.Standing.{LawOfAnyTelling, LawOfStanding};
ghost use Rattle.gate_guard_progress.specs.Starting.{LawOfKnowing, LawOfRepeats, LawOfStarts};

use gate_guard::law_of_moves;
use gate_progress::law_of_successes;
use gate_text::one_reading;

/// The law of arrivals: a batch that is the first to be served comes onto the main branch, if the host stages it, its required names
/// succeed and the host lands it, over whatever it tells in between that lets the batch run. All the while the host is told what it has to
/// do: to merge, to test, to land, and then nothing. When the batch has passed, the order to land has come, and the branch is where the
/// order says. So the host may move it, and each change of the batch has landed.
pub fn law_of_arrivals()
    // What a host tells leads the bot where its acts lead the machine, and they may come. So each law of progress speaks of what is told.
    ensures standing { LawOfStanding }

    // The first in service comes onto the main branch.
    ensures arriving { LawOfArriving }

    // If nothing is supposed of merges and checks, all that a host tells is true, if each reading of the clock is within its limit.
    ensures possible { LawOfAnyTelling }
{
    one_reading();
    law_of_moves();
    law_of_successes();
}

/// The law of starts: what a host has handed in, and hands in again with what comes later, is answered, and leads on, as if it had come
/// once. So a host that writes down what it hands in can begin again, after any stop, at any place up to the first delivery without an
/// answer, if it leaves nothing out from there on.
pub fn law_of_starts()
    // What was handed in is known, and stays so.
    ensures known { LawOfKnowing }

    // What is known changes nothing, and is answered what is kept.
    ensures repeats { LawOfRepeats }

    // A start from any place on is as good as no stop.
    ensures starts { LawOfStarts }
{}

/// The law of journals: a host writes down each delivery before it hands it in, then its answer, and which entries people were shown. It may
/// stop after any of its steps, as often as it likes, and begins again with what is written down. Its bot may lose its records. Whatever the
/// host did, the answers that are written down are those of a bot to which each delivery comes once, without a stop. The bot stands where
/// these deliveries lead, or one further, and the next answer comes as if there had been no stop. No identifier is written down twice, and
/// people aren't shown again what is written down as shown.
pub fn law_of_journals()
    // What is written down is in order, whatever the host did, and wherever it stopped.
    ensures journals { LawOfJournals }

    // What is written down stays, and what is written down as shown isn't shown again.
    ensures showing { LawOfShowing }
{
    law_of_moves();
}
