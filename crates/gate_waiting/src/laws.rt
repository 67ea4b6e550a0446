ghost use Rattle.gate_waiting.specs.Turns.{LawOfTurns};

use crate::waiting::Whole;

/// The law of turns: whatever connections come, whatever comes on them, and whichever end, the one that is ready at some place is handed
/// on at that place, if so many are handed on. So of those that are ready the one that has been so the longest is next, and each is
/// handed on after at most 255 others.
pub fn law_of_turns<W: Whole>()
    ensures { LawOfTurns W.tells }
{}
