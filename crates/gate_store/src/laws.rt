ghost use Rattle.gate_store.specs.Headline.{LawOfHeadlines, LawOfTelling};

use gate_queue::law_of_entries;
use gate_text::one_reading;

/// The law of deliveries: the headline, and all that the history tells, hold of `answers_to` and `after_deliveries` on every list
/// of deliveries, if none meets a full gate and each reading of the clock is within its limit. So they hold of whatever is told
/// in these words, as what `serve_lines` and `serve_one` write.
pub fn law_of_deliveries()
    ensures headline { LawOfHeadlines }
    ensures history { LawOfTelling }
{
    one_reading();
    law_of_entries();
}
