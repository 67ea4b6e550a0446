ghost use Rattle.std.specs.Prelude.{◌≡◌, ℕ, List, Option, Result};
ghost use Rattle.gate_hook.specs.Requests.{Asks};
ghost use Rattle.gate_hook.specs.Told.{LawOfLineHistories, LawOfLines, LawOfRequestHistories, LawOfRequests, LawOfTokens};
ghost use Rattle.gate_http.specs.declared.refusal.Refusal.{Refusal as RefusalOf};
ghost use Rattle.gate_hook.specs.declared.requests.Request.{Request as RequestOf};

use gate_store::law_of_deliveries;

/// The law of requests: input asks for one thing at the most, so one response is due to it. If a token is needed, input that isn't
/// refused bears it. And if what is asked for is a delivery of which no act meets a full gate, as `serve_one` and `serve_guarded` say of
/// each that they answered, the headline holds of the delivery, and so does all that the history tells.
pub fn law_of_requests()
    ensures one { (token : Option (List ℕ)) (input : List ℕ) (wish other : Result RequestOf RefusalOf)
        → Asks token input wish → Asks token input other → wish ≡ other }
    ensures token { LawOfTokens }
    ensures headline { LawOfRequests }
    ensures history { LawOfRequestHistories }
{
    law_of_deliveries();
}

/// The law of lines: if none of the lines is a delivery of which an act meets a full gate, as `serve_lines` says of all that it
/// answered, the headline holds of the deliveries on them, and so does all that the history tells.
pub fn law_of_lines()
    ensures headline { LawOfLines }
    ensures history { LawOfLineHistories }
{
    law_of_deliveries();
}
