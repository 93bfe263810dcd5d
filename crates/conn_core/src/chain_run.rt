ghost use Rattle.std.specs.Prelude.{◌≡◌, IfOk};
ghost use Rattle.side_requests.specs.declared.ask.Ask.{Ask};
ghost use Rattle.filter_chain.specs.Outcomes.{Needs};
ghost use Rattle.serving.specs.Services.{outside_of};
ghost use Rattle.conn_core.specs.Chained.{taken_as};
ghost use Rattle.conn_rules.specs.State.{Body};
ghost use Rattle.conn_core.specs.Underway.{IsAskedBy, answer_bytes};

use crate::answer_body::AnswerBody;
use crate::envelope::Envelope;
use filter_chain::{Outside, Run};
use kp_edge::NoMemory;
use serving::Given;

/// A request that waits for what its chain asked outside.
#[derive(Drop)]
pub struct ChainRun<P: Drop> {
    pub(crate) envelope: Envelope,
    pub(crate) asked: Asked,
    pub(crate) run: Run<P>,
}

/// What a request waits for.
#[derive(Clone, Copy, Drop)]
pub(crate) enum Asked {
    /// The response to a message with this key and version.
    Response { key: i16, version: i16 },
    /// The verdict on a hold.
    Verdict,
}

impl Asked {
    /// What came, as the chain is given it.
    pub(crate) fn taken(self, given: Given<AnswerBody>) -> Result<Outside, NoMemory>
        ensures { IfOk result (λ came. (question : Ask) → IsAskedBy self question → came ≡ taken_as (Needs question) (outside_of answer_bytes given)) }
    {
        match given {
            Given::Answer(answer) => self.answered(answer),
            Given::NoResponse => Ok(Outside::NoResponse),
            Given::Verdict(verdict) => Ok(Outside::Verdict(verdict)),
        }
    }

    // An answer to another message never comes.
    fn answered(self, answer: AnswerBody) -> Result<Outside, NoMemory>
        ensures { IfOk result (λ came. (question : Ask) → IsAskedBy self question → came ≡ taken_as (Needs question) (Body (answer_bytes answer))) }
    {
        match self {
            Asked::Response { key, version } => {
                if answer.body.key() != key || answer.body.version() != version {
                    return Err(NoMemory);
                }
                Ok(Outside::Answer(answer.body))
            }
            Asked::Verdict => Ok(Outside::NoResponse),
        }
    }
}
