ghost use Rattle.std.specs.Prelude.{◌≡◌};
ghost use Rattle.filter_chain.specs.Suspensions.{as_awaited, awaited_by};

use crate::outside::Outside;
use filter_core::Input;
use side_requests::Ask;

/// Of which kind an ask's answer is.
#[derive(Clone, Copy, Debug, PartialEq, Eq, Drop)]
pub enum Awaited {
    Answer,
    Verdict,
}

impl Awaited {
    pub(crate) fn by(ask: &Ask) -> Awaited
        ensures { result ≡ awaited_by ask.now }
    {
        match ask {
            Ask::Broker { .. } => Awaited::Answer,
            Ask::Hold { .. } => Awaited::Verdict,
        }
    }

    /// What comes from outside, as the input of who awaits it. What is of the other kind is no answer.
    pub(crate) fn input_of(self, outside: Outside) -> Input
        ensures { result ≡ as_awaited self outside }
    {
        match (self, outside) {
            (Awaited::Answer, Outside::Answer(response)) => Input::Response(response),
            (Awaited::Verdict, Outside::Verdict(verdict)) => Input::Verdict(verdict),
            _ => Input::NoResponse,
        }
    }
}
