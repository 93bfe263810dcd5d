ghost use Rattle.std.specs.Prelude.{◌≡◌};
ghost use Rattle.filter_core.specs.Responses.{response_given, input_with};

use kp_edge::Blob;
use tree_codec::Body;

/// What a filter is given after its move.
#[derive(Drop)]
pub enum Input {
    /// The response to the message that it forwarded or asked aside.
    Response(Body),
    /// Its message gets no response, as a Produce with acks 0.
    NoResponse,
    /// The verdict on its hold.
    Verdict(Blob),
}

impl Input {
    /// What a filter returned, as the filter before it is given it.
    pub fn of(response: Option<Body>) -> Input
        ensures { result ≡ input_with response }
    {
        match response {
            Some(response) => Input::Response(response),
            None => Input::NoResponse,
        }
    }

    /// The response, if it is one.
    pub fn into_response(self) -> Option<Body>
        ensures { result ≡ response_given self }
    {
        match self {
            Input::Response(response) => Some(response),
            Input::NoResponse | Input::Verdict(_) => None,
        }
    }
}
