ghost use Rattle.std.specs.Prelude.{◌≡◌};
ghost use Rattle.stock_filters.specs.Produce.{is_produce};

use kp_schema::Dir;
use tree_codec::Body;

// The key of Produce.
pub(crate) const PRODUCE: i16 = 0;

// Whether a message is a Produce request.
pub(crate) fn is_produce(message: &Body) -> bool
    ensures { result ≡ is_produce message.now }
{
    let is_request = match message.dir() {
        Dir::Request => true,
        Dir::Response => false,
    };
    message.key() == PRODUCE && is_request
}
