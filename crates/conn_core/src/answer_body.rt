ghost use Rattle.conn_core.specs.AnswerBodies.{IsResponseRead};

use tree_codec::Body;

/// The body of a broker's answer, as it was read.
#[derive(Drop)]
pub struct AnswerBody {
    pub(crate) body: Body,
    pub(crate) ghost is_read: { IsResponseRead body },
}
