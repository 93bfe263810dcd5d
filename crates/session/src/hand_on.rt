ghost use Rattle.std.specs.Prelude.{◌≡◌, ◌≤◌, length, Some};
ghost use Rattle.conn_rules.specs.declared.event.Reply.{Reply};
ghost use Rattle.conn_rules.specs.Connections.{Follows, CountsWork};
ghost use Rattle.session.specs.Peers.{least_size, frame_event, frame_receipt};
ghost use Rattle.session.specs.Sides.{ComesBack};

use crate::peer::Peer;
use crate::receipt::Receipt;
use bytes::Bytes;
use conn_rules::{AnswerFault, Connection, TakeFault};
use kp_edge::Steps;

// Hands one frame of this peer's on to the connection.
pub(crate) fn hand_on<C: Connection, L>(
    peer: Peer,
    frame: Bytes,
    connection: &mut C,
    steps: &mut Steps<L>,
) -> Receipt
    requires { least_size peer ≤ length frame }
    ensures follows { (r : Reply) × Follows C.meaning C.stands connection.old (frame_event peer frame) r connection.new
        × CountsWork C.meaning C.stands connection.old (frame_event peer frame) r steps.old steps.new × (frame_receipt peer r ≡ Some result) }
    ensures back { ComesBack frame result }
{
    match peer {
        Peer::Client => take(frame, connection, steps),
        Peer::Broker => answer(frame, connection, steps),
    }
}

fn take<C: Connection, L>(frame: Bytes, connection: &mut C, steps: &mut Steps<L>) -> Receipt
    requires { 8 ≤ length frame }
    ensures follows { (r : Reply) × Follows C.meaning C.stands connection.old (frame_event Peer.Client frame) r connection.new
        × CountsWork C.meaning C.stands connection.old (frame_event Peer.Client frame) r steps.old steps.new × (frame_receipt Peer.Client r ≡ Some result) }
    ensures back { ComesBack frame result }
{
    match connection.take(frame, steps) {
        Ok(()) => Receipt::Accepted,
        Err(TakeFault::Ending(_)) => Receipt::Refused,
        Err(
            TakeFault::Full {
                count: _,
                held: _,
                frame,
            },
        ) => Receipt::Full(frame),
        Err(TakeFault::NoMemory) => Receipt::NoMemory,
    }
}

fn answer<C: Connection, L>(frame: Bytes, connection: &mut C, steps: &mut Steps<L>) -> Receipt
    requires { 4 ≤ length frame }
    ensures follows { (r : Reply) × Follows C.meaning C.stands connection.old (frame_event Peer.Broker frame) r connection.new
        × CountsWork C.meaning C.stands connection.old (frame_event Peer.Broker frame) r steps.old steps.new × (frame_receipt Peer.Broker r ≡ Some result) }
    ensures back { ComesBack frame result }
{
    match connection.answer(frame, steps) {
        Ok(()) => Receipt::Accepted,
        Err(AnswerFault::Dead(_)) => Receipt::Refused,
        Err(AnswerFault::NoMemory) => Receipt::NoMemory,
    }
}
