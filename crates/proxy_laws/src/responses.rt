ghost use Rattle.std.specs.Prelude.{◌++◌, List, ℕ, All, flat_map, map};
ghost use Rattle.tree_spelling.specs.Laws.{AreBytes};
ghost use Rattle.framing.specs.Frames.{sized};
ghost use Rattle.filter_core.specs.Decision.{Turn};
ghost use Rattle.filter_core.specs.Laws.{IsLawful};
ghost use Rattle.conn_rules.specs.Meaning.{Meaning};
ghost use Rattle.conn_rules.specs.State.{State};
ghost use Rattle.conn_rules.specs.History.{Entry, IsHistory};
ghost use Rattle.conn_core.specs.Chained.{chained};
ghost use Rattle.proxy_laws.specs.Awaited.{IsGivenAsAwaited, IsOwnSend, AreAskedOnce, FramesAreBytes};
ghost use Rattle.proxy_laws.specs.OwnResponses.{DoneWithOwnResponse, SendsWholeMessages, AllComeToAnEnd, AreOwnResponses, AreMessageSends};

use crate::chains::filters_are_lawful;
use filter_core::Filter;

/// Whatever comes, in whatever order, each request of a connection is given what it waits for, and nothing else. Each send is
/// one that its request waited for, and none is sent twice. It is so under every meaning of requests.
pub fn awaited_law()
    ensures requests { (M : Meaning) (hs : List Entry) (s : State) → IsHistory M hs s → FramesAreBytes hs → All (IsGivenAsAwaited M) s.requests }
    ensures sends { (M : Meaning) (hs : List Entry) (s : State) → IsHistory M hs s → FramesAreBytes hs → All (IsOwnSend M s) s.sends }
    ensures asked_once { (M : Meaning) (hs : List Entry) (s : State) → IsHistory M hs s → FramesAreBytes hs → AreAskedOnce s }
{}

/// What a request gets, and what it sends, in a connection under a chain of lawful filters.
pub fn connection_laws()
    // A response is of the request's own API and version, or is the refusal of ApiVersions, or no bytes for a Produce with acks 0.
    ensures own_response { (chain : List Turn) (limit : ℕ) → All IsLawful chain → DoneWithOwnResponse chain limit }
    // What goes to the broker is whole, of a supported API and version, and the request itself or asked aside.
    ensures whole_messages { (chain : List Turn) (limit : ℕ) → All IsLawful chain → SendsWholeMessages chain limit }
    // No filter goes on without an end.
    ensures comes_to_an_end { (chain : List Turn) (limit : ℕ) → All IsLawful chain → AllComeToAnEnd chain limit }
{}

/// What a client and a broker are sent, in every history of a connection under a chain of lawful filters.
pub fn history_laws()
    // The client is sent the responses of the passed requests, one after another. These are the first of its requests. Each response
    // is what its request means under the chain, with all that it was given, and is the request's own.
    ensures own_responses { (chain : List Turn) (limit : ℕ) (hs : List Entry) (s : State) → All IsLawful chain → IsHistory (chained chain limit) hs s → FramesAreBytes hs → AreOwnResponses (chained chain limit) hs s }
    // The broker is sent the sends in order. Each is a whole message of a supported API and version. The requests themselves are
    // sent in the client's order, and each once at most.
    ensures message_sends { (chain : List Turn) (limit : ℕ) (hs : List Entry) (s : State) → All IsLawful chain → IsHistory (chained chain limit) hs s → FramesAreBytes hs → AreMessageSends chain hs s }
{}

/// The same for filters as code, in order from the client to the broker.
pub fn filters_history_laws<F: Filter>(filters: &[F])
    ensures own_responses { (limit : ℕ) (hs : List Entry) (s : State) → IsHistory (chained (map F.turn filters.now) limit) hs s → FramesAreBytes hs → AreOwnResponses (chained (map F.turn filters.now) limit) hs s }
    ensures message_sends { (limit : ℕ) (hs : List Entry) (s : State) → IsHistory (chained (map F.turn filters.now) limit) hs s → FramesAreBytes hs → AreMessageSends (map F.turn filters.now) hs s }
{
    filters_are_lawful(filters);
    history_laws();
}

/// The frames at the front of a stream of bytes are bytes.
pub fn frames_law()
    ensures { (frames : List (List ℕ)) (rest : List ℕ) → AreBytes (flat_map sized frames ++ rest) → All AreBytes frames }
{}
