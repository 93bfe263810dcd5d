//! What follows of what `replay` writes.

ghost use Rattle.std.specs.Prelude.{◌≡◌, List, ℕ, length, Some, IsTrue};
ghost use Rattle.kp_edge.specs.declared.end.End.{End};
ghost use Rattle.virtual_cluster.specs.declared.plan.ClusterPlan.{ClusterPlan};
ghost use Rattle.virtual_cluster.specs.Limits.{IsValid};
ghost use Rattle.any_filter.specs.Chains.{cluster_chain};
ghost use Rattle.conn_rules.specs.Told.{is_client_stream_end};
ghost use Rattle.conn_rules.specs.Meaning.{Meaning};
ghost use Rattle.proxy_laws.specs.Awaited.{FramesAreBytes};
ghost use Rattle.proxy_laws.specs.OwnResponses.{AreOwnResponses, AreMessageSends};
ghost use Rattle.proxy_main.specs.DefaultPlan.{cluster_meaning, default_plan};
ghost use Rattle.proxy_main.specs.Replayed.{Answered};

use address_rewrite::addresses_law;
use conn_core::own_ends_law;
use conn_rules::told_law;

/// What follows for every script whose lines were answered under a valid plan. `run_command` hands such a plan over: the one
/// that is found in a file is served, so it is valid, and so is the default plan.
pub fn replay_laws()
    // The default plan is valid.
    ensures default_valid { IsValid default_plan }
    // The frames that were handed on are bytes, since the lines spell bytes.
    ensures frames_are_bytes { (M : Meaning) (lines : List (List ℕ)) (text : List ℕ) (a : Answered M lines text) → FramesAreBytes a.history }
    // The client was shown the responses of the passed requests, one after another. These are the first of its frames, and each
    // response is its request's own.
    ensures own_responses { (plan : ClusterPlan) → IsValid plan → (lines : List (List ℕ)) (text : List ℕ) (a : Answered (cluster_meaning plan) lines text) → AreOwnResponses (cluster_meaning plan) a.history a.last.state }
    // The broker was sent whole messages of supported APIs and versions, and each request itself once at most, in the client's order.
    ensures message_sends { (plan : ClusterPlan) → IsValid plan → (lines : List (List ℕ)) (text : List ℕ) (a : Answered (cluster_meaning plan) lines text) → AreMessageSends (cluster_chain plan) a.history a.last.state }
    // Where an end of the client's stream was told, all requests are passed: each has had its response.
    ensures all_passed { (plan : ClusterPlan) (lines : List (List ℕ)) (text : List ℕ) (a : Answered (cluster_meaning plan) lines text) (why : End) → a.last.state.causes.over ≡ Some why → IsTrue (is_client_stream_end why) → a.last.state.passed ≡ length a.last.state.requests }
{
    addresses_law();
    told_law();
    own_ends_law();
}
