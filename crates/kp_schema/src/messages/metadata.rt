//! Metadata (key 3): "The Messages: Metadata API" of the protocol guide.
ghost use Rattle.std.specs.Prelude.{◌≡◌, option_copied};
ghost use Rattle.kp_schema.specs.Message.{fields_at};
ghost use Rattle.kp_schema.specs.Metadata.{message};

use crate::dir::Dir;
use crate::field::Field;
use crate::table::table;

#[tactic(auto, unfolding(crate::specs::Metadata::request))]
pub(crate) fn request(version: i16) -> Option<&'static [Field]>
    ensures { option_copied result ≡ fields_at message Dir.Request version }
{
    table! { version in [1 2 3 4 5 6 7 8]
        [1 2 3 4 5 6 7 8] 0 topics: Array;
        [1 2 3 4 5 6 7 8] 1   name: Str(Topic);
        [_ _ _ 4 5 6 7 8] 0 allow_auto_topic_creation: Bool;
        [_ _ _ _ _ _ _ 8] 0 include_cluster_authorized_operations: Bool;
        [_ _ _ _ _ _ _ 8] 0 include_topic_authorized_operations: Bool;
    }
}

#[tactic(auto, unfolding(crate::specs::Metadata::response))]
pub(crate) fn response(version: i16) -> Option<&'static [Field]>
    ensures { option_copied result ≡ fields_at message Dir.Response version }
{
    table! { version in [1 2 3 4 5 6 7 8]
        [_ _ 3 4 5 6 7 8] 0 throttle_time_ms: I32;
        [1 2 3 4 5 6 7 8] 0 brokers: Array;
        [1 2 3 4 5 6 7 8] 1   node_id: I32;
        [1 2 3 4 5 6 7 8] 1   host: Str;
        [1 2 3 4 5 6 7 8] 1   port: I32;
        [1 2 3 4 5 6 7 8] 1   rack: Str;
        [_ 2 3 4 5 6 7 8] 0 cluster_id: Str;
        [1 2 3 4 5 6 7 8] 0 controller_id: I32;
        [1 2 3 4 5 6 7 8] 0 topics: Array;
        [1 2 3 4 5 6 7 8] 1   error_code: I16;
        [1 2 3 4 5 6 7 8] 1   name: Str(Topic);
        [1 2 3 4 5 6 7 8] 1   is_internal: Bool;
        [1 2 3 4 5 6 7 8] 1   partitions: Array;
        [1 2 3 4 5 6 7 8] 2     error_code: I16;
        [1 2 3 4 5 6 7 8] 2     index: I32;
        [1 2 3 4 5 6 7 8] 2     leader_id: I32;
        [_ _ _ _ _ _ 7 8] 2     leader_epoch: I32;
        [1 2 3 4 5 6 7 8] 2     replica_nodes: Array;
        [1 2 3 4 5 6 7 8] 3       it: I32;
        [1 2 3 4 5 6 7 8] 2     isr_nodes: Array;
        [1 2 3 4 5 6 7 8] 3       it: I32;
        [_ _ _ _ 5 6 7 8] 2     offline_replicas: Array;
        [_ _ _ _ 5 6 7 8] 3       it: I32;
        [_ _ _ _ _ _ _ 8] 1   topic_authorized_operations: I32;
        [_ _ _ _ _ _ _ 8] 0 cluster_authorized_operations: I32;
    }
}
