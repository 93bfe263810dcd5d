//! Fetch (key 1): "The Messages: Fetch API" of the protocol guide.
ghost use Rattle.std.specs.Prelude.{◌≡◌, option_copied};
ghost use Rattle.kp_schema.specs.Message.{fields_at};
ghost use Rattle.kp_schema.specs.Fetch.{message};

use crate::dir::Dir;
use crate::field::Field;
use crate::table::table;

#[tactic(auto, unfolding(crate::specs::Fetch::request))]
pub(crate) fn request(version: i16) -> Option<&'static [Field]>
    ensures { option_copied result ≡ fields_at message Dir.Request version }
{
    table! { version in [4 5 6 7 8 9 10 11]
        [4 5 6 7 8 9 10 11] 0 replica_id: I32;
        [4 5 6 7 8 9 10 11] 0 max_wait_ms: I32;
        [4 5 6 7 8 9 10 11] 0 min_bytes: I32;
        [4 5 6 7 8 9 10 11] 0 max_bytes: I32;
        [4 5 6 7 8 9 10 11] 0 isolation_level: I8;
        [_ _ _ 7 8 9 10 11] 0 session_id: I32;
        [_ _ _ 7 8 9 10 11] 0 session_epoch: I32;
        [4 5 6 7 8 9 10 11] 0 topics: Array;
        [4 5 6 7 8 9 10 11] 1   name: Str(Topic);
        [4 5 6 7 8 9 10 11] 1   partitions: Array;
        [4 5 6 7 8 9 10 11] 2     partition: I32;
        [_ _ _ _ _ 9 10 11] 2     current_leader_epoch: I32;
        [4 5 6 7 8 9 10 11] 2     fetch_offset: I64;
        [_ 5 6 7 8 9 10 11] 2     log_start_offset: I64;
        [4 5 6 7 8 9 10 11] 2     partition_max_bytes: I32;
        [_ _ _ 7 8 9 10 11] 0 forgotten: Array;
        [_ _ _ 7 8 9 10 11] 1   name: Str(Topic);
        [_ _ _ 7 8 9 10 11] 1   partitions: Array;
        [_ _ _ 7 8 9 10 11] 2     it: I32;
        [_ _ _ _ _ _ _ 11] 0 rack_id: Str;
    }
}

#[tactic(auto, unfolding(crate::specs::Fetch::response))]
pub(crate) fn response(version: i16) -> Option<&'static [Field]>
    ensures { option_copied result ≡ fields_at message Dir.Response version }
{
    table! { version in [4 5 6 7 8 9 10 11]
        [4 5 6 7 8 9 10 11] 0 throttle_time_ms: I32;
        [_ _ _ 7 8 9 10 11] 0 error_code: I16;
        [_ _ _ 7 8 9 10 11] 0 session_id: I32;
        [4 5 6 7 8 9 10 11] 0 topics: Array;
        [4 5 6 7 8 9 10 11] 1   name: Str(Topic);
        [4 5 6 7 8 9 10 11] 1   partitions: Array;
        [4 5 6 7 8 9 10 11] 2     index: I32;
        [4 5 6 7 8 9 10 11] 2     error_code: I16;
        [4 5 6 7 8 9 10 11] 2     high_watermark: I64;
        [4 5 6 7 8 9 10 11] 2     last_stable_offset: I64;
        [_ 5 6 7 8 9 10 11] 2     log_start_offset: I64;
        [4 5 6 7 8 9 10 11] 2     aborted: Array;
        [4 5 6 7 8 9 10 11] 3       producer_id: I64;
        [4 5 6 7 8 9 10 11] 3       first_offset: I64;
        [_ _ _ _ _ _ _ 11] 2     preferred_read_replica: I32;
        [4 5 6 7 8 9 10 11] 2     records: Bytes;
    }
}
