//! Produce (key 0): "The Messages: Produce API" of the protocol guide.
ghost use Rattle.std.specs.Prelude.{◌≡◌, option_copied};
ghost use Rattle.kp_schema.specs.Message.{fields_at};
ghost use Rattle.kp_schema.specs.Produce.{message};

use crate::dir::Dir;
use crate::field::Field;
use crate::table::table;

#[tactic(auto, unfolding(crate::specs::Produce::request))]
pub(crate) fn request(version: i16) -> Option<&'static [Field]>
    ensures { option_copied result ≡ fields_at message Dir.Request version }
{
    table! { version in [3 4 5 6 7 8]
        [3 4 5 6 7 8] 0 transactional_id: Str(Txn);
        [3 4 5 6 7 8] 0 acks: I16;
        [3 4 5 6 7 8] 0 timeout_ms: I32;
        [3 4 5 6 7 8] 0 topics: Array;
        [3 4 5 6 7 8] 1   name: Str(Topic);
        [3 4 5 6 7 8] 1   partitions: Array;
        [3 4 5 6 7 8] 2     index: I32;
        [3 4 5 6 7 8] 2     records: Bytes;
    }
}

#[tactic(auto, unfolding(crate::specs::Produce::response))]
pub(crate) fn response(version: i16) -> Option<&'static [Field]>
    ensures { option_copied result ≡ fields_at message Dir.Response version }
{
    table! { version in [3 4 5 6 7 8]
        [3 4 5 6 7 8] 0 topics: Array;
        [3 4 5 6 7 8] 1   name: Str(Topic);
        [3 4 5 6 7 8] 1   partitions: Array;
        [3 4 5 6 7 8] 2     index: I32;
        [3 4 5 6 7 8] 2     error_code: I16;
        [3 4 5 6 7 8] 2     base_offset: I64;
        [3 4 5 6 7 8] 2     log_append_time_ms: I64;
        [_ _ 5 6 7 8] 2     log_start_offset: I64;
        [_ _ _ _ _ 8] 2     record_errors: Array;
        [_ _ _ _ _ 8] 3       batch_index: I32;
        [_ _ _ _ _ 8] 3       message: Str;
        [_ _ _ _ _ 8] 2     error_message: Str;
        [3 4 5 6 7 8] 0 throttle_time_ms: I32;
    }
}
