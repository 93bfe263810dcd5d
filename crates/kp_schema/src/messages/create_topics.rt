//! CreateTopics (key 19): "The Messages: CreateTopics API" of the protocol guide.
ghost use Rattle.std.specs.Prelude.{◌≡◌, option_copied};
ghost use Rattle.kp_schema.specs.Message.{fields_at};
ghost use Rattle.kp_schema.specs.CreateTopics.{message};

use crate::dir::Dir;
use crate::field::Field;
use crate::table::table;

#[tactic(auto, unfolding(crate::specs::CreateTopics::request))]
pub(crate) fn request(version: i16) -> Option<&'static [Field]>
    ensures { option_copied result ≡ fields_at message Dir.Request version }
{
    table! { version in [0 1 2 3 4]
        [0 1 2 3 4] 0 topics: Array;
        [0 1 2 3 4] 1   name: Str(Topic);
        [0 1 2 3 4] 1   num_partitions: I32;
        [0 1 2 3 4] 1   replication_factor: I16;
        [0 1 2 3 4] 1   assignments: Array;
        [0 1 2 3 4] 2     index: I32;
        [0 1 2 3 4] 2     broker_ids: Array;
        [0 1 2 3 4] 3       it: I32;
        [0 1 2 3 4] 1   configs: Array;
        [0 1 2 3 4] 2     name: Str;
        [0 1 2 3 4] 2     value: Str;
        [0 1 2 3 4] 0 timeout_ms: I32;
        [_ 1 2 3 4] 0 validate_only: Bool;
    }
}

#[tactic(auto, unfolding(crate::specs::CreateTopics::response))]
pub(crate) fn response(version: i16) -> Option<&'static [Field]>
    ensures { option_copied result ≡ fields_at message Dir.Response version }
{
    table! { version in [0 1 2 3 4]
        [_ _ 2 3 4] 0 throttle_time_ms: I32;
        [0 1 2 3 4] 0 topics: Array;
        [0 1 2 3 4] 1   name: Str(Topic);
        [0 1 2 3 4] 1   error_code: I16;
        [_ 1 2 3 4] 1   error_message: Str;
    }
}
