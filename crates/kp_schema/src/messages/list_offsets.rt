//! ListOffsets (key 2): "The Messages: ListOffsets API" of the protocol guide.
ghost use Rattle.std.specs.Prelude.{◌≡◌, option_copied};
ghost use Rattle.kp_schema.specs.Message.{fields_at};
ghost use Rattle.kp_schema.specs.ListOffsets.{message};

use crate::dir::Dir;
use crate::field::Field;
use crate::table::table;

#[tactic(auto, unfolding(crate::specs::ListOffsets::request))]
pub(crate) fn request(version: i16) -> Option<&'static [Field]>
    ensures { option_copied result ≡ fields_at message Dir.Request version }
{
    table! { version in [1 2 3 4 5]
        [1 2 3 4 5] 0 replica_id: I32;
        [_ 2 3 4 5] 0 isolation_level: I8;
        [1 2 3 4 5] 0 topics: Array;
        [1 2 3 4 5] 1   name: Str(Topic);
        [1 2 3 4 5] 1   partitions: Array;
        [1 2 3 4 5] 2     index: I32;
        [_ _ _ 4 5] 2     current_leader_epoch: I32;
        [1 2 3 4 5] 2     timestamp: I64;
    }
}

#[tactic(auto, unfolding(crate::specs::ListOffsets::response))]
pub(crate) fn response(version: i16) -> Option<&'static [Field]>
    ensures { option_copied result ≡ fields_at message Dir.Response version }
{
    table! { version in [1 2 3 4 5]
        [_ 2 3 4 5] 0 throttle_time_ms: I32;
        [1 2 3 4 5] 0 topics: Array;
        [1 2 3 4 5] 1   name: Str(Topic);
        [1 2 3 4 5] 1   partitions: Array;
        [1 2 3 4 5] 2     index: I32;
        [1 2 3 4 5] 2     error_code: I16;
        [1 2 3 4 5] 2     timestamp: I64;
        [1 2 3 4 5] 2     offset: I64;
        [_ _ _ 4 5] 2     leader_epoch: I32;
    }
}
