//! OffsetFetch (key 9): "The Messages: OffsetFetch API" of the protocol guide.
ghost use Rattle.std.specs.Prelude.{◌≡◌, option_copied};
ghost use Rattle.kp_schema.specs.Message.{fields_at};
ghost use Rattle.kp_schema.specs.OffsetFetch.{message};

use crate::dir::Dir;
use crate::field::Field;
use crate::table::table;

#[tactic(auto, unfolding(crate::specs::OffsetFetch::request))]
pub(crate) fn request(version: i16) -> Option<&'static [Field]>
    ensures { option_copied result ≡ fields_at message Dir.Request version }
{
    table! { version in [1 2 3 4 5]
        [1 2 3 4 5] 0 group_id: Str(Group);
        [1 2 3 4 5] 0 topics: Array;
        [1 2 3 4 5] 1   name: Str(Topic);
        [1 2 3 4 5] 1   partition_indexes: Array;
        [1 2 3 4 5] 2     it: I32;
    }
}

#[tactic(auto, unfolding(crate::specs::OffsetFetch::response))]
pub(crate) fn response(version: i16) -> Option<&'static [Field]>
    ensures { option_copied result ≡ fields_at message Dir.Response version }
{
    table! { version in [1 2 3 4 5]
        [_ _ 3 4 5] 0 throttle_time_ms: I32;
        [1 2 3 4 5] 0 topics: Array;
        [1 2 3 4 5] 1   name: Str(Topic);
        [1 2 3 4 5] 1   partitions: Array;
        [1 2 3 4 5] 2     index: I32;
        [1 2 3 4 5] 2     committed_offset: I64;
        [_ _ _ _ 5] 2     committed_leader_epoch: I32;
        [1 2 3 4 5] 2     metadata: Str;
        [1 2 3 4 5] 2     error_code: I16;
        [_ 2 3 4 5] 0 error_code: I16;
    }
}
