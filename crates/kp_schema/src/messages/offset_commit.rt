//! OffsetCommit (key 8): "The Messages: OffsetCommit API" of the protocol guide.
ghost use Rattle.std.specs.Prelude.{◌≡◌, option_copied};
ghost use Rattle.kp_schema.specs.Message.{fields_at};
ghost use Rattle.kp_schema.specs.OffsetCommit.{message};

use crate::dir::Dir;
use crate::field::Field;
use crate::table::table;

#[tactic(auto, unfolding(crate::specs::OffsetCommit::request))]
pub(crate) fn request(version: i16) -> Option<&'static [Field]>
    ensures { option_copied result ≡ fields_at message Dir.Request version }
{
    table! { version in [2 3 4 5 6 7]
        [2 3 4 5 6 7] 0 group_id: Str(Group);
        [2 3 4 5 6 7] 0 generation_id: I32;
        [2 3 4 5 6 7] 0 member_id: Str;
        [_ _ _ _ _ 7] 0 group_instance_id: Str;
        [2 3 4 _ _ _] 0 retention_time_ms: I64;
        [2 3 4 5 6 7] 0 topics: Array;
        [2 3 4 5 6 7] 1   name: Str(Topic);
        [2 3 4 5 6 7] 1   partitions: Array;
        [2 3 4 5 6 7] 2     index: I32;
        [2 3 4 5 6 7] 2     committed_offset: I64;
        [_ _ _ _ 6 7] 2     committed_leader_epoch: I32;
        [2 3 4 5 6 7] 2     committed_metadata: Str;
    }
}

#[tactic(auto, unfolding(crate::specs::OffsetCommit::response))]
pub(crate) fn response(version: i16) -> Option<&'static [Field]>
    ensures { option_copied result ≡ fields_at message Dir.Response version }
{
    table! { version in [2 3 4 5 6 7]
        [_ 3 4 5 6 7] 0 throttle_time_ms: I32;
        [2 3 4 5 6 7] 0 topics: Array;
        [2 3 4 5 6 7] 1   name: Str(Topic);
        [2 3 4 5 6 7] 1   partitions: Array;
        [2 3 4 5 6 7] 2     index: I32;
        [2 3 4 5 6 7] 2     error_code: I16;
    }
}
