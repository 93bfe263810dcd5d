//! SyncGroup (key 14): "The Messages: SyncGroup API" of the protocol guide.
ghost use Rattle.std.specs.Prelude.{◌≡◌, option_copied};
ghost use Rattle.kp_schema.specs.Message.{fields_at};
ghost use Rattle.kp_schema.specs.SyncGroup.{message};

use crate::dir::Dir;
use crate::field::Field;
use crate::table::table;

#[tactic(auto, unfolding(crate::specs::SyncGroup::request))]
pub(crate) fn request(version: i16) -> Option<&'static [Field]>
    ensures { option_copied result ≡ fields_at message Dir.Request version }
{
    table! { version in [0 1 2 3]
        [0 1 2 3] 0 group_id: Str(Group);
        [0 1 2 3] 0 generation_id: I32;
        [0 1 2 3] 0 member_id: Str;
        [_ _ _ 3] 0 group_instance_id: Str;
        [0 1 2 3] 0 assignments: Array;
        [0 1 2 3] 1   member_id: Str;
        [0 1 2 3] 1   assignment: Bytes;
    }
}

#[tactic(auto, unfolding(crate::specs::SyncGroup::response))]
pub(crate) fn response(version: i16) -> Option<&'static [Field]>
    ensures { option_copied result ≡ fields_at message Dir.Response version }
{
    table! { version in [0 1 2 3]
        [_ 1 2 3] 0 throttle_time_ms: I32;
        [0 1 2 3] 0 error_code: I16;
        [0 1 2 3] 0 assignment: Bytes;
    }
}
