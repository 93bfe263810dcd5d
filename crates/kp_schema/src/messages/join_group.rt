//! JoinGroup (key 11): "The Messages: JoinGroup API" of the protocol guide.
ghost use Rattle.std.specs.Prelude.{◌≡◌, option_copied};
ghost use Rattle.kp_schema.specs.Message.{fields_at};
ghost use Rattle.kp_schema.specs.JoinGroup.{message};

use crate::dir::Dir;
use crate::field::Field;
use crate::table::table;

#[tactic(auto, unfolding(crate::specs::JoinGroup::request))]
pub(crate) fn request(version: i16) -> Option<&'static [Field]>
    ensures { option_copied result ≡ fields_at message Dir.Request version }
{
    table! { version in [0 1 2 3 4 5]
        [0 1 2 3 4 5] 0 group_id: Str(Group);
        [0 1 2 3 4 5] 0 session_timeout_ms: I32;
        [_ 1 2 3 4 5] 0 rebalance_timeout_ms: I32;
        [0 1 2 3 4 5] 0 member_id: Str;
        [_ _ _ _ _ 5] 0 group_instance_id: Str;
        [0 1 2 3 4 5] 0 protocol_type: Str;
        [0 1 2 3 4 5] 0 protocols: Array;
        [0 1 2 3 4 5] 1   name: Str;
        [0 1 2 3 4 5] 1   metadata: Bytes;
    }
}

#[tactic(auto, unfolding(crate::specs::JoinGroup::response))]
pub(crate) fn response(version: i16) -> Option<&'static [Field]>
    ensures { option_copied result ≡ fields_at message Dir.Response version }
{
    table! { version in [0 1 2 3 4 5]
        [_ _ 2 3 4 5] 0 throttle_time_ms: I32;
        [0 1 2 3 4 5] 0 error_code: I16;
        [0 1 2 3 4 5] 0 generation_id: I32;
        [0 1 2 3 4 5] 0 protocol_name: Str;
        [0 1 2 3 4 5] 0 leader: Str;
        [0 1 2 3 4 5] 0 member_id: Str;
        [0 1 2 3 4 5] 0 members: Array;
        [0 1 2 3 4 5] 1   member_id: Str;
        [_ _ _ _ _ 5] 1   group_instance_id: Str;
        [0 1 2 3 4 5] 1   metadata: Bytes;
    }
}
