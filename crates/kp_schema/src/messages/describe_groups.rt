//! DescribeGroups (key 15): "The Messages: DescribeGroups API" of the protocol guide.
ghost use Rattle.std.specs.Prelude.{◌≡◌, option_copied};
ghost use Rattle.kp_schema.specs.Message.{fields_at};
ghost use Rattle.kp_schema.specs.DescribeGroups.{message};

use crate::dir::Dir;
use crate::field::Field;
use crate::table::table;

#[tactic(auto, unfolding(crate::specs::DescribeGroups::request))]
pub(crate) fn request(version: i16) -> Option<&'static [Field]>
    ensures { option_copied result ≡ fields_at message Dir.Request version }
{
    table! { version in [0 1 2 3 4]
        [0 1 2 3 4] 0 groups: Array;
        [0 1 2 3 4] 1   it: Str(Group);
        [_ _ _ 3 4] 0 include_authorized_operations: Bool;
    }
}

#[tactic(auto, unfolding(crate::specs::DescribeGroups::response))]
pub(crate) fn response(version: i16) -> Option<&'static [Field]>
    ensures { option_copied result ≡ fields_at message Dir.Response version }
{
    table! { version in [0 1 2 3 4]
        [_ 1 2 3 4] 0 throttle_time_ms: I32;
        [0 1 2 3 4] 0 groups: Array;
        [0 1 2 3 4] 1   error_code: I16;
        [0 1 2 3 4] 1   group_id: Str(Group);
        [0 1 2 3 4] 1   group_state: Str;
        [0 1 2 3 4] 1   protocol_type: Str;
        [0 1 2 3 4] 1   protocol_data: Str;
        [0 1 2 3 4] 1   members: Array;
        [0 1 2 3 4] 2     member_id: Str;
        [_ _ _ _ 4] 2     group_instance_id: Str;
        [0 1 2 3 4] 2     client_id: Str;
        [0 1 2 3 4] 2     client_host: Str;
        [0 1 2 3 4] 2     member_metadata: Bytes;
        [0 1 2 3 4] 2     member_assignment: Bytes;
        [_ _ _ 3 4] 1   authorized_operations: I32;
    }
}
