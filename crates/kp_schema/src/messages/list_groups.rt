//! ListGroups (key 16): "The Messages: ListGroups API" of the protocol guide.
ghost use Rattle.std.specs.Prelude.{◌≡◌, option_copied};
ghost use Rattle.kp_schema.specs.Message.{fields_at};
ghost use Rattle.kp_schema.specs.ListGroups.{message};

use crate::dir::Dir;
use crate::field::Field;
use crate::table::table;

#[tactic(auto, unfolding(crate::specs::ListGroups::request))]
pub(crate) fn request(version: i16) -> Option<&'static [Field]>
    ensures { option_copied result ≡ fields_at message Dir.Request version }
{
    table! { version in [0 1 2]
    }
}

#[tactic(auto, unfolding(crate::specs::ListGroups::response))]
pub(crate) fn response(version: i16) -> Option<&'static [Field]>
    ensures { option_copied result ≡ fields_at message Dir.Response version }
{
    table! { version in [0 1 2]
        [_ 1 2] 0 throttle_time_ms: I32;
        [0 1 2] 0 error_code: I16;
        [0 1 2] 0 groups: Array;
        [0 1 2] 1   group_id: Str(Group);
        [0 1 2] 1   protocol_type: Str;
    }
}
