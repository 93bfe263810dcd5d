//! FindCoordinator (key 10): "The Messages: FindCoordinator API" of the protocol guide.
ghost use Rattle.std.specs.Prelude.{◌≡◌, option_copied};
ghost use Rattle.kp_schema.specs.Message.{fields_at};
ghost use Rattle.kp_schema.specs.FindCoordinator.{message};

use crate::dir::Dir;
use crate::field::Field;
use crate::table::table;

#[tactic(auto, unfolding(crate::specs::FindCoordinator::request))]
pub(crate) fn request(version: i16) -> Option<&'static [Field]>
    ensures { option_copied result ≡ fields_at message Dir.Request version }
{
    table! { version in [0 1 2]
        [0 1 2] 0 key: Str(CoordinatorKey);
        [_ 1 2] 0 key_type: I8;
    }
}

#[tactic(auto, unfolding(crate::specs::FindCoordinator::response))]
pub(crate) fn response(version: i16) -> Option<&'static [Field]>
    ensures { option_copied result ≡ fields_at message Dir.Response version }
{
    table! { version in [0 1 2]
        [_ 1 2] 0 throttle_time_ms: I32;
        [0 1 2] 0 error_code: I16;
        [_ 1 2] 0 error_message: Str;
        [0 1 2] 0 node_id: I32;
        [0 1 2] 0 host: Str;
        [0 1 2] 0 port: I32;
    }
}
