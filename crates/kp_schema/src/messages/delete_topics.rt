//! DeleteTopics (key 20): "The Messages: DeleteTopics API" of the protocol guide.
ghost use Rattle.std.specs.Prelude.{◌≡◌, option_copied};
ghost use Rattle.kp_schema.specs.Message.{fields_at};
ghost use Rattle.kp_schema.specs.DeleteTopics.{message};

use crate::dir::Dir;
use crate::field::Field;
use crate::table::table;

#[tactic(auto, unfolding(crate::specs::DeleteTopics::request))]
pub(crate) fn request(version: i16) -> Option<&'static [Field]>
    ensures { option_copied result ≡ fields_at message Dir.Request version }
{
    table! { version in [0 1 2 3]
        [0 1 2 3] 0 names: Array;
        [0 1 2 3] 1   it: Str(Topic);
        [0 1 2 3] 0 timeout_ms: I32;
    }
}

#[tactic(auto, unfolding(crate::specs::DeleteTopics::response))]
pub(crate) fn response(version: i16) -> Option<&'static [Field]>
    ensures { option_copied result ≡ fields_at message Dir.Response version }
{
    table! { version in [0 1 2 3]
        [_ 1 2 3] 0 throttle_time_ms: I32;
        [0 1 2 3] 0 topics: Array;
        [0 1 2 3] 1   name: Str(Topic);
        [0 1 2 3] 1   error_code: I16;
    }
}
