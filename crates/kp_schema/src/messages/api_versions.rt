//! ApiVersions (key 18): "The Messages: ApiVersions API" of the protocol guide.
ghost use Rattle.std.specs.Prelude.{◌≡◌, option_copied};
ghost use Rattle.kp_schema.specs.Message.{fields_at};
ghost use Rattle.kp_schema.specs.ApiVersions.{message};

use crate::dir::Dir;
use crate::field::Field;
use crate::table::table;

#[tactic(auto, unfolding(crate::specs::ApiVersions::request))]
pub(crate) fn request(version: i16) -> Option<&'static [Field]>
    ensures { option_copied result ≡ fields_at message Dir.Request version }
{
    table! { version in [0 1 2]
    }
}

#[tactic(auto, unfolding(crate::specs::ApiVersions::response))]
pub(crate) fn response(version: i16) -> Option<&'static [Field]>
    ensures { option_copied result ≡ fields_at message Dir.Response version }
{
    table! { version in [0 1 2]
        [0 1 2] 0 error_code: I16;
        [0 1 2] 0 api_keys: Array;
        [0 1 2] 1   api_key: I16;
        [0 1 2] 1   min_version: I16;
        [0 1 2] 1   max_version: I16;
        [_ 1 2] 0 throttle_time_ms: I32;
    }
}
