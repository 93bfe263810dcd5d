ghost use Rattle.std.specs.Prelude.{◌≡◌};
ghost use Rattle.api_versions.specs.Refusal.{refusal_frame};

/// The response to a request for ApiVersions in a version other than 0 to 2, as a whole frame with its size: error
/// 35 (UNSUPPORTED_VERSION) and the one entry of ApiVersions itself, spelled as version 0 is. The correlation id
/// is the request's.
pub fn refusal(correlation_id: i32) -> [u8; 20]
    ensures { result ≡ refusal_frame correlation_id }
{
    let id = correlation_id.to_be_bytes();
    [
        0, 0, 0, 16, id[0], id[1], id[2], id[3], 0, 35, 0, 0, 0, 1, 0, 18, 0, 0, 0, 2,
    ]
}
