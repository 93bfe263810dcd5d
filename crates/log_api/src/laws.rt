//! That the formats are those of the table: the same fields in the same order, of the same kinds, in the same versions, and
//! with its number where a field can be missing. A call does nothing but say so to its caller's proof.
ghost use Rattle.kp_schema.specs.declared.dir.Dir.TheVariants.{Request, Response};
ghost use Rattle.views.specs.Tables.{IsFormatOf};
ghost use Rattle.kp_schema.specs.Fetch;
ghost use Rattle.kp_schema.specs.ListOffsets;
ghost use Rattle.kp_schema.specs.Produce;
ghost use Rattle.log_api.specs.Fetch.{fetch_request_format, fetch_response_format};
ghost use Rattle.log_api.specs.ListOffsets.{list_offsets_request_format, list_offsets_response_format};
ghost use Rattle.log_api.specs.Produce.{produce_request_format, produce_response_format};

/// Fetch.
#[tactic(auto, unfolding(kp_schema::specs::Fetch::request, kp_schema::specs::Fetch::response, crate::specs::Fetch::fetch_request_topic_format, crate::specs::Fetch::fetch_request_partition_format, crate::specs::Fetch::fetch_request_forgotten_topic_format, crate::specs::Fetch::fetch_response_topic_format, crate::specs::Fetch::fetch_response_partition_format, crate::specs::Fetch::fetch_response_aborted_transaction_format))]
pub fn fetch_formats()
    ensures request { IsFormatOf Fetch.message Request fetch_request_format }
    ensures response { IsFormatOf Fetch.message Response fetch_response_format }
{}

/// ListOffsets.
#[tactic(auto, unfolding(kp_schema::specs::ListOffsets::request, kp_schema::specs::ListOffsets::response, crate::specs::ListOffsets::list_offsets_request_topic_format, crate::specs::ListOffsets::list_offsets_request_partition_format, crate::specs::ListOffsets::list_offsets_response_topic_format, crate::specs::ListOffsets::list_offsets_response_partition_format))]
pub fn list_offsets_formats()
    ensures request { IsFormatOf ListOffsets.message Request list_offsets_request_format }
    ensures response { IsFormatOf ListOffsets.message Response list_offsets_response_format }
{}

/// Produce.
#[tactic(auto, unfolding(kp_schema::specs::Produce::request, kp_schema::specs::Produce::response, crate::specs::Produce::produce_request_topic_format, crate::specs::Produce::produce_request_partition_format, crate::specs::Produce::produce_response_topic_format, crate::specs::Produce::produce_response_partition_format, crate::specs::Produce::produce_response_record_error_format))]
pub fn produce_formats()
    ensures request { IsFormatOf Produce.message Request produce_request_format }
    ensures response { IsFormatOf Produce.message Response produce_response_format }
{}
