//! That the formats are those of the table: the same fields in the same order, of the same kinds, in the same versions, and
//! with its number where a field can be missing. A call does nothing but say so to its caller's proof.
ghost use Rattle.kp_schema.specs.declared.dir.Dir.TheVariants.{Request, Response};
ghost use Rattle.views.specs.Tables.{IsFormatOf};
ghost use Rattle.kp_schema.specs.ApiVersions;
ghost use Rattle.kp_schema.specs.CreateTopics;
ghost use Rattle.kp_schema.specs.DeleteTopics;
ghost use Rattle.kp_schema.specs.FindCoordinator;
ghost use Rattle.kp_schema.specs.Metadata;
ghost use Rattle.cluster_api.specs.ApiVersions.{api_versions_request_format, api_versions_response_format};
ghost use Rattle.cluster_api.specs.CreateTopics.{create_topics_request_format, create_topics_response_format};
ghost use Rattle.cluster_api.specs.DeleteTopics.{delete_topics_request_format, delete_topics_response_format};
ghost use Rattle.cluster_api.specs.FindCoordinator.{find_coordinator_request_format, find_coordinator_response_format};
ghost use Rattle.cluster_api.specs.Metadata.{metadata_request_format, metadata_response_format};

/// ApiVersions.
#[tactic(auto, unfolding(kp_schema::specs::ApiVersions::request, kp_schema::specs::ApiVersions::response, crate::specs::ApiVersions::api_versions_response_api_key_format))]
pub fn api_versions_formats()
    ensures request { IsFormatOf ApiVersions.message Request api_versions_request_format }
    ensures response { IsFormatOf ApiVersions.message Response api_versions_response_format }
{}

/// CreateTopics.
#[tactic(auto, unfolding(kp_schema::specs::CreateTopics::request, kp_schema::specs::CreateTopics::response, crate::specs::CreateTopics::create_topics_request_topic_format, crate::specs::CreateTopics::create_topics_request_assignment_format, crate::specs::CreateTopics::create_topics_request_config_format, crate::specs::CreateTopics::create_topics_response_topic_format))]
pub fn create_topics_formats()
    ensures request { IsFormatOf CreateTopics.message Request create_topics_request_format }
    ensures response { IsFormatOf CreateTopics.message Response create_topics_response_format }
{}

/// DeleteTopics.
#[tactic(auto, unfolding(kp_schema::specs::DeleteTopics::request, kp_schema::specs::DeleteTopics::response, crate::specs::DeleteTopics::delete_topics_response_topic_format))]
pub fn delete_topics_formats()
    ensures request { IsFormatOf DeleteTopics.message Request delete_topics_request_format }
    ensures response { IsFormatOf DeleteTopics.message Response delete_topics_response_format }
{}

/// FindCoordinator.
#[tactic(auto, unfolding(kp_schema::specs::FindCoordinator::request, kp_schema::specs::FindCoordinator::response))]
pub fn find_coordinator_formats()
    ensures request { IsFormatOf FindCoordinator.message Request find_coordinator_request_format }
    ensures response { IsFormatOf FindCoordinator.message Response find_coordinator_response_format }
{}

/// Metadata.
#[tactic(auto, unfolding(kp_schema::specs::Metadata::request, kp_schema::specs::Metadata::response, crate::specs::Metadata::metadata_request_topic_format, crate::specs::Metadata::metadata_response_broker_format, crate::specs::Metadata::metadata_response_topic_format, crate::specs::Metadata::metadata_response_partition_format))]
pub fn metadata_formats()
    ensures request { IsFormatOf Metadata.message Request metadata_request_format }
    ensures response { IsFormatOf Metadata.message Response metadata_response_format }
{}
