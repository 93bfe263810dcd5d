//! That the formats are those of the table: the same fields in the same order, of the same kinds, in the same versions, and
//! with its number where a field can be missing. A call does nothing but say so to its caller's proof.
ghost use Rattle.kp_schema.specs.declared.dir.Dir.TheVariants.{Request, Response};
ghost use Rattle.views.specs.Tables.{IsFormatOf};
ghost use Rattle.kp_schema.specs.DescribeGroups;
ghost use Rattle.kp_schema.specs.Heartbeat;
ghost use Rattle.kp_schema.specs.JoinGroup;
ghost use Rattle.kp_schema.specs.LeaveGroup;
ghost use Rattle.kp_schema.specs.ListGroups;
ghost use Rattle.kp_schema.specs.OffsetCommit;
ghost use Rattle.kp_schema.specs.OffsetFetch;
ghost use Rattle.kp_schema.specs.SyncGroup;
ghost use Rattle.group_api.specs.DescribeGroups.{describe_groups_request_format, describe_groups_response_format};
ghost use Rattle.group_api.specs.Heartbeat.{heartbeat_request_format, heartbeat_response_format};
ghost use Rattle.group_api.specs.JoinGroup.{join_group_request_format, join_group_response_format};
ghost use Rattle.group_api.specs.LeaveGroup.{leave_group_request_format, leave_group_response_format};
ghost use Rattle.group_api.specs.ListGroups.{list_groups_request_format, list_groups_response_format};
ghost use Rattle.group_api.specs.OffsetCommit.{offset_commit_request_format, offset_commit_response_format};
ghost use Rattle.group_api.specs.OffsetFetch.{offset_fetch_request_format, offset_fetch_response_format};
ghost use Rattle.group_api.specs.SyncGroup.{sync_group_request_format, sync_group_response_format};

/// DescribeGroups.
#[tactic(auto, unfolding(kp_schema::specs::DescribeGroups::request, kp_schema::specs::DescribeGroups::response, crate::specs::DescribeGroups::describe_groups_response_group_format, crate::specs::DescribeGroups::describe_groups_response_member_format))]
pub fn describe_groups_formats()
    ensures request { IsFormatOf DescribeGroups.message Request describe_groups_request_format }
    ensures response { IsFormatOf DescribeGroups.message Response describe_groups_response_format }
{}

/// Heartbeat.
#[tactic(auto, unfolding(kp_schema::specs::Heartbeat::request, kp_schema::specs::Heartbeat::response))]
pub fn heartbeat_formats()
    ensures request { IsFormatOf Heartbeat.message Request heartbeat_request_format }
    ensures response { IsFormatOf Heartbeat.message Response heartbeat_response_format }
{}

/// JoinGroup.
#[tactic(auto, unfolding(kp_schema::specs::JoinGroup::request, kp_schema::specs::JoinGroup::response, crate::specs::JoinGroup::join_group_request_protocol_format, crate::specs::JoinGroup::join_group_response_member_format))]
pub fn join_group_formats()
    ensures request { IsFormatOf JoinGroup.message Request join_group_request_format }
    ensures response { IsFormatOf JoinGroup.message Response join_group_response_format }
{}

/// LeaveGroup.
#[tactic(auto, unfolding(kp_schema::specs::LeaveGroup::request, kp_schema::specs::LeaveGroup::response, crate::specs::LeaveGroup::leave_group_request_member_format, crate::specs::LeaveGroup::leave_group_response_member_format))]
pub fn leave_group_formats()
    ensures request { IsFormatOf LeaveGroup.message Request leave_group_request_format }
    ensures response { IsFormatOf LeaveGroup.message Response leave_group_response_format }
{}

/// ListGroups.
#[tactic(auto, unfolding(kp_schema::specs::ListGroups::request, kp_schema::specs::ListGroups::response, crate::specs::ListGroups::list_groups_response_group_format))]
pub fn list_groups_formats()
    ensures request { IsFormatOf ListGroups.message Request list_groups_request_format }
    ensures response { IsFormatOf ListGroups.message Response list_groups_response_format }
{}

/// OffsetCommit.
#[tactic(auto, unfolding(kp_schema::specs::OffsetCommit::request, kp_schema::specs::OffsetCommit::response, crate::specs::OffsetCommit::offset_commit_request_topic_format, crate::specs::OffsetCommit::offset_commit_request_partition_format, crate::specs::OffsetCommit::offset_commit_response_topic_format, crate::specs::OffsetCommit::offset_commit_response_partition_format))]
pub fn offset_commit_formats()
    ensures request { IsFormatOf OffsetCommit.message Request offset_commit_request_format }
    ensures response { IsFormatOf OffsetCommit.message Response offset_commit_response_format }
{}

/// OffsetFetch.
#[tactic(auto, unfolding(kp_schema::specs::OffsetFetch::request, kp_schema::specs::OffsetFetch::response, crate::specs::OffsetFetch::offset_fetch_request_topic_format, crate::specs::OffsetFetch::offset_fetch_response_topic_format, crate::specs::OffsetFetch::offset_fetch_response_partition_format))]
pub fn offset_fetch_formats()
    ensures request { IsFormatOf OffsetFetch.message Request offset_fetch_request_format }
    ensures response { IsFormatOf OffsetFetch.message Response offset_fetch_response_format }
{}

/// SyncGroup.
#[tactic(auto, unfolding(kp_schema::specs::SyncGroup::request, kp_schema::specs::SyncGroup::response, crate::specs::SyncGroup::sync_group_request_assignment_format))]
pub fn sync_group_formats()
    ensures request { IsFormatOf SyncGroup.message Request sync_group_request_format }
    ensures response { IsFormatOf SyncGroup.message Response sync_group_response_format }
{}
