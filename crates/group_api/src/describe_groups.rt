//! DescribeGroups (key 15): "The Messages: DescribeGroups API" of the protocol guide.
use bytes::Bytes;
use kp_schema::Dir;
use std::alloc::Global;
use views::{Cursor, Entries, Entry, Name, View, Writer};
use wire_types::NoMemory;

/// A DescribeGroups request (key 15, versions 0 to 4).
#[derive(Debug, Drop)]
pub struct DescribeGroupsRequest {
    pub version: i16,
    pub groups: Option<Entries<Name>>,
    /// Versions 3 to 4.
    pub include_authorized_operations: Option<u8>,
}

impl View for DescribeGroupsRequest {
    ghost use Rattle.std.specs.Prelude.{pos};
    ghost use Rattle.kp_schema.specs.declared.dir.Dir.TheVariants.{Request};
    ghost use Rattle.group_api.specs.DescribeGroups.{describe_groups_request_fields, describe_groups_request_format};

    ghost KEY = { pos 15 };

    ghost DIR = { Request };

    ghost version_of = { λ view. view.version };

    ghost format = { describe_groups_request_format };

    ghost fields = { describe_groups_request_fields };

    const KEY: i16 = 15;

    const DIR: Dir = Dir::Request;

    fn version(&self) -> i16 {
        self.version
    }

    fn read(alloc: Global, version: i16, cursor: &mut Cursor) -> Result<Self, NoMemory> {
        Ok(DescribeGroupsRequest {
            version,
            groups: cursor.array(alloc, version)?,
            include_authorized_operations: cursor.flag_in(version, 3, 4)?,
        })
    }

    fn write(&self, writer: &mut Writer) -> Result<(), NoMemory> {
        writer.array(&self.version, &self.groups)?;
        writer.flag_in(2, &self.version, 3, 4, &self.include_authorized_operations)?;
        Ok(())
    }
}

/// A DescribeGroups response (key 15, versions 0 to 4).
#[derive(Debug, Drop)]
pub struct DescribeGroupsResponse {
    pub version: i16,
    /// Versions 1 to 4.
    pub throttle_time_ms: Option<i32>,
    pub groups: Option<Entries<DescribeGroupsResponseGroup>>,
}

impl View for DescribeGroupsResponse {
    ghost use Rattle.std.specs.Prelude.{pos};
    ghost use Rattle.kp_schema.specs.declared.dir.Dir.TheVariants.{Response};
    ghost use Rattle.group_api.specs.DescribeGroups.{describe_groups_response_fields, describe_groups_response_format};

    ghost KEY = { pos 15 };

    ghost DIR = { Response };

    ghost version_of = { λ view. view.version };

    ghost format = { describe_groups_response_format };

    ghost fields = { describe_groups_response_fields };

    const KEY: i16 = 15;

    const DIR: Dir = Dir::Response;

    fn version(&self) -> i16 {
        self.version
    }

    fn read(alloc: Global, version: i16, cursor: &mut Cursor) -> Result<Self, NoMemory> {
        Ok(DescribeGroupsResponse {
            version,
            throttle_time_ms: cursor.int32_in(version, 1, 4)?,
            groups: cursor.array(alloc, version)?,
        })
    }

    fn write(&self, writer: &mut Writer) -> Result<(), NoMemory> {
        writer.int32_in(0, &self.version, 1, 4, &self.throttle_time_ms)?;
        writer.array(&self.version, &self.groups)?;
        Ok(())
    }
}

/// An entry of `groups` in a [`DescribeGroupsResponse`].
#[derive(Debug, Drop)]
pub struct DescribeGroupsResponseGroup {
    pub error_code: i16,
    pub group_id: Option<Bytes>,
    pub group_state: Option<Bytes>,
    pub protocol_type: Option<Bytes>,
    pub protocol_data: Option<Bytes>,
    pub members: Option<Entries<DescribeGroupsResponseMember>>,
    /// Versions 3 to 4.
    pub authorized_operations: Option<i32>,
}

#[tactic(auto, unfolding(crate::specs::DescribeGroups::describe_groups_response_group_format, crate::specs::DescribeGroups::describe_groups_response_group_fields, views::specs::Writing::put_item))]
impl Entry for DescribeGroupsResponseGroup {
    ghost use Rattle.group_api.specs.DescribeGroups.{describe_groups_response_group_fields, describe_groups_response_group_format};

    ghost format = { describe_groups_response_group_format };

    ghost fields = { describe_groups_response_group_fields };

    fn read(alloc: Global, version: i16, cursor: &mut Cursor) -> Result<Self, NoMemory> {
        Ok(DescribeGroupsResponseGroup {
            error_code: cursor.int16()?,
            group_id: cursor.text()?,
            group_state: cursor.text()?,
            protocol_type: cursor.text()?,
            protocol_data: cursor.text()?,
            members: cursor.array(alloc, version)?,
            authorized_operations: cursor.int32_in(version, 3, 4)?,
        })
    }

    fn write(&self, version: &i16, writer: &mut Writer) -> Result<(), NoMemory> {
        writer.int16(&self.error_code)?;
        writer.text(&self.group_id)?;
        writer.text(&self.group_state)?;
        writer.text(&self.protocol_type)?;
        writer.text(&self.protocol_data)?;
        writer.array(version, &self.members)?;
        writer.int32_in(14, version, 3, 4, &self.authorized_operations)?;
        Ok(())
    }
}

/// An entry of `members` in a [`DescribeGroupsResponse`].
#[derive(Debug, Drop)]
pub struct DescribeGroupsResponseMember {
    pub member_id: Option<Bytes>,
    /// Version 4.
    pub group_instance_id: Option<Option<Bytes>>,
    pub client_id: Option<Bytes>,
    pub client_host: Option<Bytes>,
    pub member_metadata: Option<Bytes>,
    pub member_assignment: Option<Bytes>,
}

#[tactic(auto, unfolding(crate::specs::DescribeGroups::describe_groups_response_member_format, crate::specs::DescribeGroups::describe_groups_response_member_fields, views::specs::Writing::put_item))]
impl Entry for DescribeGroupsResponseMember {
    ghost use Rattle.group_api.specs.DescribeGroups.{describe_groups_response_member_fields, describe_groups_response_member_format};

    ghost format = { describe_groups_response_member_format };

    ghost fields = { describe_groups_response_member_fields };

    fn read(alloc: Global, version: i16, cursor: &mut Cursor) -> Result<Self, NoMemory> {
        let _ = alloc;
        Ok(DescribeGroupsResponseMember {
            member_id: cursor.text()?,
            group_instance_id: cursor.text_in(version, 4, 4)?,
            client_id: cursor.text()?,
            client_host: cursor.text()?,
            member_metadata: cursor.binary()?,
            member_assignment: cursor.binary()?,
        })
    }

    fn write(&self, version: &i16, writer: &mut Writer) -> Result<(), NoMemory> {
        writer.text(&self.member_id)?;
        writer.text_in(9, version, 4, 4, &self.group_instance_id)?;
        writer.text(&self.client_id)?;
        writer.text(&self.client_host)?;
        writer.binary(&self.member_metadata)?;
        writer.binary(&self.member_assignment)?;
        Ok(())
    }
}
