//! JoinGroup (key 11): "The Messages: JoinGroup API" of the protocol guide.
use bytes::Bytes;
use kp_schema::Dir;
use std::alloc::Global;
use views::{Cursor, Entries, Entry, View, Writer};
use wire_types::NoMemory;

/// A JoinGroup request (key 11, versions 0 to 5).
#[derive(Debug, Drop)]
pub struct JoinGroupRequest {
    pub version: i16,
    pub group_id: Option<Bytes>,
    pub session_timeout_ms: i32,
    /// Versions 1 to 5.
    pub rebalance_timeout_ms: Option<i32>,
    pub member_id: Option<Bytes>,
    /// Version 5.
    pub group_instance_id: Option<Option<Bytes>>,
    pub protocol_type: Option<Bytes>,
    pub protocols: Option<Entries<JoinGroupRequestProtocol>>,
}

#[tactic(auto, unfolding(views::specs::Writing::put_item))]
impl View for JoinGroupRequest {
    ghost use Rattle.std.specs.Prelude.{pos};
    ghost use Rattle.kp_schema.specs.declared.dir.Dir.TheVariants.{Request};
    ghost use Rattle.group_api.specs.JoinGroup.{join_group_request_fields, join_group_request_format};

    ghost KEY = { pos 11 };

    ghost DIR = { Request };

    ghost version_of = { λ view. view.version };

    ghost format = { join_group_request_format };

    ghost fields = { join_group_request_fields };

    const KEY: i16 = 11;

    const DIR: Dir = Dir::Request;

    fn version(&self) -> i16 {
        self.version
    }

    fn read(alloc: Global, version: i16, cursor: &mut Cursor) -> Result<Self, NoMemory> {
        Ok(JoinGroupRequest {
            version,
            group_id: cursor.text()?,
            session_timeout_ms: cursor.int32()?,
            rebalance_timeout_ms: cursor.int32_in(version, 1, 5)?,
            member_id: cursor.text()?,
            group_instance_id: cursor.text_in(version, 5, 5)?,
            protocol_type: cursor.text()?,
            protocols: cursor.array(alloc, version)?,
        })
    }

    fn write(&self, writer: &mut Writer) -> Result<(), NoMemory> {
        writer.text(&self.group_id)?;
        writer.int32(&self.session_timeout_ms)?;
        writer.int32_in(2, &self.version, 1, 5, &self.rebalance_timeout_ms)?;
        writer.text(&self.member_id)?;
        writer.text_in(4, &self.version, 5, 5, &self.group_instance_id)?;
        writer.text(&self.protocol_type)?;
        writer.array(&self.version, &self.protocols)?;
        Ok(())
    }
}

/// An entry of `protocols` in a [`JoinGroupRequest`].
#[derive(Debug, Drop)]
pub struct JoinGroupRequestProtocol {
    pub name: Option<Bytes>,
    pub metadata: Option<Bytes>,
}

#[tactic(auto, unfolding(crate::specs::JoinGroup::join_group_request_protocol_format, crate::specs::JoinGroup::join_group_request_protocol_fields))]
impl Entry for JoinGroupRequestProtocol {
    ghost use Rattle.group_api.specs.JoinGroup.{join_group_request_protocol_fields, join_group_request_protocol_format};

    ghost format = { join_group_request_protocol_format };

    ghost fields = { join_group_request_protocol_fields };

    fn read(alloc: Global, version: i16, cursor: &mut Cursor) -> Result<Self, NoMemory> {
        let _ = (alloc, version);
        Ok(JoinGroupRequestProtocol {
            name: cursor.text()?,
            metadata: cursor.binary()?,
        })
    }

    fn write(&self, version: &i16, writer: &mut Writer) -> Result<(), NoMemory> {
        let _ = version;
        writer.text(&self.name)?;
        writer.binary(&self.metadata)?;
        Ok(())
    }
}

/// A JoinGroup response (key 11, versions 0 to 5).
#[derive(Debug, Drop)]
pub struct JoinGroupResponse {
    pub version: i16,
    /// Versions 2 to 5.
    pub throttle_time_ms: Option<i32>,
    pub error_code: i16,
    pub generation_id: i32,
    pub protocol_name: Option<Bytes>,
    pub leader: Option<Bytes>,
    pub member_id: Option<Bytes>,
    pub members: Option<Entries<JoinGroupResponseMember>>,
}

#[tactic(auto, unfolding(views::specs::Writing::put_item))]
impl View for JoinGroupResponse {
    ghost use Rattle.std.specs.Prelude.{pos};
    ghost use Rattle.kp_schema.specs.declared.dir.Dir.TheVariants.{Response};
    ghost use Rattle.group_api.specs.JoinGroup.{join_group_response_fields, join_group_response_format};

    ghost KEY = { pos 11 };

    ghost DIR = { Response };

    ghost version_of = { λ view. view.version };

    ghost format = { join_group_response_format };

    ghost fields = { join_group_response_fields };

    const KEY: i16 = 11;

    const DIR: Dir = Dir::Response;

    fn version(&self) -> i16 {
        self.version
    }

    fn read(alloc: Global, version: i16, cursor: &mut Cursor) -> Result<Self, NoMemory> {
        Ok(JoinGroupResponse {
            version,
            throttle_time_ms: cursor.int32_in(version, 2, 5)?,
            error_code: cursor.int16()?,
            generation_id: cursor.int32()?,
            protocol_name: cursor.text()?,
            leader: cursor.text()?,
            member_id: cursor.text()?,
            members: cursor.array(alloc, version)?,
        })
    }

    fn write(&self, writer: &mut Writer) -> Result<(), NoMemory> {
        writer.int32_in(0, &self.version, 2, 5, &self.throttle_time_ms)?;
        writer.int16(&self.error_code)?;
        writer.int32(&self.generation_id)?;
        writer.text(&self.protocol_name)?;
        writer.text(&self.leader)?;
        writer.text(&self.member_id)?;
        writer.array(&self.version, &self.members)?;
        Ok(())
    }
}

/// An entry of `members` in a [`JoinGroupResponse`].
#[derive(Debug, Drop)]
pub struct JoinGroupResponseMember {
    pub member_id: Option<Bytes>,
    /// Version 5.
    pub group_instance_id: Option<Option<Bytes>>,
    pub metadata: Option<Bytes>,
}

#[tactic(auto, unfolding(crate::specs::JoinGroup::join_group_response_member_format, crate::specs::JoinGroup::join_group_response_member_fields))]
impl Entry for JoinGroupResponseMember {
    ghost use Rattle.group_api.specs.JoinGroup.{join_group_response_member_fields, join_group_response_member_format};

    ghost format = { join_group_response_member_format };

    ghost fields = { join_group_response_member_fields };

    fn read(alloc: Global, version: i16, cursor: &mut Cursor) -> Result<Self, NoMemory> {
        let _ = alloc;
        Ok(JoinGroupResponseMember {
            member_id: cursor.text()?,
            group_instance_id: cursor.text_in(version, 5, 5)?,
            metadata: cursor.binary()?,
        })
    }

    fn write(&self, version: &i16, writer: &mut Writer) -> Result<(), NoMemory> {
        writer.text(&self.member_id)?;
        writer.text_in(8, version, 5, 5, &self.group_instance_id)?;
        writer.binary(&self.metadata)?;
        Ok(())
    }
}
