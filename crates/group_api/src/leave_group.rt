//! LeaveGroup (key 13): "The Messages: LeaveGroup API" of the protocol guide.
use bytes::Bytes;
use kp_schema::Dir;
use std::alloc::Global;
use views::{Cursor, Entries, Entry, View, Writer};
use wire_types::NoMemory;

/// A LeaveGroup request (key 13, versions 0 to 3).
#[derive(Debug, Drop)]
pub struct LeaveGroupRequest {
    pub version: i16,
    pub group_id: Option<Bytes>,
    /// Versions 0 to 2.
    pub member_id: Option<Option<Bytes>>,
    /// Version 3.
    pub members: Option<Option<Entries<LeaveGroupRequestMember>>>,
}

impl View for LeaveGroupRequest {
    ghost use Rattle.std.specs.Prelude.{pos};
    ghost use Rattle.kp_schema.specs.declared.dir.Dir.TheVariants.{Request};
    ghost use Rattle.group_api.specs.LeaveGroup.{leave_group_request_fields, leave_group_request_format};

    ghost KEY = { pos 13 };

    ghost DIR = { Request };

    ghost version_of = { λ view. view.version };

    ghost format = { leave_group_request_format };

    ghost fields = { leave_group_request_fields };

    const KEY: i16 = 13;

    const DIR: Dir = Dir::Request;

    fn version(&self) -> i16 {
        self.version
    }

    fn read(alloc: Global, version: i16, cursor: &mut Cursor) -> Result<Self, NoMemory> {
        Ok(LeaveGroupRequest {
            version,
            group_id: cursor.text()?,
            member_id: cursor.text_in(version, 0, 2)?,
            members: cursor.array_in(alloc, version, 3, 3)?,
        })
    }

    fn write(&self, writer: &mut Writer) -> Result<(), NoMemory> {
        writer.text(&self.group_id)?;
        writer.text_in(1, &self.version, 0, 2, &self.member_id)?;
        writer.array_in(2, &self.version, 3, 3, &self.members)?;
        Ok(())
    }
}

/// An entry of `members` in a [`LeaveGroupRequest`].
#[derive(Debug, Drop)]
pub struct LeaveGroupRequestMember {
    pub member_id: Option<Bytes>,
    pub group_instance_id: Option<Bytes>,
}

#[tactic(auto, unfolding(crate::specs::LeaveGroup::leave_group_request_member_format, crate::specs::LeaveGroup::leave_group_request_member_fields))]
impl Entry for LeaveGroupRequestMember {
    ghost use Rattle.group_api.specs.LeaveGroup.{leave_group_request_member_fields, leave_group_request_member_format};

    ghost format = { leave_group_request_member_format };

    ghost fields = { leave_group_request_member_fields };

    fn read(alloc: Global, version: i16, cursor: &mut Cursor) -> Result<Self, NoMemory> {
        let _ = (alloc, version);
        Ok(LeaveGroupRequestMember {
            member_id: cursor.text()?,
            group_instance_id: cursor.text()?,
        })
    }

    fn write(&self, version: &i16, writer: &mut Writer) -> Result<(), NoMemory> {
        let _ = version;
        writer.text(&self.member_id)?;
        writer.text(&self.group_instance_id)?;
        Ok(())
    }
}

/// A LeaveGroup response (key 13, versions 0 to 3).
#[derive(Debug, Drop)]
pub struct LeaveGroupResponse {
    pub version: i16,
    /// Versions 1 to 3.
    pub throttle_time_ms: Option<i32>,
    pub error_code: i16,
    /// Version 3.
    pub members: Option<Option<Entries<LeaveGroupResponseMember>>>,
}

impl View for LeaveGroupResponse {
    ghost use Rattle.std.specs.Prelude.{pos};
    ghost use Rattle.kp_schema.specs.declared.dir.Dir.TheVariants.{Response};
    ghost use Rattle.group_api.specs.LeaveGroup.{leave_group_response_fields, leave_group_response_format};

    ghost KEY = { pos 13 };

    ghost DIR = { Response };

    ghost version_of = { λ view. view.version };

    ghost format = { leave_group_response_format };

    ghost fields = { leave_group_response_fields };

    const KEY: i16 = 13;

    const DIR: Dir = Dir::Response;

    fn version(&self) -> i16 {
        self.version
    }

    fn read(alloc: Global, version: i16, cursor: &mut Cursor) -> Result<Self, NoMemory> {
        Ok(LeaveGroupResponse {
            version,
            throttle_time_ms: cursor.int32_in(version, 1, 3)?,
            error_code: cursor.int16()?,
            members: cursor.array_in(alloc, version, 3, 3)?,
        })
    }

    fn write(&self, writer: &mut Writer) -> Result<(), NoMemory> {
        writer.int32_in(0, &self.version, 1, 3, &self.throttle_time_ms)?;
        writer.int16(&self.error_code)?;
        writer.array_in(2, &self.version, 3, 3, &self.members)?;
        Ok(())
    }
}

/// An entry of `members` in a [`LeaveGroupResponse`].
#[derive(Debug, Drop)]
pub struct LeaveGroupResponseMember {
    pub member_id: Option<Bytes>,
    pub group_instance_id: Option<Bytes>,
    pub error_code: i16,
}

#[tactic(auto, unfolding(crate::specs::LeaveGroup::leave_group_response_member_format, crate::specs::LeaveGroup::leave_group_response_member_fields))]
impl Entry for LeaveGroupResponseMember {
    ghost use Rattle.group_api.specs.LeaveGroup.{leave_group_response_member_fields, leave_group_response_member_format};

    ghost format = { leave_group_response_member_format };

    ghost fields = { leave_group_response_member_fields };

    fn read(alloc: Global, version: i16, cursor: &mut Cursor) -> Result<Self, NoMemory> {
        let _ = (alloc, version);
        Ok(LeaveGroupResponseMember {
            member_id: cursor.text()?,
            group_instance_id: cursor.text()?,
            error_code: cursor.int16()?,
        })
    }

    fn write(&self, version: &i16, writer: &mut Writer) -> Result<(), NoMemory> {
        let _ = version;
        writer.text(&self.member_id)?;
        writer.text(&self.group_instance_id)?;
        writer.int16(&self.error_code)?;
        Ok(())
    }
}
