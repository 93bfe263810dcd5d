//! SyncGroup (key 14): "The Messages: SyncGroup API" of the protocol guide.
use bytes::Bytes;
use kp_schema::Dir;
use std::alloc::Global;
use views::{Cursor, Entries, Entry, View, Writer};
use wire_types::NoMemory;

/// A SyncGroup request (key 14, versions 0 to 3).
#[derive(Debug, Drop)]
pub struct SyncGroupRequest {
    pub version: i16,
    pub group_id: Option<Bytes>,
    pub generation_id: i32,
    pub member_id: Option<Bytes>,
    /// Version 3.
    pub group_instance_id: Option<Option<Bytes>>,
    pub assignments: Option<Entries<SyncGroupRequestAssignment>>,
}

impl View for SyncGroupRequest {
    ghost use Rattle.std.specs.Prelude.{pos};
    ghost use Rattle.kp_schema.specs.declared.dir.Dir.TheVariants.{Request};
    ghost use Rattle.group_api.specs.SyncGroup.{sync_group_request_fields, sync_group_request_format};

    ghost KEY = { pos 14 };

    ghost DIR = { Request };

    ghost version_of = { λ view. view.version };

    ghost format = { sync_group_request_format };

    ghost fields = { sync_group_request_fields };

    const KEY: i16 = 14;

    const DIR: Dir = Dir::Request;

    fn version(&self) -> i16 {
        self.version
    }

    fn read(alloc: Global, version: i16, cursor: &mut Cursor) -> Result<Self, NoMemory> {
        Ok(SyncGroupRequest {
            version,
            group_id: cursor.text()?,
            generation_id: cursor.int32()?,
            member_id: cursor.text()?,
            group_instance_id: cursor.text_in(version, 3, 3)?,
            assignments: cursor.array(alloc, version)?,
        })
    }

    fn write(&self, writer: &mut Writer) -> Result<(), NoMemory> {
        writer.text(&self.group_id)?;
        writer.int32(&self.generation_id)?;
        writer.text(&self.member_id)?;
        writer.text_in(3, &self.version, 3, 3, &self.group_instance_id)?;
        writer.array(&self.version, &self.assignments)?;
        Ok(())
    }
}

/// An entry of `assignments` in a [`SyncGroupRequest`].
#[derive(Debug, Drop)]
pub struct SyncGroupRequestAssignment {
    pub member_id: Option<Bytes>,
    pub assignment: Option<Bytes>,
}

#[tactic(auto, unfolding(crate::specs::SyncGroup::sync_group_request_assignment_format, crate::specs::SyncGroup::sync_group_request_assignment_fields))]
impl Entry for SyncGroupRequestAssignment {
    ghost use Rattle.group_api.specs.SyncGroup.{sync_group_request_assignment_fields, sync_group_request_assignment_format};

    ghost format = { sync_group_request_assignment_format };

    ghost fields = { sync_group_request_assignment_fields };

    fn read(alloc: Global, version: i16, cursor: &mut Cursor) -> Result<Self, NoMemory> {
        let _ = (alloc, version);
        Ok(SyncGroupRequestAssignment {
            member_id: cursor.text()?,
            assignment: cursor.binary()?,
        })
    }

    fn write(&self, version: &i16, writer: &mut Writer) -> Result<(), NoMemory> {
        let _ = version;
        writer.text(&self.member_id)?;
        writer.binary(&self.assignment)?;
        Ok(())
    }
}

/// A SyncGroup response (key 14, versions 0 to 3).
#[derive(Debug, Drop)]
pub struct SyncGroupResponse {
    pub version: i16,
    /// Versions 1 to 3.
    pub throttle_time_ms: Option<i32>,
    pub error_code: i16,
    pub assignment: Option<Bytes>,
}

impl View for SyncGroupResponse {
    ghost use Rattle.std.specs.Prelude.{pos};
    ghost use Rattle.kp_schema.specs.declared.dir.Dir.TheVariants.{Response};
    ghost use Rattle.group_api.specs.SyncGroup.{sync_group_response_fields, sync_group_response_format};

    ghost KEY = { pos 14 };

    ghost DIR = { Response };

    ghost version_of = { λ view. view.version };

    ghost format = { sync_group_response_format };

    ghost fields = { sync_group_response_fields };

    const KEY: i16 = 14;

    const DIR: Dir = Dir::Response;

    fn version(&self) -> i16 {
        self.version
    }

    fn read(alloc: Global, version: i16, cursor: &mut Cursor) -> Result<Self, NoMemory> {
        let _ = alloc;
        Ok(SyncGroupResponse {
            version,
            throttle_time_ms: cursor.int32_in(version, 1, 3)?,
            error_code: cursor.int16()?,
            assignment: cursor.binary()?,
        })
    }

    fn write(&self, writer: &mut Writer) -> Result<(), NoMemory> {
        writer.int32_in(0, &self.version, 1, 3, &self.throttle_time_ms)?;
        writer.int16(&self.error_code)?;
        writer.binary(&self.assignment)?;
        Ok(())
    }
}
