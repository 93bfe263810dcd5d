//! Heartbeat (key 12): "The Messages: Heartbeat API" of the protocol guide.
use bytes::Bytes;
use kp_schema::Dir;
use std::alloc::Global;
use views::{Cursor, View, Writer};
use wire_types::NoMemory;

/// A Heartbeat request (key 12, versions 0 to 3).
#[derive(Debug, Drop)]
pub struct HeartbeatRequest {
    pub version: i16,
    pub group_id: Option<Bytes>,
    pub generation_id: i32,
    pub member_id: Option<Bytes>,
    /// Version 3.
    pub group_instance_id: Option<Option<Bytes>>,
}

impl View for HeartbeatRequest {
    ghost use Rattle.std.specs.Prelude.{pos};
    ghost use Rattle.kp_schema.specs.declared.dir.Dir.TheVariants.{Request};
    ghost use Rattle.group_api.specs.Heartbeat.{heartbeat_request_fields, heartbeat_request_format};

    ghost KEY = { pos 12 };

    ghost DIR = { Request };

    ghost version_of = { λ view. view.version };

    ghost format = { heartbeat_request_format };

    ghost fields = { heartbeat_request_fields };

    const KEY: i16 = 12;

    const DIR: Dir = Dir::Request;

    fn version(&self) -> i16 {
        self.version
    }

    fn read(alloc: Global, version: i16, cursor: &mut Cursor) -> Result<Self, NoMemory> {
        let _ = alloc;
        Ok(HeartbeatRequest {
            version,
            group_id: cursor.text()?,
            generation_id: cursor.int32()?,
            member_id: cursor.text()?,
            group_instance_id: cursor.text_in(version, 3, 3)?,
        })
    }

    fn write(&self, writer: &mut Writer) -> Result<(), NoMemory> {
        writer.text(&self.group_id)?;
        writer.int32(&self.generation_id)?;
        writer.text(&self.member_id)?;
        writer.text_in(3, &self.version, 3, 3, &self.group_instance_id)?;
        Ok(())
    }
}

/// A Heartbeat response (key 12, versions 0 to 3).
#[derive(Debug, Drop)]
pub struct HeartbeatResponse {
    pub version: i16,
    /// Versions 1 to 3.
    pub throttle_time_ms: Option<i32>,
    pub error_code: i16,
}

impl View for HeartbeatResponse {
    ghost use Rattle.std.specs.Prelude.{pos};
    ghost use Rattle.kp_schema.specs.declared.dir.Dir.TheVariants.{Response};
    ghost use Rattle.group_api.specs.Heartbeat.{heartbeat_response_fields, heartbeat_response_format};

    ghost KEY = { pos 12 };

    ghost DIR = { Response };

    ghost version_of = { λ view. view.version };

    ghost format = { heartbeat_response_format };

    ghost fields = { heartbeat_response_fields };

    const KEY: i16 = 12;

    const DIR: Dir = Dir::Response;

    fn version(&self) -> i16 {
        self.version
    }

    fn read(alloc: Global, version: i16, cursor: &mut Cursor) -> Result<Self, NoMemory> {
        let _ = alloc;
        Ok(HeartbeatResponse {
            version,
            throttle_time_ms: cursor.int32_in(version, 1, 3)?,
            error_code: cursor.int16()?,
        })
    }

    fn write(&self, writer: &mut Writer) -> Result<(), NoMemory> {
        writer.int32_in(0, &self.version, 1, 3, &self.throttle_time_ms)?;
        writer.int16(&self.error_code)?;
        Ok(())
    }
}
