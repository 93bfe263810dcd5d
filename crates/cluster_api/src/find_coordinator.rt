//! FindCoordinator (key 10): "The Messages: FindCoordinator API" of the protocol guide.
use bytes::Bytes;
use kp_schema::Dir;
use std::alloc::Global;
use views::{Cursor, View, Writer};
use wire_types::NoMemory;

/// A FindCoordinator request (key 10, versions 0 to 2).
#[derive(Debug, Drop)]
pub struct FindCoordinatorRequest {
    pub version: i16,
    pub key: Option<Bytes>,
    /// Versions 1 to 2.
    pub key_type: Option<i8>,
}

impl View for FindCoordinatorRequest {
    ghost use Rattle.std.specs.Prelude.{pos};
    ghost use Rattle.kp_schema.specs.declared.dir.Dir.TheVariants.{Request};
    ghost use Rattle.cluster_api.specs.FindCoordinator.{find_coordinator_request_fields, find_coordinator_request_format};

    ghost KEY = { pos 10 };

    ghost DIR = { Request };

    ghost version_of = { λ view. view.version };

    ghost format = { find_coordinator_request_format };

    ghost fields = { find_coordinator_request_fields };

    const KEY: i16 = 10;

    const DIR: Dir = Dir::Request;

    fn version(&self) -> i16 {
        self.version
    }

    fn read(alloc: Global, version: i16, cursor: &mut Cursor) -> Result<Self, NoMemory> {
        let _ = alloc;
        Ok(FindCoordinatorRequest {
            version,
            key: cursor.text()?,
            key_type: cursor.int8_in(version, 1, 2)?,
        })
    }

    fn write(&self, writer: &mut Writer) -> Result<(), NoMemory> {
        writer.text(&self.key)?;
        writer.int8_in(1, &self.version, 1, 2, &self.key_type)?;
        Ok(())
    }
}

/// A FindCoordinator response (key 10, versions 0 to 2).
#[derive(Debug, Drop)]
pub struct FindCoordinatorResponse {
    pub version: i16,
    /// Versions 1 to 2.
    pub throttle_time_ms: Option<i32>,
    pub error_code: i16,
    /// Versions 1 to 2.
    pub error_message: Option<Option<Bytes>>,
    pub node_id: i32,
    pub host: Option<Bytes>,
    pub port: i32,
}

#[tactic(auto, unfolding(views::specs::Writing::put_item))]
impl View for FindCoordinatorResponse {
    ghost use Rattle.std.specs.Prelude.{pos};
    ghost use Rattle.kp_schema.specs.declared.dir.Dir.TheVariants.{Response};
    ghost use Rattle.cluster_api.specs.FindCoordinator.{find_coordinator_response_fields, find_coordinator_response_format};

    ghost KEY = { pos 10 };

    ghost DIR = { Response };

    ghost version_of = { λ view. view.version };

    ghost format = { find_coordinator_response_format };

    ghost fields = { find_coordinator_response_fields };

    const KEY: i16 = 10;

    const DIR: Dir = Dir::Response;

    fn version(&self) -> i16 {
        self.version
    }

    fn read(alloc: Global, version: i16, cursor: &mut Cursor) -> Result<Self, NoMemory> {
        let _ = alloc;
        Ok(FindCoordinatorResponse {
            version,
            throttle_time_ms: cursor.int32_in(version, 1, 2)?,
            error_code: cursor.int16()?,
            error_message: cursor.text_in(version, 1, 2)?,
            node_id: cursor.int32()?,
            host: cursor.text()?,
            port: cursor.int32()?,
        })
    }

    fn write(&self, writer: &mut Writer) -> Result<(), NoMemory> {
        writer.int32_in(0, &self.version, 1, 2, &self.throttle_time_ms)?;
        writer.int16(&self.error_code)?;
        writer.text_in(2, &self.version, 1, 2, &self.error_message)?;
        writer.int32(&self.node_id)?;
        writer.text(&self.host)?;
        writer.int32(&self.port)?;
        Ok(())
    }
}
