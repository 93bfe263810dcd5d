//! ListOffsets (key 2): "The Messages: ListOffsets API" of the protocol guide.
use bytes::Bytes;
use kp_schema::Dir;
use std::alloc::Global;
use views::{Cursor, Entries, Entry, View, Writer};
use wire_types::NoMemory;

/// A ListOffsets request (key 2, versions 1 to 5).
#[derive(Debug, Drop)]
pub struct ListOffsetsRequest {
    pub version: i16,
    pub replica_id: i32,
    /// Versions 2 to 5.
    pub isolation_level: Option<i8>,
    pub topics: Option<Entries<ListOffsetsRequestTopic>>,
}

impl View for ListOffsetsRequest {
    ghost use Rattle.std.specs.Prelude.{pos};
    ghost use Rattle.kp_schema.specs.declared.dir.Dir.TheVariants.{Request};
    ghost use Rattle.log_api.specs.ListOffsets.{list_offsets_request_fields, list_offsets_request_format};

    ghost KEY = { pos 2 };

    ghost DIR = { Request };

    ghost version_of = { λ view. view.version };

    ghost format = { list_offsets_request_format };

    ghost fields = { list_offsets_request_fields };

    const KEY: i16 = 2;

    const DIR: Dir = Dir::Request;

    fn version(&self) -> i16 {
        self.version
    }

    fn read(alloc: Global, version: i16, cursor: &mut Cursor) -> Result<Self, NoMemory> {
        Ok(ListOffsetsRequest {
            version,
            replica_id: cursor.int32()?,
            isolation_level: cursor.int8_in(version, 2, 5)?,
            topics: cursor.array(alloc, version)?,
        })
    }

    fn write(&self, writer: &mut Writer) -> Result<(), NoMemory> {
        writer.int32(&self.replica_id)?;
        writer.int8_in(1, &self.version, 2, 5, &self.isolation_level)?;
        writer.array(&self.version, &self.topics)?;
        Ok(())
    }
}

/// An entry of `topics` in a [`ListOffsetsRequest`].
#[derive(Debug, Drop)]
pub struct ListOffsetsRequestTopic {
    pub name: Option<Bytes>,
    pub partitions: Option<Entries<ListOffsetsRequestPartition>>,
}

#[tactic(auto, unfolding(crate::specs::ListOffsets::list_offsets_request_topic_format, crate::specs::ListOffsets::list_offsets_request_topic_fields))]
impl Entry for ListOffsetsRequestTopic {
    ghost use Rattle.log_api.specs.ListOffsets.{list_offsets_request_topic_fields, list_offsets_request_topic_format};

    ghost format = { list_offsets_request_topic_format };

    ghost fields = { list_offsets_request_topic_fields };

    fn read(alloc: Global, version: i16, cursor: &mut Cursor) -> Result<Self, NoMemory> {
        Ok(ListOffsetsRequestTopic {
            name: cursor.text()?,
            partitions: cursor.array(alloc, version)?,
        })
    }

    fn write(&self, version: &i16, writer: &mut Writer) -> Result<(), NoMemory> {
        writer.text(&self.name)?;
        writer.array(version, &self.partitions)?;
        Ok(())
    }
}

/// An entry of `partitions` in a [`ListOffsetsRequest`].
#[derive(Debug, Drop)]
pub struct ListOffsetsRequestPartition {
    pub index: i32,
    /// Versions 4 to 5.
    pub current_leader_epoch: Option<i32>,
    pub timestamp: i64,
}

#[tactic(auto, unfolding(crate::specs::ListOffsets::list_offsets_request_partition_format, crate::specs::ListOffsets::list_offsets_request_partition_fields))]
impl Entry for ListOffsetsRequestPartition {
    ghost use Rattle.log_api.specs.ListOffsets.{list_offsets_request_partition_fields, list_offsets_request_partition_format};

    ghost format = { list_offsets_request_partition_format };

    ghost fields = { list_offsets_request_partition_fields };

    fn read(alloc: Global, version: i16, cursor: &mut Cursor) -> Result<Self, NoMemory> {
        let _ = alloc;
        Ok(ListOffsetsRequestPartition {
            index: cursor.int32()?,
            current_leader_epoch: cursor.int32_in(version, 4, 5)?,
            timestamp: cursor.int64()?,
        })
    }

    fn write(&self, version: &i16, writer: &mut Writer) -> Result<(), NoMemory> {
        writer.int32(&self.index)?;
        writer.int32_in(6, version, 4, 5, &self.current_leader_epoch)?;
        writer.int64(&self.timestamp)?;
        Ok(())
    }
}

/// A ListOffsets response (key 2, versions 1 to 5).
#[derive(Debug, Drop)]
pub struct ListOffsetsResponse {
    pub version: i16,
    /// Versions 2 to 5.
    pub throttle_time_ms: Option<i32>,
    pub topics: Option<Entries<ListOffsetsResponseTopic>>,
}

impl View for ListOffsetsResponse {
    ghost use Rattle.std.specs.Prelude.{pos};
    ghost use Rattle.kp_schema.specs.declared.dir.Dir.TheVariants.{Response};
    ghost use Rattle.log_api.specs.ListOffsets.{list_offsets_response_fields, list_offsets_response_format};

    ghost KEY = { pos 2 };

    ghost DIR = { Response };

    ghost version_of = { λ view. view.version };

    ghost format = { list_offsets_response_format };

    ghost fields = { list_offsets_response_fields };

    const KEY: i16 = 2;

    const DIR: Dir = Dir::Response;

    fn version(&self) -> i16 {
        self.version
    }

    fn read(alloc: Global, version: i16, cursor: &mut Cursor) -> Result<Self, NoMemory> {
        Ok(ListOffsetsResponse {
            version,
            throttle_time_ms: cursor.int32_in(version, 2, 5)?,
            topics: cursor.array(alloc, version)?,
        })
    }

    fn write(&self, writer: &mut Writer) -> Result<(), NoMemory> {
        writer.int32_in(0, &self.version, 2, 5, &self.throttle_time_ms)?;
        writer.array(&self.version, &self.topics)?;
        Ok(())
    }
}

/// An entry of `topics` in a [`ListOffsetsResponse`].
#[derive(Debug, Drop)]
pub struct ListOffsetsResponseTopic {
    pub name: Option<Bytes>,
    pub partitions: Option<Entries<ListOffsetsResponsePartition>>,
}

#[tactic(auto, unfolding(crate::specs::ListOffsets::list_offsets_response_topic_format, crate::specs::ListOffsets::list_offsets_response_topic_fields))]
impl Entry for ListOffsetsResponseTopic {
    ghost use Rattle.log_api.specs.ListOffsets.{list_offsets_response_topic_fields, list_offsets_response_topic_format};

    ghost format = { list_offsets_response_topic_format };

    ghost fields = { list_offsets_response_topic_fields };

    fn read(alloc: Global, version: i16, cursor: &mut Cursor) -> Result<Self, NoMemory> {
        Ok(ListOffsetsResponseTopic {
            name: cursor.text()?,
            partitions: cursor.array(alloc, version)?,
        })
    }

    fn write(&self, version: &i16, writer: &mut Writer) -> Result<(), NoMemory> {
        writer.text(&self.name)?;
        writer.array(version, &self.partitions)?;
        Ok(())
    }
}

/// An entry of `partitions` in a [`ListOffsetsResponse`].
#[derive(Debug, Drop)]
pub struct ListOffsetsResponsePartition {
    pub index: i32,
    pub error_code: i16,
    pub timestamp: i64,
    pub offset: i64,
    /// Versions 4 to 5.
    pub leader_epoch: Option<i32>,
}

#[tactic(auto, unfolding(crate::specs::ListOffsets::list_offsets_response_partition_format, crate::specs::ListOffsets::list_offsets_response_partition_fields))]
impl Entry for ListOffsetsResponsePartition {
    ghost use Rattle.log_api.specs.ListOffsets.{list_offsets_response_partition_fields, list_offsets_response_partition_format};

    ghost format = { list_offsets_response_partition_format };

    ghost fields = { list_offsets_response_partition_fields };

    fn read(alloc: Global, version: i16, cursor: &mut Cursor) -> Result<Self, NoMemory> {
        let _ = alloc;
        Ok(ListOffsetsResponsePartition {
            index: cursor.int32()?,
            error_code: cursor.int16()?,
            timestamp: cursor.int64()?,
            offset: cursor.int64()?,
            leader_epoch: cursor.int32_in(version, 4, 5)?,
        })
    }

    fn write(&self, version: &i16, writer: &mut Writer) -> Result<(), NoMemory> {
        writer.int32(&self.index)?;
        writer.int16(&self.error_code)?;
        writer.int64(&self.timestamp)?;
        writer.int64(&self.offset)?;
        writer.int32_in(8, version, 4, 5, &self.leader_epoch)?;
        Ok(())
    }
}
