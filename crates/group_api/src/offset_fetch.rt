//! OffsetFetch (key 9): "The Messages: OffsetFetch API" of the protocol guide.
use bytes::Bytes;
use kp_schema::Dir;
use std::alloc::Global;
use views::{Cursor, Entries, Entry, Number, View, Writer};
use wire_types::NoMemory;

/// An OffsetFetch request (key 9, versions 1 to 5).
#[derive(Debug, Drop)]
pub struct OffsetFetchRequest {
    pub version: i16,
    pub group_id: Option<Bytes>,
    pub topics: Option<Entries<OffsetFetchRequestTopic>>,
}

impl View for OffsetFetchRequest {
    ghost use Rattle.std.specs.Prelude.{pos};
    ghost use Rattle.kp_schema.specs.declared.dir.Dir.TheVariants.{Request};
    ghost use Rattle.group_api.specs.OffsetFetch.{offset_fetch_request_fields, offset_fetch_request_format};

    ghost KEY = { pos 9 };

    ghost DIR = { Request };

    ghost version_of = { λ view. view.version };

    ghost format = { offset_fetch_request_format };

    ghost fields = { offset_fetch_request_fields };

    const KEY: i16 = 9;

    const DIR: Dir = Dir::Request;

    fn version(&self) -> i16 {
        self.version
    }

    fn read(alloc: Global, version: i16, cursor: &mut Cursor) -> Result<Self, NoMemory> {
        Ok(OffsetFetchRequest {
            version,
            group_id: cursor.text()?,
            topics: cursor.array(alloc, version)?,
        })
    }

    fn write(&self, writer: &mut Writer) -> Result<(), NoMemory> {
        writer.text(&self.group_id)?;
        writer.array(&self.version, &self.topics)?;
        Ok(())
    }
}

/// An entry of `topics` in a [`OffsetFetchRequest`].
#[derive(Debug, Drop)]
pub struct OffsetFetchRequestTopic {
    pub name: Option<Bytes>,
    pub partition_indexes: Option<Entries<Number>>,
}

#[tactic(auto, unfolding(crate::specs::OffsetFetch::offset_fetch_request_topic_format, crate::specs::OffsetFetch::offset_fetch_request_topic_fields))]
impl Entry for OffsetFetchRequestTopic {
    ghost use Rattle.group_api.specs.OffsetFetch.{offset_fetch_request_topic_fields, offset_fetch_request_topic_format};

    ghost format = { offset_fetch_request_topic_format };

    ghost fields = { offset_fetch_request_topic_fields };

    fn read(alloc: Global, version: i16, cursor: &mut Cursor) -> Result<Self, NoMemory> {
        Ok(OffsetFetchRequestTopic {
            name: cursor.text()?,
            partition_indexes: cursor.array(alloc, version)?,
        })
    }

    fn write(&self, version: &i16, writer: &mut Writer) -> Result<(), NoMemory> {
        writer.text(&self.name)?;
        writer.array(version, &self.partition_indexes)?;
        Ok(())
    }
}

/// An OffsetFetch response (key 9, versions 1 to 5).
#[derive(Debug, Drop)]
pub struct OffsetFetchResponse {
    pub version: i16,
    /// Versions 3 to 5.
    pub throttle_time_ms: Option<i32>,
    pub topics: Option<Entries<OffsetFetchResponseTopic>>,
    /// Versions 2 to 5.
    pub error_code: Option<i16>,
}

impl View for OffsetFetchResponse {
    ghost use Rattle.std.specs.Prelude.{pos};
    ghost use Rattle.kp_schema.specs.declared.dir.Dir.TheVariants.{Response};
    ghost use Rattle.group_api.specs.OffsetFetch.{offset_fetch_response_fields, offset_fetch_response_format};

    ghost KEY = { pos 9 };

    ghost DIR = { Response };

    ghost version_of = { λ view. view.version };

    ghost format = { offset_fetch_response_format };

    ghost fields = { offset_fetch_response_fields };

    const KEY: i16 = 9;

    const DIR: Dir = Dir::Response;

    fn version(&self) -> i16 {
        self.version
    }

    fn read(alloc: Global, version: i16, cursor: &mut Cursor) -> Result<Self, NoMemory> {
        Ok(OffsetFetchResponse {
            version,
            throttle_time_ms: cursor.int32_in(version, 3, 5)?,
            topics: cursor.array(alloc, version)?,
            error_code: cursor.int16_in(version, 2, 5)?,
        })
    }

    fn write(&self, writer: &mut Writer) -> Result<(), NoMemory> {
        writer.int32_in(0, &self.version, 3, 5, &self.throttle_time_ms)?;
        writer.array(&self.version, &self.topics)?;
        writer.int16_in(9, &self.version, 2, 5, &self.error_code)?;
        Ok(())
    }
}

/// An entry of `topics` in a [`OffsetFetchResponse`].
#[derive(Debug, Drop)]
pub struct OffsetFetchResponseTopic {
    pub name: Option<Bytes>,
    pub partitions: Option<Entries<OffsetFetchResponsePartition>>,
}

#[tactic(auto, unfolding(crate::specs::OffsetFetch::offset_fetch_response_topic_format, crate::specs::OffsetFetch::offset_fetch_response_topic_fields))]
impl Entry for OffsetFetchResponseTopic {
    ghost use Rattle.group_api.specs.OffsetFetch.{offset_fetch_response_topic_fields, offset_fetch_response_topic_format};

    ghost format = { offset_fetch_response_topic_format };

    ghost fields = { offset_fetch_response_topic_fields };

    fn read(alloc: Global, version: i16, cursor: &mut Cursor) -> Result<Self, NoMemory> {
        Ok(OffsetFetchResponseTopic {
            name: cursor.text()?,
            partitions: cursor.array(alloc, version)?,
        })
    }

    fn write(&self, version: &i16, writer: &mut Writer) -> Result<(), NoMemory> {
        writer.text(&self.name)?;
        writer.array(version, &self.partitions)?;
        Ok(())
    }
}

/// An entry of `partitions` in a [`OffsetFetchResponse`].
#[derive(Debug, Drop)]
pub struct OffsetFetchResponsePartition {
    pub index: i32,
    pub committed_offset: i64,
    /// Version 5.
    pub committed_leader_epoch: Option<i32>,
    pub metadata: Option<Bytes>,
    pub error_code: i16,
}

#[tactic(auto, unfolding(crate::specs::OffsetFetch::offset_fetch_response_partition_format, crate::specs::OffsetFetch::offset_fetch_response_partition_fields))]
impl Entry for OffsetFetchResponsePartition {
    ghost use Rattle.group_api.specs.OffsetFetch.{offset_fetch_response_partition_fields, offset_fetch_response_partition_format};

    ghost format = { offset_fetch_response_partition_format };

    ghost fields = { offset_fetch_response_partition_fields };

    fn read(alloc: Global, version: i16, cursor: &mut Cursor) -> Result<Self, NoMemory> {
        let _ = alloc;
        Ok(OffsetFetchResponsePartition {
            index: cursor.int32()?,
            committed_offset: cursor.int64()?,
            committed_leader_epoch: cursor.int32_in(version, 5, 5)?,
            metadata: cursor.text()?,
            error_code: cursor.int16()?,
        })
    }

    fn write(&self, version: &i16, writer: &mut Writer) -> Result<(), NoMemory> {
        writer.int32(&self.index)?;
        writer.int64(&self.committed_offset)?;
        writer.int32_in(6, version, 5, 5, &self.committed_leader_epoch)?;
        writer.text(&self.metadata)?;
        writer.int16(&self.error_code)?;
        Ok(())
    }
}
