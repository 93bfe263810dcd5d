//! OffsetCommit (key 8): "The Messages: OffsetCommit API" of the protocol guide.
use bytes::Bytes;
use kp_schema::Dir;
use std::alloc::Global;
use views::{Cursor, Entries, Entry, View, Writer};
use wire_types::NoMemory;

/// An OffsetCommit request (key 8, versions 2 to 7).
#[derive(Debug, Drop)]
pub struct OffsetCommitRequest {
    pub version: i16,
    pub group_id: Option<Bytes>,
    pub generation_id: i32,
    pub member_id: Option<Bytes>,
    /// Version 7.
    pub group_instance_id: Option<Option<Bytes>>,
    /// Versions 2 to 4.
    pub retention_time_ms: Option<i64>,
    pub topics: Option<Entries<OffsetCommitRequestTopic>>,
}

#[tactic(auto, unfolding(views::specs::Writing::put_item))]
impl View for OffsetCommitRequest {
    ghost use Rattle.std.specs.Prelude.{pos};
    ghost use Rattle.kp_schema.specs.declared.dir.Dir.TheVariants.{Request};
    ghost use Rattle.group_api.specs.OffsetCommit.{offset_commit_request_fields, offset_commit_request_format};

    ghost KEY = { pos 8 };

    ghost DIR = { Request };

    ghost version_of = { λ view. view.version };

    ghost format = { offset_commit_request_format };

    ghost fields = { offset_commit_request_fields };

    const KEY: i16 = 8;

    const DIR: Dir = Dir::Request;

    fn version(&self) -> i16 {
        self.version
    }

    fn read(alloc: Global, version: i16, cursor: &mut Cursor) -> Result<Self, NoMemory> {
        Ok(OffsetCommitRequest {
            version,
            group_id: cursor.text()?,
            generation_id: cursor.int32()?,
            member_id: cursor.text()?,
            group_instance_id: cursor.text_in(version, 7, 7)?,
            retention_time_ms: cursor.int64_in(version, 2, 4)?,
            topics: cursor.array(alloc, version)?,
        })
    }

    fn write(&self, writer: &mut Writer) -> Result<(), NoMemory> {
        writer.text(&self.group_id)?;
        writer.int32(&self.generation_id)?;
        writer.text(&self.member_id)?;
        writer.text_in(3, &self.version, 7, 7, &self.group_instance_id)?;
        writer.int64_in(4, &self.version, 2, 4, &self.retention_time_ms)?;
        writer.array(&self.version, &self.topics)?;
        Ok(())
    }
}

/// An entry of `topics` in a [`OffsetCommitRequest`].
#[derive(Debug, Drop)]
pub struct OffsetCommitRequestTopic {
    pub name: Option<Bytes>,
    pub partitions: Option<Entries<OffsetCommitRequestPartition>>,
}

#[tactic(auto, unfolding(crate::specs::OffsetCommit::offset_commit_request_topic_format, crate::specs::OffsetCommit::offset_commit_request_topic_fields))]
impl Entry for OffsetCommitRequestTopic {
    ghost use Rattle.group_api.specs.OffsetCommit.{offset_commit_request_topic_fields, offset_commit_request_topic_format};

    ghost format = { offset_commit_request_topic_format };

    ghost fields = { offset_commit_request_topic_fields };

    fn read(alloc: Global, version: i16, cursor: &mut Cursor) -> Result<Self, NoMemory> {
        Ok(OffsetCommitRequestTopic {
            name: cursor.text()?,
            partitions: cursor.array(alloc, version)?,
        })
    }

    fn write(&self, version: &i16, writer: &mut Writer) -> Result<(), NoMemory> {
        writer.text(&self.name)?;
        writer.array(version, &self.partitions)?;
        Ok(())
    }
}

/// An entry of `partitions` in a [`OffsetCommitRequest`].
#[derive(Debug, Drop)]
pub struct OffsetCommitRequestPartition {
    pub index: i32,
    pub committed_offset: i64,
    /// Versions 6 to 7.
    pub committed_leader_epoch: Option<i32>,
    pub committed_metadata: Option<Bytes>,
}

#[tactic(auto, unfolding(crate::specs::OffsetCommit::offset_commit_request_partition_format, crate::specs::OffsetCommit::offset_commit_request_partition_fields))]
impl Entry for OffsetCommitRequestPartition {
    ghost use Rattle.group_api.specs.OffsetCommit.{offset_commit_request_partition_fields, offset_commit_request_partition_format};

    ghost format = { offset_commit_request_partition_format };

    ghost fields = { offset_commit_request_partition_fields };

    fn read(alloc: Global, version: i16, cursor: &mut Cursor) -> Result<Self, NoMemory> {
        let _ = alloc;
        Ok(OffsetCommitRequestPartition {
            index: cursor.int32()?,
            committed_offset: cursor.int64()?,
            committed_leader_epoch: cursor.int32_in(version, 6, 7)?,
            committed_metadata: cursor.text()?,
        })
    }

    fn write(&self, version: &i16, writer: &mut Writer) -> Result<(), NoMemory> {
        writer.int32(&self.index)?;
        writer.int64(&self.committed_offset)?;
        writer.int32_in(10, version, 6, 7, &self.committed_leader_epoch)?;
        writer.text(&self.committed_metadata)?;
        Ok(())
    }
}

/// An OffsetCommit response (key 8, versions 2 to 7).
#[derive(Debug, Drop)]
pub struct OffsetCommitResponse {
    pub version: i16,
    /// Versions 3 to 7.
    pub throttle_time_ms: Option<i32>,
    pub topics: Option<Entries<OffsetCommitResponseTopic>>,
}

impl View for OffsetCommitResponse {
    ghost use Rattle.std.specs.Prelude.{pos};
    ghost use Rattle.kp_schema.specs.declared.dir.Dir.TheVariants.{Response};
    ghost use Rattle.group_api.specs.OffsetCommit.{offset_commit_response_fields, offset_commit_response_format};

    ghost KEY = { pos 8 };

    ghost DIR = { Response };

    ghost version_of = { λ view. view.version };

    ghost format = { offset_commit_response_format };

    ghost fields = { offset_commit_response_fields };

    const KEY: i16 = 8;

    const DIR: Dir = Dir::Response;

    fn version(&self) -> i16 {
        self.version
    }

    fn read(alloc: Global, version: i16, cursor: &mut Cursor) -> Result<Self, NoMemory> {
        Ok(OffsetCommitResponse {
            version,
            throttle_time_ms: cursor.int32_in(version, 3, 7)?,
            topics: cursor.array(alloc, version)?,
        })
    }

    fn write(&self, writer: &mut Writer) -> Result<(), NoMemory> {
        writer.int32_in(0, &self.version, 3, 7, &self.throttle_time_ms)?;
        writer.array(&self.version, &self.topics)?;
        Ok(())
    }
}

/// An entry of `topics` in a [`OffsetCommitResponse`].
#[derive(Debug, Drop)]
pub struct OffsetCommitResponseTopic {
    pub name: Option<Bytes>,
    pub partitions: Option<Entries<OffsetCommitResponsePartition>>,
}

#[tactic(auto, unfolding(crate::specs::OffsetCommit::offset_commit_response_topic_format, crate::specs::OffsetCommit::offset_commit_response_topic_fields))]
impl Entry for OffsetCommitResponseTopic {
    ghost use Rattle.group_api.specs.OffsetCommit.{offset_commit_response_topic_fields, offset_commit_response_topic_format};

    ghost format = { offset_commit_response_topic_format };

    ghost fields = { offset_commit_response_topic_fields };

    fn read(alloc: Global, version: i16, cursor: &mut Cursor) -> Result<Self, NoMemory> {
        Ok(OffsetCommitResponseTopic {
            name: cursor.text()?,
            partitions: cursor.array(alloc, version)?,
        })
    }

    fn write(&self, version: &i16, writer: &mut Writer) -> Result<(), NoMemory> {
        writer.text(&self.name)?;
        writer.array(version, &self.partitions)?;
        Ok(())
    }
}

/// An entry of `partitions` in a [`OffsetCommitResponse`].
#[derive(Debug, Drop)]
pub struct OffsetCommitResponsePartition {
    pub index: i32,
    pub error_code: i16,
}

#[tactic(auto, unfolding(crate::specs::OffsetCommit::offset_commit_response_partition_format, crate::specs::OffsetCommit::offset_commit_response_partition_fields))]
impl Entry for OffsetCommitResponsePartition {
    ghost use Rattle.group_api.specs.OffsetCommit.{offset_commit_response_partition_fields, offset_commit_response_partition_format};

    ghost format = { offset_commit_response_partition_format };

    ghost fields = { offset_commit_response_partition_fields };

    fn read(alloc: Global, version: i16, cursor: &mut Cursor) -> Result<Self, NoMemory> {
        let _ = (alloc, version);
        Ok(OffsetCommitResponsePartition {
            index: cursor.int32()?,
            error_code: cursor.int16()?,
        })
    }

    fn write(&self, version: &i16, writer: &mut Writer) -> Result<(), NoMemory> {
        let _ = version;
        writer.int32(&self.index)?;
        writer.int16(&self.error_code)?;
        Ok(())
    }
}
