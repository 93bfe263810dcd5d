//! Fetch (key 1): "The Messages: Fetch API" of the protocol guide.
use bytes::Bytes;
use kp_schema::Dir;
use std::alloc::Global;
use views::{Cursor, Entries, Entry, Number, View, Writer};
use wire_types::NoMemory;

/// A Fetch request (key 1, versions 4 to 11).
#[derive(Debug, Drop)]
pub struct FetchRequest {
    pub version: i16,
    pub replica_id: i32,
    pub max_wait_ms: i32,
    pub min_bytes: i32,
    pub max_bytes: i32,
    pub isolation_level: i8,
    /// Versions 7 to 11.
    pub session_id: Option<i32>,
    /// Versions 7 to 11.
    pub session_epoch: Option<i32>,
    pub topics: Option<Entries<FetchRequestTopic>>,
    /// Versions 7 to 11.
    pub forgotten: Option<Option<Entries<FetchRequestForgottenTopic>>>,
    /// Version 11.
    pub rack_id: Option<Option<Bytes>>,
}

#[tactic(auto, unfolding(views::specs::Writing::put_item))]
impl View for FetchRequest {
    ghost use Rattle.std.specs.Prelude.{pos};
    ghost use Rattle.kp_schema.specs.declared.dir.Dir.TheVariants.{Request};
    ghost use Rattle.log_api.specs.Fetch.{fetch_request_fields, fetch_request_format};

    ghost KEY = { pos 1 };

    ghost DIR = { Request };

    ghost version_of = { λ view. view.version };

    ghost format = { fetch_request_format };

    ghost fields = { fetch_request_fields };

    const KEY: i16 = 1;

    const DIR: Dir = Dir::Request;

    fn version(&self) -> i16 {
        self.version
    }

    fn read(alloc: Global, version: i16, cursor: &mut Cursor) -> Result<Self, NoMemory> {
        Ok(FetchRequest {
            version,
            replica_id: cursor.int32()?,
            max_wait_ms: cursor.int32()?,
            min_bytes: cursor.int32()?,
            max_bytes: cursor.int32()?,
            isolation_level: cursor.int8()?,
            session_id: cursor.int32_in(version, 7, 11)?,
            session_epoch: cursor.int32_in(version, 7, 11)?,
            topics: cursor.array(alloc, version)?,
            forgotten: cursor.array_in(alloc, version, 7, 11)?,
            rack_id: cursor.text_in(version, 11, 11)?,
        })
    }

    fn write(&self, writer: &mut Writer) -> Result<(), NoMemory> {
        writer.int32(&self.replica_id)?;
        writer.int32(&self.max_wait_ms)?;
        writer.int32(&self.min_bytes)?;
        writer.int32(&self.max_bytes)?;
        writer.int8(&self.isolation_level)?;
        writer.int32_in(5, &self.version, 7, 11, &self.session_id)?;
        writer.int32_in(6, &self.version, 7, 11, &self.session_epoch)?;
        writer.array(&self.version, &self.topics)?;
        writer.array_in(15, &self.version, 7, 11, &self.forgotten)?;
        writer.text_in(19, &self.version, 11, 11, &self.rack_id)?;
        Ok(())
    }
}

/// An entry of `topics` in a [`FetchRequest`].
#[derive(Debug, Drop)]
pub struct FetchRequestTopic {
    pub name: Option<Bytes>,
    pub partitions: Option<Entries<FetchRequestPartition>>,
}

#[tactic(auto, unfolding(crate::specs::Fetch::fetch_request_topic_format, crate::specs::Fetch::fetch_request_topic_fields))]
impl Entry for FetchRequestTopic {
    ghost use Rattle.log_api.specs.Fetch.{fetch_request_topic_fields, fetch_request_topic_format};

    ghost format = { fetch_request_topic_format };

    ghost fields = { fetch_request_topic_fields };

    fn read(alloc: Global, version: i16, cursor: &mut Cursor) -> Result<Self, NoMemory> {
        Ok(FetchRequestTopic {
            name: cursor.text()?,
            partitions: cursor.array(alloc, version)?,
        })
    }

    fn write(&self, version: &i16, writer: &mut Writer) -> Result<(), NoMemory> {
        writer.text(&self.name)?;
        writer.array(version, &self.partitions)?;
        Ok(())
    }
}

/// An entry of `partitions` in a [`FetchRequest`].
#[derive(Debug, Drop)]
pub struct FetchRequestPartition {
    pub partition: i32,
    /// Versions 9 to 11.
    pub current_leader_epoch: Option<i32>,
    pub fetch_offset: i64,
    /// Versions 5 to 11.
    pub log_start_offset: Option<i64>,
    pub partition_max_bytes: i32,
}

#[tactic(auto, unfolding(crate::specs::Fetch::fetch_request_partition_format, crate::specs::Fetch::fetch_request_partition_fields))]
impl Entry for FetchRequestPartition {
    ghost use Rattle.log_api.specs.Fetch.{fetch_request_partition_fields, fetch_request_partition_format};

    ghost format = { fetch_request_partition_format };

    ghost fields = { fetch_request_partition_fields };

    fn read(alloc: Global, version: i16, cursor: &mut Cursor) -> Result<Self, NoMemory> {
        let _ = alloc;
        Ok(FetchRequestPartition {
            partition: cursor.int32()?,
            current_leader_epoch: cursor.int32_in(version, 9, 11)?,
            fetch_offset: cursor.int64()?,
            log_start_offset: cursor.int64_in(version, 5, 11)?,
            partition_max_bytes: cursor.int32()?,
        })
    }

    fn write(&self, version: &i16, writer: &mut Writer) -> Result<(), NoMemory> {
        writer.int32(&self.partition)?;
        writer.int32_in(11, version, 9, 11, &self.current_leader_epoch)?;
        writer.int64(&self.fetch_offset)?;
        writer.int64_in(13, version, 5, 11, &self.log_start_offset)?;
        writer.int32(&self.partition_max_bytes)?;
        Ok(())
    }
}

/// An entry of `forgotten` in a [`FetchRequest`].
#[derive(Debug, Drop)]
pub struct FetchRequestForgottenTopic {
    pub name: Option<Bytes>,
    pub partitions: Option<Entries<Number>>,
}

#[tactic(auto, unfolding(crate::specs::Fetch::fetch_request_forgotten_topic_format, crate::specs::Fetch::fetch_request_forgotten_topic_fields))]
impl Entry for FetchRequestForgottenTopic {
    ghost use Rattle.log_api.specs.Fetch.{fetch_request_forgotten_topic_fields, fetch_request_forgotten_topic_format};

    ghost format = { fetch_request_forgotten_topic_format };

    ghost fields = { fetch_request_forgotten_topic_fields };

    fn read(alloc: Global, version: i16, cursor: &mut Cursor) -> Result<Self, NoMemory> {
        Ok(FetchRequestForgottenTopic {
            name: cursor.text()?,
            partitions: cursor.array(alloc, version)?,
        })
    }

    fn write(&self, version: &i16, writer: &mut Writer) -> Result<(), NoMemory> {
        writer.text(&self.name)?;
        writer.array(version, &self.partitions)?;
        Ok(())
    }
}
