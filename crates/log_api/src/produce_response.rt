//! Produce (key 0): "The Messages: Produce API" of the protocol guide.
use bytes::Bytes;
use kp_schema::Dir;
use std::alloc::Global;
use views::{Cursor, Entries, Entry, View, Writer};
use wire_types::NoMemory;

/// A Produce response (key 0, versions 3 to 8).
#[derive(Debug, Drop)]
pub struct ProduceResponse {
    pub version: i16,
    pub topics: Option<Entries<ProduceResponseTopic>>,
    pub throttle_time_ms: i32,
}

impl View for ProduceResponse {
    ghost use Rattle.std.specs.Prelude.{pos};
    ghost use Rattle.kp_schema.specs.declared.dir.Dir.TheVariants.{Response};
    ghost use Rattle.log_api.specs.Produce.{produce_response_fields, produce_response_format};

    ghost KEY = { pos 0 };

    ghost DIR = { Response };

    ghost version_of = { λ view. view.version };

    ghost format = { produce_response_format };

    ghost fields = { produce_response_fields };

    const KEY: i16 = 0;

    const DIR: Dir = Dir::Response;

    fn version(&self) -> i16 {
        self.version
    }

    fn read(alloc: Global, version: i16, cursor: &mut Cursor) -> Result<Self, NoMemory> {
        Ok(ProduceResponse {
            version,
            topics: cursor.array(alloc, version)?,
            throttle_time_ms: cursor.int32()?,
        })
    }

    fn write(&self, writer: &mut Writer) -> Result<(), NoMemory> {
        writer.array(&self.version, &self.topics)?;
        writer.int32(&self.throttle_time_ms)?;
        Ok(())
    }
}

/// An entry of `topics` in a [`ProduceResponse`].
#[derive(Debug, Drop)]
pub struct ProduceResponseTopic {
    pub name: Option<Bytes>,
    pub partitions: Option<Entries<ProduceResponsePartition>>,
}

#[tactic(auto, unfolding(crate::specs::Produce::produce_response_topic_format, crate::specs::Produce::produce_response_topic_fields))]
impl Entry for ProduceResponseTopic {
    ghost use Rattle.log_api.specs.Produce.{produce_response_topic_fields, produce_response_topic_format};

    ghost format = { produce_response_topic_format };

    ghost fields = { produce_response_topic_fields };

    fn read(alloc: Global, version: i16, cursor: &mut Cursor) -> Result<Self, NoMemory> {
        Ok(ProduceResponseTopic {
            name: cursor.text()?,
            partitions: cursor.array(alloc, version)?,
        })
    }

    fn write(&self, version: &i16, writer: &mut Writer) -> Result<(), NoMemory> {
        writer.text(&self.name)?;
        writer.array(version, &self.partitions)?;
        Ok(())
    }
}

/// An entry of `partitions` in a [`ProduceResponse`].
#[derive(Debug, Drop)]
pub struct ProduceResponsePartition {
    pub index: i32,
    pub error_code: i16,
    pub base_offset: i64,
    pub log_append_time_ms: i64,
    /// Versions 5 to 8.
    pub log_start_offset: Option<i64>,
    /// Version 8.
    pub record_errors: Option<Option<Entries<ProduceResponseRecordError>>>,
    /// Version 8.
    pub error_message: Option<Option<Bytes>>,
}

#[tactic(auto, unfolding(crate::specs::Produce::produce_response_partition_format, crate::specs::Produce::produce_response_partition_fields, views::specs::Writing::put_item))]
impl Entry for ProduceResponsePartition {
    ghost use Rattle.log_api.specs.Produce.{produce_response_partition_fields, produce_response_partition_format};

    ghost format = { produce_response_partition_format };

    ghost fields = { produce_response_partition_fields };

    fn read(alloc: Global, version: i16, cursor: &mut Cursor) -> Result<Self, NoMemory> {
        Ok(ProduceResponsePartition {
            index: cursor.int32()?,
            error_code: cursor.int16()?,
            base_offset: cursor.int64()?,
            log_append_time_ms: cursor.int64()?,
            log_start_offset: cursor.int64_in(version, 5, 8)?,
            record_errors: cursor.array_in(alloc, version, 8, 8)?,
            error_message: cursor.text_in(version, 8, 8)?,
        })
    }

    fn write(&self, version: &i16, writer: &mut Writer) -> Result<(), NoMemory> {
        writer.int32(&self.index)?;
        writer.int16(&self.error_code)?;
        writer.int64(&self.base_offset)?;
        writer.int64(&self.log_append_time_ms)?;
        writer.int64_in(7, version, 5, 8, &self.log_start_offset)?;
        writer.array_in(8, version, 8, 8, &self.record_errors)?;
        writer.text_in(11, version, 8, 8, &self.error_message)?;
        Ok(())
    }
}

/// An entry of `record_errors` in a [`ProduceResponse`].
#[derive(Debug, Drop)]
pub struct ProduceResponseRecordError {
    pub batch_index: i32,
    pub message: Option<Bytes>,
}

#[tactic(auto, unfolding(crate::specs::Produce::produce_response_record_error_format, crate::specs::Produce::produce_response_record_error_fields))]
impl Entry for ProduceResponseRecordError {
    ghost use Rattle.log_api.specs.Produce.{produce_response_record_error_fields, produce_response_record_error_format};

    ghost format = { produce_response_record_error_format };

    ghost fields = { produce_response_record_error_fields };

    fn read(alloc: Global, version: i16, cursor: &mut Cursor) -> Result<Self, NoMemory> {
        let _ = (alloc, version);
        Ok(ProduceResponseRecordError {
            batch_index: cursor.int32()?,
            message: cursor.text()?,
        })
    }

    fn write(&self, version: &i16, writer: &mut Writer) -> Result<(), NoMemory> {
        let _ = version;
        writer.int32(&self.batch_index)?;
        writer.text(&self.message)?;
        Ok(())
    }
}
