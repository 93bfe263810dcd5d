//! Fetch (key 1): "The Messages: Fetch API" of the protocol guide.
use bytes::Bytes;
use kp_schema::Dir;
use std::alloc::Global;
use views::{Cursor, Entries, Entry, View, Writer};
use wire_types::NoMemory;

/// A Fetch response (key 1, versions 4 to 11).
#[derive(Debug, Drop)]
pub struct FetchResponse {
    pub version: i16,
    pub throttle_time_ms: i32,
    /// Versions 7 to 11.
    pub error_code: Option<i16>,
    /// Versions 7 to 11.
    pub session_id: Option<i32>,
    pub topics: Option<Entries<FetchResponseTopic>>,
}

impl View for FetchResponse {
    ghost use Rattle.std.specs.Prelude.{pos};
    ghost use Rattle.kp_schema.specs.declared.dir.Dir.TheVariants.{Response};
    ghost use Rattle.log_api.specs.Fetch.{fetch_response_fields, fetch_response_format};

    ghost KEY = { pos 1 };

    ghost DIR = { Response };

    ghost version_of = { λ view. view.version };

    ghost format = { fetch_response_format };

    ghost fields = { fetch_response_fields };

    const KEY: i16 = 1;

    const DIR: Dir = Dir::Response;

    fn version(&self) -> i16 {
        self.version
    }

    fn read(alloc: Global, version: i16, cursor: &mut Cursor) -> Result<Self, NoMemory> {
        Ok(FetchResponse {
            version,
            throttle_time_ms: cursor.int32()?,
            error_code: cursor.int16_in(version, 7, 11)?,
            session_id: cursor.int32_in(version, 7, 11)?,
            topics: cursor.array(alloc, version)?,
        })
    }

    fn write(&self, writer: &mut Writer) -> Result<(), NoMemory> {
        writer.int32(&self.throttle_time_ms)?;
        writer.int16_in(1, &self.version, 7, 11, &self.error_code)?;
        writer.int32_in(2, &self.version, 7, 11, &self.session_id)?;
        writer.array(&self.version, &self.topics)?;
        Ok(())
    }
}

/// An entry of `topics` in a [`FetchResponse`].
#[derive(Debug, Drop)]
pub struct FetchResponseTopic {
    pub name: Option<Bytes>,
    pub partitions: Option<Entries<FetchResponsePartition>>,
}

#[tactic(auto, unfolding(crate::specs::Fetch::fetch_response_topic_format, crate::specs::Fetch::fetch_response_topic_fields))]
impl Entry for FetchResponseTopic {
    ghost use Rattle.log_api.specs.Fetch.{fetch_response_topic_fields, fetch_response_topic_format};

    ghost format = { fetch_response_topic_format };

    ghost fields = { fetch_response_topic_fields };

    fn read(alloc: Global, version: i16, cursor: &mut Cursor) -> Result<Self, NoMemory> {
        Ok(FetchResponseTopic {
            name: cursor.text()?,
            partitions: cursor.array(alloc, version)?,
        })
    }

    fn write(&self, version: &i16, writer: &mut Writer) -> Result<(), NoMemory> {
        writer.text(&self.name)?;
        writer.array(version, &self.partitions)?;
        Ok(())
    }
}

/// An entry of `partitions` in a [`FetchResponse`].
#[derive(Debug, Drop)]
pub struct FetchResponsePartition {
    pub index: i32,
    pub error_code: i16,
    pub high_watermark: i64,
    pub last_stable_offset: i64,
    /// Versions 5 to 11.
    pub log_start_offset: Option<i64>,
    pub aborted: Option<Entries<FetchResponseAbortedTransaction>>,
    /// Version 11.
    pub preferred_read_replica: Option<i32>,
    pub records: Option<Bytes>,
}

#[tactic(auto, unfolding(crate::specs::Fetch::fetch_response_partition_format, crate::specs::Fetch::fetch_response_partition_fields, views::specs::Writing::put_item))]
impl Entry for FetchResponsePartition {
    ghost use Rattle.log_api.specs.Fetch.{fetch_response_partition_fields, fetch_response_partition_format};

    ghost format = { fetch_response_partition_format };

    ghost fields = { fetch_response_partition_fields };

    fn read(alloc: Global, version: i16, cursor: &mut Cursor) -> Result<Self, NoMemory> {
        Ok(FetchResponsePartition {
            index: cursor.int32()?,
            error_code: cursor.int16()?,
            high_watermark: cursor.int64()?,
            last_stable_offset: cursor.int64()?,
            log_start_offset: cursor.int64_in(version, 5, 11)?,
            aborted: cursor.array(alloc, version)?,
            preferred_read_replica: cursor.int32_in(version, 11, 11)?,
            records: cursor.binary()?,
        })
    }

    fn write(&self, version: &i16, writer: &mut Writer) -> Result<(), NoMemory> {
        writer.int32(&self.index)?;
        writer.int16(&self.error_code)?;
        writer.int64(&self.high_watermark)?;
        writer.int64(&self.last_stable_offset)?;
        writer.int64_in(10, version, 5, 11, &self.log_start_offset)?;
        writer.array(version, &self.aborted)?;
        writer.int32_in(14, version, 11, 11, &self.preferred_read_replica)?;
        writer.binary(&self.records)?;
        Ok(())
    }
}

/// An entry of `aborted` in a [`FetchResponse`].
#[derive(Debug, Drop)]
pub struct FetchResponseAbortedTransaction {
    pub producer_id: i64,
    pub first_offset: i64,
}

#[tactic(auto, unfolding(crate::specs::Fetch::fetch_response_aborted_transaction_format, crate::specs::Fetch::fetch_response_aborted_transaction_fields))]
impl Entry for FetchResponseAbortedTransaction {
    ghost use Rattle.log_api.specs.Fetch.{fetch_response_aborted_transaction_fields, fetch_response_aborted_transaction_format};

    ghost format = { fetch_response_aborted_transaction_format };

    ghost fields = { fetch_response_aborted_transaction_fields };

    fn read(alloc: Global, version: i16, cursor: &mut Cursor) -> Result<Self, NoMemory> {
        let _ = (alloc, version);
        Ok(FetchResponseAbortedTransaction {
            producer_id: cursor.int64()?,
            first_offset: cursor.int64()?,
        })
    }

    fn write(&self, version: &i16, writer: &mut Writer) -> Result<(), NoMemory> {
        let _ = version;
        writer.int64(&self.producer_id)?;
        writer.int64(&self.first_offset)?;
        Ok(())
    }
}
