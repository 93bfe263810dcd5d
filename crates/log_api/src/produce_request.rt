//! Produce (key 0): "The Messages: Produce API" of the protocol guide.
use bytes::Bytes;
use kp_schema::Dir;
use std::alloc::Global;
use views::{Cursor, Entries, Entry, View, Writer};
use wire_types::NoMemory;

/// A Produce request (key 0, versions 3 to 8).
#[derive(Debug, Drop)]
pub struct ProduceRequest {
    pub version: i16,
    pub transactional_id: Option<Bytes>,
    pub acks: i16,
    pub timeout_ms: i32,
    pub topics: Option<Entries<ProduceRequestTopic>>,
}

impl View for ProduceRequest {
    ghost use Rattle.std.specs.Prelude.{pos};
    ghost use Rattle.kp_schema.specs.declared.dir.Dir.TheVariants.{Request};
    ghost use Rattle.log_api.specs.Produce.{produce_request_fields, produce_request_format};

    ghost KEY = { pos 0 };

    ghost DIR = { Request };

    ghost version_of = { λ view. view.version };

    ghost format = { produce_request_format };

    ghost fields = { produce_request_fields };

    const KEY: i16 = 0;

    const DIR: Dir = Dir::Request;

    fn version(&self) -> i16 {
        self.version
    }

    fn read(alloc: Global, version: i16, cursor: &mut Cursor) -> Result<Self, NoMemory> {
        Ok(ProduceRequest {
            version,
            transactional_id: cursor.text()?,
            acks: cursor.int16()?,
            timeout_ms: cursor.int32()?,
            topics: cursor.array(alloc, version)?,
        })
    }

    fn write(&self, writer: &mut Writer) -> Result<(), NoMemory> {
        writer.text(&self.transactional_id)?;
        writer.int16(&self.acks)?;
        writer.int32(&self.timeout_ms)?;
        writer.array(&self.version, &self.topics)?;
        Ok(())
    }
}

/// An entry of `topics` in a [`ProduceRequest`].
#[derive(Debug, Drop)]
pub struct ProduceRequestTopic {
    pub name: Option<Bytes>,
    pub partitions: Option<Entries<ProduceRequestPartition>>,
}

#[tactic(auto, unfolding(crate::specs::Produce::produce_request_topic_format, crate::specs::Produce::produce_request_topic_fields))]
impl Entry for ProduceRequestTopic {
    ghost use Rattle.log_api.specs.Produce.{produce_request_topic_fields, produce_request_topic_format};

    ghost format = { produce_request_topic_format };

    ghost fields = { produce_request_topic_fields };

    fn read(alloc: Global, version: i16, cursor: &mut Cursor) -> Result<Self, NoMemory> {
        Ok(ProduceRequestTopic {
            name: cursor.text()?,
            partitions: cursor.array(alloc, version)?,
        })
    }

    fn write(&self, version: &i16, writer: &mut Writer) -> Result<(), NoMemory> {
        writer.text(&self.name)?;
        writer.array(version, &self.partitions)?;
        Ok(())
    }
}

/// An entry of `partitions` in a [`ProduceRequest`].
#[derive(Debug, Drop)]
pub struct ProduceRequestPartition {
    pub index: i32,
    pub records: Option<Bytes>,
}

#[tactic(auto, unfolding(crate::specs::Produce::produce_request_partition_format, crate::specs::Produce::produce_request_partition_fields))]
impl Entry for ProduceRequestPartition {
    ghost use Rattle.log_api.specs.Produce.{produce_request_partition_fields, produce_request_partition_format};

    ghost format = { produce_request_partition_format };

    ghost fields = { produce_request_partition_fields };

    fn read(alloc: Global, version: i16, cursor: &mut Cursor) -> Result<Self, NoMemory> {
        let _ = (alloc, version);
        Ok(ProduceRequestPartition {
            index: cursor.int32()?,
            records: cursor.binary()?,
        })
    }

    fn write(&self, version: &i16, writer: &mut Writer) -> Result<(), NoMemory> {
        let _ = version;
        writer.int32(&self.index)?;
        writer.binary(&self.records)?;
        Ok(())
    }
}
