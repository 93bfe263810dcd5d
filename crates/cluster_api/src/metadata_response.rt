//! Metadata (key 3): "The Messages: Metadata API" of the protocol guide.
use bytes::Bytes;
use kp_schema::Dir;
use std::alloc::Global;
use views::{Cursor, Entries, Entry, Number, View, Writer};
use wire_types::NoMemory;

/// A Metadata response (key 3, versions 1 to 8).
#[derive(Debug, Drop)]
pub struct MetadataResponse {
    pub version: i16,
    /// Versions 3 to 8.
    pub throttle_time_ms: Option<i32>,
    pub brokers: Option<Entries<MetadataResponseBroker>>,
    /// Versions 2 to 8.
    pub cluster_id: Option<Option<Bytes>>,
    pub controller_id: i32,
    pub topics: Option<Entries<MetadataResponseTopic>>,
    /// Version 8.
    pub cluster_authorized_operations: Option<i32>,
}

#[tactic(auto, unfolding(views::specs::Writing::put_item))]
impl View for MetadataResponse {
    ghost use Rattle.std.specs.Prelude.{pos};
    ghost use Rattle.kp_schema.specs.declared.dir.Dir.TheVariants.{Response};
    ghost use Rattle.cluster_api.specs.Metadata.{metadata_response_fields, metadata_response_format};

    ghost KEY = { pos 3 };

    ghost DIR = { Response };

    ghost version_of = { λ view. view.version };

    ghost format = { metadata_response_format };

    ghost fields = { metadata_response_fields };

    const KEY: i16 = 3;

    const DIR: Dir = Dir::Response;

    fn version(&self) -> i16 {
        self.version
    }

    fn read(alloc: Global, version: i16, cursor: &mut Cursor) -> Result<Self, NoMemory> {
        Ok(MetadataResponse {
            version,
            throttle_time_ms: cursor.int32_in(version, 3, 8)?,
            brokers: cursor.array(alloc, version)?,
            cluster_id: cursor.text_in(version, 2, 8)?,
            controller_id: cursor.int32()?,
            topics: cursor.array(alloc, version)?,
            cluster_authorized_operations: cursor.int32_in(version, 8, 8)?,
        })
    }

    fn write(&self, writer: &mut Writer) -> Result<(), NoMemory> {
        writer.int32_in(0, &self.version, 3, 8, &self.throttle_time_ms)?;
        writer.array(&self.version, &self.brokers)?;
        writer.text_in(6, &self.version, 2, 8, &self.cluster_id)?;
        writer.int32(&self.controller_id)?;
        writer.array(&self.version, &self.topics)?;
        writer.int32_in(24, &self.version, 8, 8, &self.cluster_authorized_operations)?;
        Ok(())
    }
}

/// An entry of `brokers` in a [`MetadataResponse`].
#[derive(Debug, Drop)]
pub struct MetadataResponseBroker {
    pub node_id: i32,
    pub host: Option<Bytes>,
    pub port: i32,
    pub rack: Option<Bytes>,
}

#[tactic(auto, unfolding(crate::specs::Metadata::metadata_response_broker_format, crate::specs::Metadata::metadata_response_broker_fields))]
impl Entry for MetadataResponseBroker {
    ghost use Rattle.cluster_api.specs.Metadata.{metadata_response_broker_fields, metadata_response_broker_format};

    ghost format = { metadata_response_broker_format };

    ghost fields = { metadata_response_broker_fields };

    fn read(alloc: Global, version: i16, cursor: &mut Cursor) -> Result<Self, NoMemory> {
        let _ = (alloc, version);
        Ok(MetadataResponseBroker {
            node_id: cursor.int32()?,
            host: cursor.text()?,
            port: cursor.int32()?,
            rack: cursor.text()?,
        })
    }

    fn write(&self, version: &i16, writer: &mut Writer) -> Result<(), NoMemory> {
        let _ = version;
        writer.int32(&self.node_id)?;
        writer.text(&self.host)?;
        writer.int32(&self.port)?;
        writer.text(&self.rack)?;
        Ok(())
    }
}

/// An entry of `topics` in a [`MetadataResponse`].
#[derive(Debug, Drop)]
pub struct MetadataResponseTopic {
    pub error_code: i16,
    pub name: Option<Bytes>,
    pub is_internal: u8,
    pub partitions: Option<Entries<MetadataResponsePartition>>,
    /// Version 8.
    pub topic_authorized_operations: Option<i32>,
}

#[tactic(auto, unfolding(crate::specs::Metadata::metadata_response_topic_format, crate::specs::Metadata::metadata_response_topic_fields))]
impl Entry for MetadataResponseTopic {
    ghost use Rattle.cluster_api.specs.Metadata.{metadata_response_topic_fields, metadata_response_topic_format};

    ghost format = { metadata_response_topic_format };

    ghost fields = { metadata_response_topic_fields };

    fn read(alloc: Global, version: i16, cursor: &mut Cursor) -> Result<Self, NoMemory> {
        Ok(MetadataResponseTopic {
            error_code: cursor.int16()?,
            name: cursor.text()?,
            is_internal: cursor.flag()?,
            partitions: cursor.array(alloc, version)?,
            topic_authorized_operations: cursor.int32_in(version, 8, 8)?,
        })
    }

    fn write(&self, version: &i16, writer: &mut Writer) -> Result<(), NoMemory> {
        writer.int16(&self.error_code)?;
        writer.text(&self.name)?;
        writer.flag(&self.is_internal)?;
        writer.array(version, &self.partitions)?;
        writer.int32_in(23, version, 8, 8, &self.topic_authorized_operations)?;
        Ok(())
    }
}

/// An entry of `partitions` in a [`MetadataResponse`].
#[derive(Debug, Drop)]
pub struct MetadataResponsePartition {
    pub error_code: i16,
    pub index: i32,
    pub leader_id: i32,
    /// Versions 7 to 8.
    pub leader_epoch: Option<i32>,
    pub replica_nodes: Option<Entries<Number>>,
    pub isr_nodes: Option<Entries<Number>>,
    /// Versions 5 to 8.
    pub offline_replicas: Option<Option<Entries<Number>>>,
}

#[tactic(auto, unfolding(crate::specs::Metadata::metadata_response_partition_format, crate::specs::Metadata::metadata_response_partition_fields, views::specs::Writing::put_item))]
impl Entry for MetadataResponsePartition {
    ghost use Rattle.cluster_api.specs.Metadata.{metadata_response_partition_fields, metadata_response_partition_format};

    ghost format = { metadata_response_partition_format };

    ghost fields = { metadata_response_partition_fields };

    fn read(alloc: Global, version: i16, cursor: &mut Cursor) -> Result<Self, NoMemory> {
        Ok(MetadataResponsePartition {
            error_code: cursor.int16()?,
            index: cursor.int32()?,
            leader_id: cursor.int32()?,
            leader_epoch: cursor.int32_in(version, 7, 8)?,
            replica_nodes: cursor.array(alloc, version)?,
            isr_nodes: cursor.array(alloc, version)?,
            offline_replicas: cursor.array_in(alloc, version, 5, 8)?,
        })
    }

    fn write(&self, version: &i16, writer: &mut Writer) -> Result<(), NoMemory> {
        writer.int16(&self.error_code)?;
        writer.int32(&self.index)?;
        writer.int32(&self.leader_id)?;
        writer.int32_in(16, version, 7, 8, &self.leader_epoch)?;
        writer.array(version, &self.replica_nodes)?;
        writer.array(version, &self.isr_nodes)?;
        writer.array_in(21, version, 5, 8, &self.offline_replicas)?;
        Ok(())
    }
}
