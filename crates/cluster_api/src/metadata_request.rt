//! Metadata (key 3): "The Messages: Metadata API" of the protocol guide.
use bytes::Bytes;
use kp_schema::Dir;
use std::alloc::Global;
use views::{Cursor, Entries, Entry, View, Writer};
use wire_types::NoMemory;

/// A Metadata request (key 3, versions 1 to 8).
#[derive(Debug, Drop)]
pub struct MetadataRequest {
    pub version: i16,
    pub topics: Option<Entries<MetadataRequestTopic>>,
    /// Versions 4 to 8.
    pub allow_auto_topic_creation: Option<u8>,
    /// Version 8.
    pub include_cluster_authorized_operations: Option<u8>,
    /// Version 8.
    pub include_topic_authorized_operations: Option<u8>,
}

impl View for MetadataRequest {
    ghost use Rattle.std.specs.Prelude.{pos};
    ghost use Rattle.kp_schema.specs.declared.dir.Dir.TheVariants.{Request};
    ghost use Rattle.cluster_api.specs.Metadata.{metadata_request_fields, metadata_request_format};

    ghost KEY = { pos 3 };

    ghost DIR = { Request };

    ghost version_of = { λ view. view.version };

    ghost format = { metadata_request_format };

    ghost fields = { metadata_request_fields };

    const KEY: i16 = 3;

    const DIR: Dir = Dir::Request;

    fn version(&self) -> i16 {
        self.version
    }

    fn read(alloc: Global, version: i16, cursor: &mut Cursor) -> Result<Self, NoMemory> {
        Ok(MetadataRequest {
            version,
            topics: cursor.array(alloc, version)?,
            allow_auto_topic_creation: cursor.flag_in(version, 4, 8)?,
            include_cluster_authorized_operations: cursor.flag_in(version, 8, 8)?,
            include_topic_authorized_operations: cursor.flag_in(version, 8, 8)?,
        })
    }

    fn write(&self, writer: &mut Writer) -> Result<(), NoMemory> {
        writer.array(&self.version, &self.topics)?;
        writer.flag_in(2, &self.version, 4, 8, &self.allow_auto_topic_creation)?;
        writer.flag_in(
            3,
            &self.version,
            8,
            8,
            &self.include_cluster_authorized_operations,
        )?;
        writer.flag_in(
            4,
            &self.version,
            8,
            8,
            &self.include_topic_authorized_operations,
        )?;
        Ok(())
    }
}

/// An entry of `topics` in a [`MetadataRequest`].
#[derive(Debug, Drop)]
pub struct MetadataRequestTopic {
    pub name: Option<Bytes>,
}

#[tactic(auto, unfolding(crate::specs::Metadata::metadata_request_topic_format, crate::specs::Metadata::metadata_request_topic_fields))]
impl Entry for MetadataRequestTopic {
    ghost use Rattle.cluster_api.specs.Metadata.{metadata_request_topic_fields, metadata_request_topic_format};

    ghost format = { metadata_request_topic_format };

    ghost fields = { metadata_request_topic_fields };

    fn read(alloc: Global, version: i16, cursor: &mut Cursor) -> Result<Self, NoMemory> {
        let _ = (alloc, version);
        Ok(MetadataRequestTopic {
            name: cursor.text()?,
        })
    }

    fn write(&self, version: &i16, writer: &mut Writer) -> Result<(), NoMemory> {
        let _ = version;
        writer.text(&self.name)?;
        Ok(())
    }
}
