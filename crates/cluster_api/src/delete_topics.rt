//! DeleteTopics (key 20): "The Messages: DeleteTopics API" of the protocol guide.
use bytes::Bytes;
use kp_schema::Dir;
use std::alloc::Global;
use views::{Cursor, Entries, Entry, Name, View, Writer};
use wire_types::NoMemory;

/// A DeleteTopics request (key 20, versions 0 to 3).
#[derive(Debug, Drop)]
pub struct DeleteTopicsRequest {
    pub version: i16,
    pub names: Option<Entries<Name>>,
    pub timeout_ms: i32,
}

impl View for DeleteTopicsRequest {
    ghost use Rattle.std.specs.Prelude.{pos};
    ghost use Rattle.kp_schema.specs.declared.dir.Dir.TheVariants.{Request};
    ghost use Rattle.cluster_api.specs.DeleteTopics.{delete_topics_request_fields, delete_topics_request_format};

    ghost KEY = { pos 20 };

    ghost DIR = { Request };

    ghost version_of = { λ view. view.version };

    ghost format = { delete_topics_request_format };

    ghost fields = { delete_topics_request_fields };

    const KEY: i16 = 20;

    const DIR: Dir = Dir::Request;

    fn version(&self) -> i16 {
        self.version
    }

    fn read(alloc: Global, version: i16, cursor: &mut Cursor) -> Result<Self, NoMemory> {
        Ok(DeleteTopicsRequest {
            version,
            names: cursor.array(alloc, version)?,
            timeout_ms: cursor.int32()?,
        })
    }

    fn write(&self, writer: &mut Writer) -> Result<(), NoMemory> {
        writer.array(&self.version, &self.names)?;
        writer.int32(&self.timeout_ms)?;
        Ok(())
    }
}

/// A DeleteTopics response (key 20, versions 0 to 3).
#[derive(Debug, Drop)]
pub struct DeleteTopicsResponse {
    pub version: i16,
    /// Versions 1 to 3.
    pub throttle_time_ms: Option<i32>,
    pub topics: Option<Entries<DeleteTopicsResponseTopic>>,
}

impl View for DeleteTopicsResponse {
    ghost use Rattle.std.specs.Prelude.{pos};
    ghost use Rattle.kp_schema.specs.declared.dir.Dir.TheVariants.{Response};
    ghost use Rattle.cluster_api.specs.DeleteTopics.{delete_topics_response_fields, delete_topics_response_format};

    ghost KEY = { pos 20 };

    ghost DIR = { Response };

    ghost version_of = { λ view. view.version };

    ghost format = { delete_topics_response_format };

    ghost fields = { delete_topics_response_fields };

    const KEY: i16 = 20;

    const DIR: Dir = Dir::Response;

    fn version(&self) -> i16 {
        self.version
    }

    fn read(alloc: Global, version: i16, cursor: &mut Cursor) -> Result<Self, NoMemory> {
        Ok(DeleteTopicsResponse {
            version,
            throttle_time_ms: cursor.int32_in(version, 1, 3)?,
            topics: cursor.array(alloc, version)?,
        })
    }

    fn write(&self, writer: &mut Writer) -> Result<(), NoMemory> {
        writer.int32_in(0, &self.version, 1, 3, &self.throttle_time_ms)?;
        writer.array(&self.version, &self.topics)?;
        Ok(())
    }
}

/// An entry of `topics` in a [`DeleteTopicsResponse`].
#[derive(Debug, Drop)]
pub struct DeleteTopicsResponseTopic {
    pub name: Option<Bytes>,
    pub error_code: i16,
}

#[tactic(auto, unfolding(crate::specs::DeleteTopics::delete_topics_response_topic_format, crate::specs::DeleteTopics::delete_topics_response_topic_fields))]
impl Entry for DeleteTopicsResponseTopic {
    ghost use Rattle.cluster_api.specs.DeleteTopics.{delete_topics_response_topic_fields, delete_topics_response_topic_format};

    ghost format = { delete_topics_response_topic_format };

    ghost fields = { delete_topics_response_topic_fields };

    fn read(alloc: Global, version: i16, cursor: &mut Cursor) -> Result<Self, NoMemory> {
        let _ = (alloc, version);
        Ok(DeleteTopicsResponseTopic {
            name: cursor.text()?,
            error_code: cursor.int16()?,
        })
    }

    fn write(&self, version: &i16, writer: &mut Writer) -> Result<(), NoMemory> {
        let _ = version;
        writer.text(&self.name)?;
        writer.int16(&self.error_code)?;
        Ok(())
    }
}
