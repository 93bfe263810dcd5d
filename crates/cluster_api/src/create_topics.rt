//! CreateTopics (key 19): "The Messages: CreateTopics API" of the protocol guide.
use bytes::Bytes;
use kp_schema::Dir;
use std::alloc::Global;
use views::{Cursor, Entries, Entry, Number, View, Writer};
use wire_types::NoMemory;

/// A CreateTopics request (key 19, versions 0 to 4).
#[derive(Debug, Drop)]
pub struct CreateTopicsRequest {
    pub version: i16,
    pub topics: Option<Entries<CreateTopicsRequestTopic>>,
    pub timeout_ms: i32,
    /// Versions 1 to 4.
    pub validate_only: Option<u8>,
}

impl View for CreateTopicsRequest {
    ghost use Rattle.std.specs.Prelude.{pos};
    ghost use Rattle.kp_schema.specs.declared.dir.Dir.TheVariants.{Request};
    ghost use Rattle.cluster_api.specs.CreateTopics.{create_topics_request_fields, create_topics_request_format};

    ghost KEY = { pos 19 };

    ghost DIR = { Request };

    ghost version_of = { λ view. view.version };

    ghost format = { create_topics_request_format };

    ghost fields = { create_topics_request_fields };

    const KEY: i16 = 19;

    const DIR: Dir = Dir::Request;

    fn version(&self) -> i16 {
        self.version
    }

    fn read(alloc: Global, version: i16, cursor: &mut Cursor) -> Result<Self, NoMemory> {
        Ok(CreateTopicsRequest {
            version,
            topics: cursor.array(alloc, version)?,
            timeout_ms: cursor.int32()?,
            validate_only: cursor.flag_in(version, 1, 4)?,
        })
    }

    fn write(&self, writer: &mut Writer) -> Result<(), NoMemory> {
        writer.array(&self.version, &self.topics)?;
        writer.int32(&self.timeout_ms)?;
        writer.flag_in(12, &self.version, 1, 4, &self.validate_only)?;
        Ok(())
    }
}

/// An entry of `topics` in a [`CreateTopicsRequest`].
#[derive(Debug, Drop)]
pub struct CreateTopicsRequestTopic {
    pub name: Option<Bytes>,
    pub num_partitions: i32,
    pub replication_factor: i16,
    pub assignments: Option<Entries<CreateTopicsRequestAssignment>>,
    pub configs: Option<Entries<CreateTopicsRequestConfig>>,
}

#[tactic(auto, unfolding(crate::specs::CreateTopics::create_topics_request_topic_format, crate::specs::CreateTopics::create_topics_request_topic_fields))]
impl Entry for CreateTopicsRequestTopic {
    ghost use Rattle.cluster_api.specs.CreateTopics.{create_topics_request_topic_fields, create_topics_request_topic_format};

    ghost format = { create_topics_request_topic_format };

    ghost fields = { create_topics_request_topic_fields };

    fn read(alloc: Global, version: i16, cursor: &mut Cursor) -> Result<Self, NoMemory> {
        Ok(CreateTopicsRequestTopic {
            name: cursor.text()?,
            num_partitions: cursor.int32()?,
            replication_factor: cursor.int16()?,
            assignments: cursor.array(alloc, version)?,
            configs: cursor.array(alloc, version)?,
        })
    }

    fn write(&self, version: &i16, writer: &mut Writer) -> Result<(), NoMemory> {
        writer.text(&self.name)?;
        writer.int32(&self.num_partitions)?;
        writer.int16(&self.replication_factor)?;
        writer.array(version, &self.assignments)?;
        writer.array(version, &self.configs)?;
        Ok(())
    }
}

/// An entry of `assignments` in a [`CreateTopicsRequest`].
#[derive(Debug, Drop)]
pub struct CreateTopicsRequestAssignment {
    pub index: i32,
    pub broker_ids: Option<Entries<Number>>,
}

#[tactic(auto, unfolding(crate::specs::CreateTopics::create_topics_request_assignment_format, crate::specs::CreateTopics::create_topics_request_assignment_fields))]
impl Entry for CreateTopicsRequestAssignment {
    ghost use Rattle.cluster_api.specs.CreateTopics.{create_topics_request_assignment_fields, create_topics_request_assignment_format};

    ghost format = { create_topics_request_assignment_format };

    ghost fields = { create_topics_request_assignment_fields };

    fn read(alloc: Global, version: i16, cursor: &mut Cursor) -> Result<Self, NoMemory> {
        Ok(CreateTopicsRequestAssignment {
            index: cursor.int32()?,
            broker_ids: cursor.array(alloc, version)?,
        })
    }

    fn write(&self, version: &i16, writer: &mut Writer) -> Result<(), NoMemory> {
        writer.int32(&self.index)?;
        writer.array(version, &self.broker_ids)?;
        Ok(())
    }
}

/// An entry of `configs` in a [`CreateTopicsRequest`].
#[derive(Debug, Drop)]
pub struct CreateTopicsRequestConfig {
    pub name: Option<Bytes>,
    pub value: Option<Bytes>,
}

#[tactic(auto, unfolding(crate::specs::CreateTopics::create_topics_request_config_format, crate::specs::CreateTopics::create_topics_request_config_fields))]
impl Entry for CreateTopicsRequestConfig {
    ghost use Rattle.cluster_api.specs.CreateTopics.{create_topics_request_config_fields, create_topics_request_config_format};

    ghost format = { create_topics_request_config_format };

    ghost fields = { create_topics_request_config_fields };

    fn read(alloc: Global, version: i16, cursor: &mut Cursor) -> Result<Self, NoMemory> {
        let _ = (alloc, version);
        Ok(CreateTopicsRequestConfig {
            name: cursor.text()?,
            value: cursor.text()?,
        })
    }

    fn write(&self, version: &i16, writer: &mut Writer) -> Result<(), NoMemory> {
        let _ = version;
        writer.text(&self.name)?;
        writer.text(&self.value)?;
        Ok(())
    }
}

/// A CreateTopics response (key 19, versions 0 to 4).
#[derive(Debug, Drop)]
pub struct CreateTopicsResponse {
    pub version: i16,
    /// Versions 2 to 4.
    pub throttle_time_ms: Option<i32>,
    pub topics: Option<Entries<CreateTopicsResponseTopic>>,
}

impl View for CreateTopicsResponse {
    ghost use Rattle.std.specs.Prelude.{pos};
    ghost use Rattle.kp_schema.specs.declared.dir.Dir.TheVariants.{Response};
    ghost use Rattle.cluster_api.specs.CreateTopics.{create_topics_response_fields, create_topics_response_format};

    ghost KEY = { pos 19 };

    ghost DIR = { Response };

    ghost version_of = { λ view. view.version };

    ghost format = { create_topics_response_format };

    ghost fields = { create_topics_response_fields };

    const KEY: i16 = 19;

    const DIR: Dir = Dir::Response;

    fn version(&self) -> i16 {
        self.version
    }

    fn read(alloc: Global, version: i16, cursor: &mut Cursor) -> Result<Self, NoMemory> {
        Ok(CreateTopicsResponse {
            version,
            throttle_time_ms: cursor.int32_in(version, 2, 4)?,
            topics: cursor.array(alloc, version)?,
        })
    }

    fn write(&self, writer: &mut Writer) -> Result<(), NoMemory> {
        writer.int32_in(0, &self.version, 2, 4, &self.throttle_time_ms)?;
        writer.array(&self.version, &self.topics)?;
        Ok(())
    }
}

/// An entry of `topics` in a [`CreateTopicsResponse`].
#[derive(Debug, Drop)]
pub struct CreateTopicsResponseTopic {
    pub name: Option<Bytes>,
    pub error_code: i16,
    /// Versions 1 to 4.
    pub error_message: Option<Option<Bytes>>,
}

#[tactic(auto, unfolding(crate::specs::CreateTopics::create_topics_response_topic_format, crate::specs::CreateTopics::create_topics_response_topic_fields))]
impl Entry for CreateTopicsResponseTopic {
    ghost use Rattle.cluster_api.specs.CreateTopics.{create_topics_response_topic_fields, create_topics_response_topic_format};

    ghost format = { create_topics_response_topic_format };

    ghost fields = { create_topics_response_topic_fields };

    fn read(alloc: Global, version: i16, cursor: &mut Cursor) -> Result<Self, NoMemory> {
        let _ = alloc;
        Ok(CreateTopicsResponseTopic {
            name: cursor.text()?,
            error_code: cursor.int16()?,
            error_message: cursor.text_in(version, 1, 4)?,
        })
    }

    fn write(&self, version: &i16, writer: &mut Writer) -> Result<(), NoMemory> {
        writer.text(&self.name)?;
        writer.int16(&self.error_code)?;
        writer.text_in(4, version, 1, 4, &self.error_message)?;
        Ok(())
    }
}
