//! ApiVersions (key 18): "The Messages: ApiVersions API" of the protocol guide.
use kp_schema::Dir;
use std::alloc::Global;
use views::{Cursor, Entries, Entry, View, Writer};
use wire_types::NoMemory;

/// An ApiVersions request (key 18, versions 0 to 2).
#[derive(Debug, Drop)]
pub struct ApiVersionsRequest {
    pub version: i16,
}

impl View for ApiVersionsRequest {
    ghost use Rattle.std.specs.Prelude.{pos};
    ghost use Rattle.kp_schema.specs.declared.dir.Dir.TheVariants.{Request};
    ghost use Rattle.cluster_api.specs.ApiVersions.{api_versions_request_fields, api_versions_request_format};

    ghost KEY = { pos 18 };

    ghost DIR = { Request };

    ghost version_of = { λ view. view.version };

    ghost format = { api_versions_request_format };

    ghost fields = { api_versions_request_fields };

    const KEY: i16 = 18;

    const DIR: Dir = Dir::Request;

    fn version(&self) -> i16 {
        self.version
    }

    fn read(alloc: Global, version: i16, cursor: &mut Cursor) -> Result<Self, NoMemory> {
        let _ = alloc;
        let _ = cursor;
        Ok(ApiVersionsRequest { version })
    }

    fn write(&self, writer: &mut Writer) -> Result<(), NoMemory> {
        let _ = writer;
        Ok(())
    }
}

/// An ApiVersions response (key 18, versions 0 to 2).
#[derive(Debug, Drop)]
pub struct ApiVersionsResponse {
    pub version: i16,
    pub error_code: i16,
    pub api_keys: Option<Entries<ApiVersionsResponseApiKey>>,
    /// Versions 1 to 2.
    pub throttle_time_ms: Option<i32>,
}

impl View for ApiVersionsResponse {
    ghost use Rattle.std.specs.Prelude.{pos};
    ghost use Rattle.kp_schema.specs.declared.dir.Dir.TheVariants.{Response};
    ghost use Rattle.cluster_api.specs.ApiVersions.{api_versions_response_fields, api_versions_response_format};

    ghost KEY = { pos 18 };

    ghost DIR = { Response };

    ghost version_of = { λ view. view.version };

    ghost format = { api_versions_response_format };

    ghost fields = { api_versions_response_fields };

    const KEY: i16 = 18;

    const DIR: Dir = Dir::Response;

    fn version(&self) -> i16 {
        self.version
    }

    fn read(alloc: Global, version: i16, cursor: &mut Cursor) -> Result<Self, NoMemory> {
        Ok(ApiVersionsResponse {
            version,
            error_code: cursor.int16()?,
            api_keys: cursor.array(alloc, version)?,
            throttle_time_ms: cursor.int32_in(version, 1, 2)?,
        })
    }

    fn write(&self, writer: &mut Writer) -> Result<(), NoMemory> {
        writer.int16(&self.error_code)?;
        writer.array(&self.version, &self.api_keys)?;
        writer.int32_in(5, &self.version, 1, 2, &self.throttle_time_ms)?;
        Ok(())
    }
}

/// An entry of `api_keys` in a [`ApiVersionsResponse`].
#[derive(Debug, Drop)]
pub struct ApiVersionsResponseApiKey {
    pub api_key: i16,
    pub min_version: i16,
    pub max_version: i16,
}

#[tactic(auto, unfolding(crate::specs::ApiVersions::api_versions_response_api_key_format, crate::specs::ApiVersions::api_versions_response_api_key_fields))]
impl Entry for ApiVersionsResponseApiKey {
    ghost use Rattle.cluster_api.specs.ApiVersions.{api_versions_response_api_key_fields, api_versions_response_api_key_format};

    ghost format = { api_versions_response_api_key_format };

    ghost fields = { api_versions_response_api_key_fields };

    fn read(alloc: Global, version: i16, cursor: &mut Cursor) -> Result<Self, NoMemory> {
        let _ = (alloc, version);
        Ok(ApiVersionsResponseApiKey {
            api_key: cursor.int16()?,
            min_version: cursor.int16()?,
            max_version: cursor.int16()?,
        })
    }

    fn write(&self, version: &i16, writer: &mut Writer) -> Result<(), NoMemory> {
        let _ = version;
        writer.int16(&self.api_key)?;
        writer.int16(&self.min_version)?;
        writer.int16(&self.max_version)?;
        Ok(())
    }
}
