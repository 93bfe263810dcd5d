//! ListGroups (key 16): "The Messages: ListGroups API" of the protocol guide.
use bytes::Bytes;
use kp_schema::Dir;
use std::alloc::Global;
use views::{Cursor, Entries, Entry, View, Writer};
use wire_types::NoMemory;

/// A ListGroups request (key 16, versions 0 to 2).
#[derive(Debug, Drop)]
pub struct ListGroupsRequest {
    pub version: i16,
}

impl View for ListGroupsRequest {
    ghost use Rattle.std.specs.Prelude.{pos};
    ghost use Rattle.kp_schema.specs.declared.dir.Dir.TheVariants.{Request};
    ghost use Rattle.group_api.specs.ListGroups.{list_groups_request_fields, list_groups_request_format};

    ghost KEY = { pos 16 };

    ghost DIR = { Request };

    ghost version_of = { λ view. view.version };

    ghost format = { list_groups_request_format };

    ghost fields = { list_groups_request_fields };

    const KEY: i16 = 16;

    const DIR: Dir = Dir::Request;

    fn version(&self) -> i16 {
        self.version
    }

    fn read(alloc: Global, version: i16, cursor: &mut Cursor) -> Result<Self, NoMemory> {
        let _ = alloc;
        let _ = cursor;
        Ok(ListGroupsRequest { version })
    }

    fn write(&self, writer: &mut Writer) -> Result<(), NoMemory> {
        let _ = writer;
        Ok(())
    }
}

/// A ListGroups response (key 16, versions 0 to 2).
#[derive(Debug, Drop)]
pub struct ListGroupsResponse {
    pub version: i16,
    /// Versions 1 to 2.
    pub throttle_time_ms: Option<i32>,
    pub error_code: i16,
    pub groups: Option<Entries<ListGroupsResponseGroup>>,
}

impl View for ListGroupsResponse {
    ghost use Rattle.std.specs.Prelude.{pos};
    ghost use Rattle.kp_schema.specs.declared.dir.Dir.TheVariants.{Response};
    ghost use Rattle.group_api.specs.ListGroups.{list_groups_response_fields, list_groups_response_format};

    ghost KEY = { pos 16 };

    ghost DIR = { Response };

    ghost version_of = { λ view. view.version };

    ghost format = { list_groups_response_format };

    ghost fields = { list_groups_response_fields };

    const KEY: i16 = 16;

    const DIR: Dir = Dir::Response;

    fn version(&self) -> i16 {
        self.version
    }

    fn read(alloc: Global, version: i16, cursor: &mut Cursor) -> Result<Self, NoMemory> {
        Ok(ListGroupsResponse {
            version,
            throttle_time_ms: cursor.int32_in(version, 1, 2)?,
            error_code: cursor.int16()?,
            groups: cursor.array(alloc, version)?,
        })
    }

    fn write(&self, writer: &mut Writer) -> Result<(), NoMemory> {
        writer.int32_in(0, &self.version, 1, 2, &self.throttle_time_ms)?;
        writer.int16(&self.error_code)?;
        writer.array(&self.version, &self.groups)?;
        Ok(())
    }
}

/// An entry of `groups` in a [`ListGroupsResponse`].
#[derive(Debug, Drop)]
pub struct ListGroupsResponseGroup {
    pub group_id: Option<Bytes>,
    pub protocol_type: Option<Bytes>,
}

#[tactic(auto, unfolding(crate::specs::ListGroups::list_groups_response_group_format, crate::specs::ListGroups::list_groups_response_group_fields))]
impl Entry for ListGroupsResponseGroup {
    ghost use Rattle.group_api.specs.ListGroups.{list_groups_response_group_fields, list_groups_response_group_format};

    ghost format = { list_groups_response_group_format };

    ghost fields = { list_groups_response_group_fields };

    fn read(alloc: Global, version: i16, cursor: &mut Cursor) -> Result<Self, NoMemory> {
        let _ = (alloc, version);
        Ok(ListGroupsResponseGroup {
            group_id: cursor.text()?,
            protocol_type: cursor.text()?,
        })
    }

    fn write(&self, version: &i16, writer: &mut Writer) -> Result<(), NoMemory> {
        let _ = version;
        writer.text(&self.group_id)?;
        writer.text(&self.protocol_type)?;
        Ok(())
    }
}
