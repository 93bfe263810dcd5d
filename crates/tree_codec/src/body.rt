ghost use Rattle.std.specs.Prelude.{◌≡◌, length, IfOk};
ghost use Rattle.tree_spelling.specs.Spelling.{spelling};
ghost use Rattle.tree_spelling.specs.Body.{IsTree, HasValue, body_shape};
ghost use Rattle.tree_spelling.specs.Value.{Value};
ghost use Rattle.tree_spelling.specs.Paths.{place_at, item_at};

use crate::items::as_item;
use crate::message::Message;
use crate::message_fields::message_fields;
use crate::walk::find;
use kp_schema::Dir;
use std::alloc::Global;
use std::marker::Model;
use tree_spelling::{Item, Primitive};
use wire_types::NoMemory;

/// A message without its header.
///
/// Its texts, and its lists of bytes, are parts of the frames that they came in.
#[derive(Drop)]
pub struct Body {
    pub(crate) alloc: Global,
    pub(crate) message: Message,
    pub(crate) items: Vec<Primitive>,
    pub(crate) size: u64,
}

impl Model for Body {
    ghost use Rattle.std.specs.Prelude.{◌≡◌, length};
    ghost use Rattle.tree_spelling.specs.Spelling.{spelling};
    ghost use Rattle.tree_spelling.specs.Body.{Contents, IsTree};

    ghost Value = { Contents };

    ghost view = { λ body. record {
      key = body.message.key;
      version = body.message.version;
      dir = body.message.dir;
      items = body.items.items;
    } };

    ghost invariant = { λ body. (body.size ≡ length (spelling body.items.items)) × IsTree (record {
      key = body.message.key;
      version = body.message.version;
      dir = body.message.dir;
      items = body.items.items;
    }) };
}

impl Body {
    /// The API key of the message.
    pub fn key(&self) -> i16
        ensures { result ≡ self.now.key }
    {
        self.message.key
    }

    /// The version of the message.
    pub fn version(&self) -> i16
        ensures { result ≡ self.now.version }
    {
        self.message.version
    }

    /// Whether it is a request's or a response's.
    pub fn dir(&self) -> Dir
        ensures { result ≡ self.now.dir }
    {
        self.message.dir
    }

    /// How many bytes spell it.
    pub fn size(&self) -> u64
        ensures { result ≡ length (spelling self.now.items) }
    {
        self.size
    }

    /// Its items in reading order.
    pub fn items(&self) -> &[Primitive]
        ensures { result.now ≡ self.now.items }
    {
        self.items.as_slice()
    }

    /// That it is a tree with the fields of its version. A call does nothing but say so to its
    /// caller's proof.
    pub fn is_tree(&self)
        ensures { IsTree self.now }
    {
        let _ = &self.items;
    }

    /// What a path names: by turns the place of a field among those that the version has, and the
    /// number of an entry of that field. A path that is empty, or ends with the number of an entry,
    /// names nothing.
    pub fn get(&self, path: &[u32]) -> Result<Option<Item>, NoMemory>
        ensures { (value : Value (body_shape self.now)) → HasValue self.now value
            → IfOk result (λ found. found ≡ item_at (body_shape self.now) value path.now) }
    {
        let Some(place) = self.place(path)? else {
            return Ok(None);
        };
        match self.items.get(place) {
            Some(item) => Ok(Some(as_item(item)?)),
            None => Ok(None),
        }
    }

    // How many items stand before the one that the path names.
    pub(crate) fn place(&self, path: &[u32]) -> Result<Option<usize>, NoMemory>
        ensures { (value : Value (body_shape self.now)) → HasValue self.now value
            → IfOk result (λ place. place ≡ place_at (body_shape self.now) value path.now) }
    {
        let Some((field, path)) = path.split_first() else {
            return Ok(None);
        };
        let fields = message_fields(self.message);
        find(
            self.alloc,
            self.items.as_slice(),
            0,
            fields,
            0,
            *field,
            path,
        )
    }
}
