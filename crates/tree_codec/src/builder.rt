ghost use Rattle.std.specs.Prelude.{◌≡◌, ◌≢◌, ◌⊎◌, ◌↔◌, [], ◌++◌, Some, None, is_none, IsTrue, IsErrOf, IfOk, IfErr, OnOk, OnErr, MatchResult};
ghost use Rattle.tree_spelling.specs.Spelling.{spelling};
ghost use Rattle.tree_spelling.specs.Primitives.{IsInRange};
ghost use Rattle.tree_spelling.specs.Agenda.{is_of};
ghost use Rattle.tree_spelling.specs.Building.{kind_to_come, push_next, put_next, with_next};

use crate::agenda::Agenda;
use crate::body::Body;
use crate::items::{entries_of, is_kind, item_of_kind, spelled_len, with_length};
use crate::message::Message;
use crate::message_fields::message_fields;
use kp_schema::Dir;
use std::alloc::Global;
use std::marker::Model;
use tree_spelling::{EditFault, Item, Primitive};

/// A body that is made item by item: its fields in order, and each array's entries after its count.
#[derive(Drop)]
pub struct Builder {
    pub(crate) alloc: Global,
    message: Message,
    items: Vec<Primitive>,
    size: u64,
    agenda: Agenda,
}

impl Model for Builder {
    ghost use Rattle.std.specs.Prelude.{◌≡◌, length, Some, [], ◌∷◌};
    ghost use Rattle.tree_spelling.specs.Spelling.{spelling, AreInRange};
    ghost use Rattle.tree_spelling.specs.Shape.{message_shape};
    ghost use Rattle.tree_spelling.specs.Agenda.{passed};
    ghost use Rattle.tree_spelling.specs.Body.{Contents};
    ghost use Rattle.tree_codec.specs.Levels.{todo_of};

    ghost Value = { Contents };

    ghost view = { λ builder. record {
      key = builder.message.key;
      version = builder.message.version;
      dir = builder.message.dir;
      items = builder.items.items;
    } };

    ghost invariant = { λ builder. (builder.size ≡ length (spelling builder.items.items))
        × AreInRange builder.items.items
        × (passed (message_shape builder.message.key builder.message.version
        builder.message.dir ∷ []) builder.items.items
        ≡ Some (todo_of builder.agenda)) };
}

impl Builder {
    /// A body of this message, of which nothing was put yet. Of a message that isn't read nothing can be
    /// put. It allocates nothing.
    pub fn new(alloc: Global, key: i16, version: i16, dir: Dir) -> Builder
        ensures { result ≡ record { key = key; version = version; dir = dir; items = [] } }
    {
        let message = Message { key, version, dir };
        Builder {
            alloc,
            message,
            items: Vec::new(alloc),
            size: 0,
            agenda: Agenda::new(alloc, message_fields(message), 0, 1),
        }
    }

    /// Puts the next item. `NoMemory` also stands for a size that would pass 2^64 - 1.
    pub fn put(&mut self, item: Item) -> Result<(), EditFault>
        ensures ok { IfOk result (λ _. MatchResult (put_next self.old item)
            (λ next. self.new ≡ with_next self.old next) (λ _. ⊥)) }
        ensures err { IfErr result (λ fault.
            (put_next self.old item ≡ Err fault) ⊎ (fault ≡ EditFault.NoMemory)) }
        ensures fault { IfErr (put_next self.old item) (λ fault. result ≡ Err fault) }
        ensures kept { OnErr result (self.new ≡ self.old) }
    {
        let Some(kind) = self.agenda.kind() else {
            return Err(EditFault::NoSuch);
        };
        let next = item_of_kind(kind, item)?;
        self.append(next)
    }

    /// Puts the next item, which has its type already. `NoMemory` also stands for a size that would
    /// pass 2^64 - 1.
    pub fn push(&mut self, item: Primitive) -> Result<(), EditFault>
        ensures ok { OnOk result (self.new ≡ with_next self.old item) }
        ensures next { OnOk result (IsTrue (is_of (kind_to_come self.old) item)) }
        ensures accepted { IsTrue (is_of (kind_to_come self.old) item) → IsInRange item
            → IfErr result (λ fault. fault ≡ EditFault.NoMemory) }
        ensures err { IfErr result (λ fault.
            (push_next self.old item ≡ Err fault) ⊎ (fault ≡ EditFault.NoMemory)) }
        ensures fault { IfErr (push_next self.old item) (λ fault. result ≡ Err fault) }
        ensures kept { OnErr result (self.new ≡ self.old) }
    {
        let Some(kind) = self.agenda.kind() else {
            return Err(EditFault::NoSuch);
        };
        if !is_kind(kind, &item) {
            return Err(EditFault::WrongKind);
        }
        self.append(with_length(item)?)
    }

    fn append(&mut self, next: Primitive) -> Result<(), EditFault>
        requires next { IsTrue (is_of (kind_to_come self.old) next) }
        requires fits { IsInRange next }
        ensures ok { OnOk result (self.new ≡ with_next self.old next) }
        ensures err { IfErr result (λ fault. fault ≡ EditFault.NoMemory) }
        ensures kept { OnErr result (self.new ≡ self.old) }
    {
        let Some(size) = self.size.checked_add(spelled_len(&next)) else {
            return Err(EditFault::NoMemory);
        };
        self.items.reserve(1)?;
        self.agenda.pass(entries_of(&next))?;
        self.items.push(next)?;
        self.size = size;
        Ok(())
    }

    /// The body, if all its items were put.
    pub fn finish(self) -> Result<Body, EditFault>
        ensures ok { IfOk result (λ body. body ≡ self) }
        ensures no_such { IsErrOf result EditFault.NoSuch ↔ (kind_to_come self ≢ None) }
        ensures no_other { IfErr result (λ fault. fault ≡ EditFault.NoSuch) }
    {
        if self.agenda.kind().is_some() {
            return Err(EditFault::NoSuch);
        }
        Ok(Body {
            alloc: self.alloc,
            message: self.message,
            items: self.items,
            size: self.size,
        })
    }
}
