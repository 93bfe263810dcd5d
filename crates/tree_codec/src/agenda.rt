ghost use Rattle.std.specs.Prelude.{◌≡◌, ◌+◌, List, [], ◌∷◌, ◌++◌, Some, IfOk, OnOk, OnErr};
ghost use Rattle.tree_spelling.specs.declared.primitive.Primitive.{Primitive};
ghost use Rattle.tree_spelling.specs.Primitives.{entries_of};
ghost use Rattle.tree_spelling.specs.Shape.{Shape, nest};
ghost use Rattle.tree_spelling.specs.Agenda.{settled, copies, after, next_kind};
ghost use Rattle.tree_codec.specs.Levels.{level_shapes, levels_below, todo_of};

use crate::level::Level;
use kp_schema::{Field, Kind};
use std::alloc::Global;
use wire_types::NoMemory;

/// Which fields are still to come, while the items of a body pass one by one.
#[derive(Drop)]
pub(crate) struct Agenda {
    /// The kind of the next field, if there is one.
    next: Option<Kind>,
    /// What comes behind it.
    top: Level,
    /// What comes after that, the last of it first.
    below: Vec<Level>,
}

impl Agenda {
    /// So many entries with the fields at this depth. It allocates nothing.
    pub(crate) fn new(alloc: Global, fields: &'static [Field], depth: u8, entries: u32) -> Agenda
        ensures { todo_of result ≡ settled (copies entries (nest fields.now depth)) }
    {
        let mut agenda = Agenda {
            next: None,
            top: Level {
                fields: &[],
                entry: fields,
                depth,
                left: entries,
            },
            below: Vec::new(alloc),
        };
        agenda.go_on();
        agenda
    }

    /// The kind of the next field.
    pub(crate) fn kind(&self) -> Option<Kind>
        ensures { result ≡ next_kind (todo_of self.now) }
    {
        self.next
    }

    /// Passes the next field, whose value brings so many entries. These come next.
    pub(crate) fn pass(&mut self, entries: u32) -> Result<(), NoMemory>
        ensures ok { (item : Primitive) (todo : List Shape) → entries ≡ entries_of item
            → after (todo_of self.old) item ≡ Some todo
            → OnOk result (todo_of self.new ≡ settled todo) }
        ensures err { OnErr result (todo_of self.new ≡ todo_of self.old) }
    {
        if entries > 0 {
            self.enter(entries)?;
        }
        self.go_on();
        Ok(())
    }

    // Puts the entries of the array before all else that is to come.
    fn enter(&mut self, entries: u32) -> Result<(), NoMemory>
        ensures ok { OnOk result (level_shapes self.new.top ++ levels_below self.new.below.items
            ≡ nest [] (self.old.top.depth + 1)
            ∷ (copies entries (nest self.old.top.fields.now (self.old.top.depth + 1))
            ++ (level_shapes self.old.top ++ levels_below self.old.below.items))) }
        ensures err { OnErr result (todo_of self.new ≡ todo_of self.old) }
    {
        let Some(depth) = self.top.depth.checked_add(1) else {
            return Err(NoMemory);
        };
        self.below.push(self.top)?;
        self.top = Level {
            fields: &[],
            entry: self.top.fields,
            depth,
            left: entries,
        };
        Ok(())
    }

    // Finds the next field.
    fn go_on(&mut self)
        ensures { todo_of self.new
            ≡ settled (level_shapes self.old.top ++ levels_below self.old.below.items) }
    {
        loop {
            if let Some(kind) = self.top.pass() {
                self.next = Some(kind);
                return;
            }
            let Some(level) = self.below.pop() else {
                self.next = None;
                return;
            };
            self.top = level;
        }
    }
}
