//! Bodies with one field changed.
ghost use Rattle.std.specs.Prelude.{◌≡◌, ◌≢◌, ◌⊎◌, Some, IfOk, IfErr, OnErr, MatchResult};
ghost use Rattle.tree_spelling.specs.Primitives.{kind_of, IsInRange};
ghost use Rattle.tree_spelling.specs.Value.{Value};
ghost use Rattle.tree_spelling.specs.Body.{HasValue, body_shape};
ghost use Rattle.tree_spelling.specs.Paths.{place_at};
ghost use Rattle.tree_spelling.specs.Changes.{in_place_of, set_items};

use crate::body::Body;
use crate::items::{item_of_kind, spelled_len};
use kp_schema::Kind;
use tree_spelling::{EditFault, Item, Primitive};

impl Body {
    /// Changes one field that isn't an array. `NoMemory` also stands for a size that would pass
    /// 2^64 - 1.
    pub fn set(&mut self, path: &[u32], item: Item) -> Result<(), EditFault>
        // The item has the place that the path names, if it is of that field's kind.
        ensures ok { (value : Value (body_shape self.old)) → HasValue self.old value
            → IfOk result (λ _. MatchResult
            (set_items self.old.items (place_at (body_shape self.old) value path.now) item)
            (λ items. self.new ≡ record self.old { items = items }) (λ _. ⊥)) }

        // The fault is the first that there is.
        ensures err { (value : Value (body_shape self.old)) → HasValue self.old value
            → IfErr result (λ fault.
            (set_items self.old.items (place_at (body_shape self.old) value path.now) item
            ≡ Err fault)
            ⊎ (fault ≡ EditFault.NoMemory)) }
        ensures kept { OnErr result (self.new ≡ self.old) }
    {
        let Some(place) = self.place(path)? else {
            return Err(EditFault::NoSuch);
        };
        self.set_at(place, item)
    }

    fn set_at(&mut self, place: usize, item: Item) -> Result<(), EditFault>
        ensures ok { IfOk result (λ _. MatchResult
            (set_items self.old.items (Some place) item)
            (λ items. self.new ≡ record self.old { items = items }) (λ _. ⊥)) }
        ensures err { IfErr result (λ fault. (set_items self.old.items (Some place) item ≡ Err fault)
            ⊎ (fault ≡ EditFault.NoMemory)) }
        ensures kept { OnErr result (self.new ≡ self.old) }
    {
        let Some(old) = self.items.get(place) else {
            return Err(EditFault::NoSuch);
        };
        let before = spelled_len(old);
        let new = in_place_of(old, item)?;
        let Some(size) = (self.size - before).checked_add(spelled_len(&new)) else {
            return Err(EditFault::NoMemory);
        };
        self.items[place] = new;
        self.size = size;
        Ok(())
    }
}

// What is to stand in the place of an old item.
fn in_place_of(old: &Primitive, item: Item) -> Result<Primitive, EditFault>
    ensures value { result ≡ in_place_of (kind_of old.now) item }
    ensures fits { IfOk result IsInRange }
    ensures same { IfOk result (λ new. (kind_of new ≡ kind_of old.now) × (kind_of new ≢ Kind.Array)) }
{
    match old {
        Primitive::Int8(_) => item_of_kind(Kind::I8, item),
        Primitive::Int16(_) => item_of_kind(Kind::I16, item),
        Primitive::Int32(_) => item_of_kind(Kind::I32, item),
        Primitive::Int64(_) => item_of_kind(Kind::I64, item),
        Primitive::Boolean(_) => item_of_kind(Kind::Bool, item),
        Primitive::Text(_) => item_of_kind(Kind::Str, item),
        Primitive::Binary(_) => item_of_kind(Kind::Bytes, item),
        Primitive::Count(_) => Err(EditFault::WrongKind),
    }
}
