ghost use Rattle.std.specs.Prelude.{◌≡◌, ◌≢◌, ◌⊎◌, ◌↔◌, ℤ, IfOk, IfErr, OnOk, IsErrOf};
ghost use Rattle.kp_schema.specs.declared.dir.Dir.{Dir};
ghost use Rattle.views.specs.Format.{Format, Fields};
ghost use Rattle.views.specs.Reading.{items_before};
ghost use Rattle.views.specs.Fitting.{FitVersion};
ghost use Rattle.views.specs.Writing.{put_fields};
ghost use Rattle.views.specs.Views.{view_body, HasNoBody};

use crate::cursor::Cursor;
use crate::view_fault::ViewFault;
use crate::writer::Writer;
use kp_schema::Dir;
use std::alloc::Global;
use tree_codec::Body;
use wire_types::NoMemory;

/// A message as a struct: its version, and then its fields by the guide's names, in the guide's order.
///
/// A field that not every version has is an `Option`, which is `Some` exactly where the version has it. Inside of it, a
/// text, a list of bytes and an array may be null, which is `None`.
pub trait View: Drop {
    /// The key of its API.
    ghost KEY: { ℤ };

    /// Whether it is a request or a response.
    ghost DIR: { Dir };

    /// Its fields, and the versions that have them.
    ghost format: { Format };

    /// The version that a view says it has.
    ghost version_of: { Self → ℤ };

    /// The values of the fields.
    ghost fields: { Self → Fields format };

    const KEY: i16;

    const DIR: Dir;

    /// The version of the message.
    fn version(&self) -> i16
        ensures { result ≡ version_of self.now };

    /// Reads the fields of this version.
    fn read(alloc: Global, version: i16, cursor: &mut Cursor) -> Result<Self, NoMemory>
        ensures items { IfOk result (λ view. cursor.old ≡ items_before format (fields view) cursor.new) }
        ensures version { IfOk result (λ view. version_of view ≡ version) }
        ensures fit { IfOk result (λ view. FitVersion format version (fields view)) };

    /// Puts the fields.
    fn write(&self, writer: &mut Writer) -> Result<(), NoMemory>
        ensures { OnOk result (writer.new ≡ put_fields format (version_of self.now) (fields self.now) writer.old) };

    /// The view of a body. Its texts, and its lists of bytes, are parts of the frames that the body's came in.
    final fn of(alloc: Global, body: &Body) -> Result<Self, ViewFault>
        ensures view { IfOk result (λ view. body.now ≡ view_body KEY DIR (version_of view) format (fields view)) }
        ensures fit { IfOk result (λ view. FitVersion format (version_of view) (fields view)) }
        ensures wrong_api { IsErrOf result ViewFault.WrongApi ↔ ((body.now.key ≢ KEY) ⊎ (body.now.dir ≢ DIR)) }
        ensures err { IfErr result (λ fault. (fault ≡ ViewFault.WrongApi) ⊎ (fault ≡ ViewFault.NoMemory)) }
    {
        if body.key() != Self::KEY || body.dir() != Self::DIR {
            return Err(ViewFault::WrongApi);
        }
        let mut cursor = Cursor::new(body.items());
        let view = Self::read(alloc, body.version(), &mut cursor)?;
        cursor.end()?;
        Ok(view)
    }

    /// The body of a view. A version that isn't read has no body but one without fields, and is answered by `NoMemory`
    /// where an item would have to be put.
    final fn body(&self, alloc: Global) -> Result<Body, ViewFault>
        ensures body { IfOk result (λ body. body ≡ view_body KEY DIR (version_of self.now) format (fields self.now)) }
        ensures fit { OnOk result (FitVersion format (version_of self.now) (fields self.now)) }
        ensures err { IfErr result (HasNoBody (version_of self.now) format (fields self.now)) }
    {
        let mut writer = Writer::new(alloc, Self::KEY, self.version(), Self::DIR);
        self.write(&mut writer)?;
        writer.finish()
    }
}
