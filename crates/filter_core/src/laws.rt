ghost use Rattle.std.specs.Prelude.{ℤ, pos, IsTrue};
ghost use Rattle.kp_schema.specs.Messages.{is_supported};
ghost use Rattle.filter_core.specs.ProduceFields.{FindsAcks};

/// Law: what tells a request that gets no response is the field acks of a Produce request, in each version that is
/// read. It has an empty body.
pub fn acks_law()
    ensures { (version : ℤ) → IsTrue (is_supported (pos 0) version) → FindsAcks version }
{}
