// Writing to a sink until all is taken.
ghost use Rattle.std.specs.Prelude.{◌≡◌, OnOk, OnErr};
ghost use Rattle.kp_edge.specs.Counts.{HasCause};
ghost use Rattle.proxy_main.specs.Output.{Appends, AppendsFront};

use kp_edge::{Failed, Sink};

// Writes all the bytes, or up to the write that fails.
pub(crate) fn write_all<O: Sink>(out: &mut O, bytes: &[u8]) -> Result<(), Failed>
    ensures ok { OnOk result (Appends (O.taken out.old) bytes.now (O.taken out.new)) }
    ensures err { OnErr result (AppendsFront (O.taken out.old) bytes.now (O.taken out.new)) }
    ensures cause { HasCause (O.faults out.old) (O.faults out.new) result }
{
    let mut rest = bytes;
    while !rest.is_empty() {
        let taken = out.write(rest)?;
        rest = rest.split_at(taken).1;
    }
    Ok(())
}
