ghost use Rattle.std.specs.Prelude.{◌≡◌, ◌<◌, ◌≤◌, ◌+◌, ◌++◌, ◌↔◌, length, IsErrAnd, IsErrOf, IfOk, IfErr, Err, option_map};
ghost use Rattle.virtual_cluster.specs.Names.{prefix_begins, stripped, IsNameFault};

use crate::NameFault;
use kp_edge::Blob;
use std::alloc::Global;

// The most bytes that a STRING of Kafka's protocol can have.
const MAX_NAME: usize = 32_767;

/// Whether the name begins with the prefix.
pub fn begins(prefix: &[u8], name: &[u8]) -> bool
    ensures { result ≡ prefix_begins prefix.now name.now }
{
    name.starts_with(prefix)
}

/// The name without its prefix.
pub fn name_strip<'a>(prefix: &[u8], name: &'a [u8]) -> Option<&'a [u8]>
    ensures { option_map (λ rest. rest.now) result ≡ stripped prefix.now name.now }
{
    if begins(prefix, name) {
        Some(&name[prefix.len()..])
    } else {
        None
    }
}

/// The name behind the prefix.
pub fn name_add(alloc: Global, prefix: &[u8], name: &[u8]) -> Result<Blob, NameFault>
    ensures added { IfOk result (λ whole. whole ≡ prefix.now ++ name.now) }
    ensures fits { IfOk result (λ whole. length whole ≤ 32767) }
    ensures fault { IfErr result (IsNameFault (length prefix.now + length name.now)) }
{
    let length = prefix.len() + name.len();
    if length > MAX_NAME {
        return Err(NameFault::TooLong {
            length: length as u64,
        });
    }
    let mut whole = Vec::from_slice(alloc, prefix).map_err(|_| NameFault::NoMemory)?;
    whole
        .extend_from_slice(name)
        .map_err(|_| NameFault::NoMemory)?;
    Ok(Blob::from_vec(whole))
}
