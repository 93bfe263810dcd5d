ghost use Rattle.std.specs.Prelude.{◌≡◌, ◌<◌, ◌==◌, length, IfOk, IfSome, option_map, position};
ghost use Rattle.proxy_config.specs.Texts.{address_of};
ghost use Rattle.proxy_config.specs.Steps.{address_from};

use crate::number::short_number;
use kp_edge::{Blob, NoMemory};
use std::alloc::Global;
use virtual_cluster::Address;

// Where the first colon is.
fn first_colon(text: &[u8]) -> Option<usize>
    ensures first { result ≡ position (λ c. c == 58) text.now }
    ensures within { IfSome result (λ i. i < length text.now) }
{
    text.iter().position(|c| *c == b':')
}

// The host and the port of a text `HOST:PORT`.
#[tactic(auto, unfolding(crate::specs::Texts::address_of))]
pub(crate) fn host_and_port(text: &[u8]) -> Option<(&[u8], u16)>
    ensures { option_map (λ found. address_from found.0.now found.1) result ≡ address_of text.now }
{
    let colon = first_colon(text)?;
    let host = &text[..colon];
    let port = short_number(65_535, &text[colon + 1..])?;
    if 1 <= host.len() && host.len() <= 255 && 1 <= port {
        Some((host, port as u16))
    } else {
        None
    }
}

// The address that a text is.
pub(crate) fn address(alloc: Global, text: &[u8]) -> Result<Option<Address>, NoMemory>
    ensures { IfOk result (λ found. found ≡ address_of text.now) }
{
    match host_and_port(text) {
        Some((host, port)) => Ok(Some(Address {
            host: Blob::copy(alloc, host)?,
            port,
        })),
        None => Ok(None),
    }
}
