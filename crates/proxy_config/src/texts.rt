// How a refusal is written.
ghost use Rattle.std.specs.Prelude.{◌≡◌, ◌++◌, IfOk, OnOk, codes, decimal};
ghost use Rattle.proxy_config.specs.Refusals.{place_text, config_fault_text};

use crate::fault::{ConfigFault, Place};
use kp_edge::{Blob, NoMemory};
use std::alloc::Global;

impl ConfigFault {
    /// The text of the refusal: its word, and where or which plans. A key stands in it byte for byte, also a
    /// control byte.
    pub fn text(&self, alloc: Global) -> Result<Blob, NoMemory>
        ensures { IfOk result (λ text. text ≡ config_fault_text self.now) }
    {
        match self {
            ConfigFault::NotToml => Blob::copy(alloc, b"not-toml"),
            ConfigFault::Missing(place) => at_place(alloc, "missing ", place),
            ConfigFault::WrongType(place) => at_place(alloc, "wrong-type ", place),
            ConfigFault::BadValue(place) => at_place(alloc, "bad-value ", place),
            ConfigFault::UnknownKey(place) => at_place(alloc, "unknown-key ", place),
            ConfigFault::UnknownFilter(place) => at_place(alloc, "unknown-filter ", place),
            ConfigFault::Plan(fault) => match format!(in alloc; "{fault}") {
                Ok(text) => Ok(Blob::from_vec(text.into_bytes())),
                Err(_) => Err(NoMemory),
            },
            ConfigFault::NoMemory => Blob::copy(alloc, b"no-memory"),
        }
    }
}

// The word, and behind it the place.
fn at_place(alloc: Global, word: &str, place: &Place) -> Result<Blob, NoMemory>
    ensures { IfOk result (λ text. text ≡ word.now ++ place_text place.now) }
{
    let mut text = Vec::from_slice(alloc, word.as_bytes())?;
    if let Some(number) = place.cluster {
        put_number(alloc, &mut text, number)?;
    }
    text.extend_from_slice(place.key.as_slice())?;
    Ok(Blob::from_vec(text))
}

// The number and a space more.
fn put_number(alloc: Global, text: &mut Vec<u8>, number: u32) -> Result<(), NoMemory>
    ensures { OnOk result (text.new.items ≡ text.old.items ++ (decimal number ++ codes " ")) }
{
    match format!(in alloc; "{number} ") {
        Ok(digits) => {
            text.extend_from_slice(digits.as_bytes())?;
            Ok(())
        }
        Err(_) => Err(NoMemory),
    }
}
