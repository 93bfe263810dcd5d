// Frames as bytes.
use std::alloc::{AllocError, Global};

// These parts, one after another.
pub fn joined(alloc: Global, parts: &[&[u8]]) -> Result<Vec<u8>, AllocError> {
    let mut bytes = Vec::new(alloc);
    for part in parts {
        bytes.extend_from_slice(part)?;
    }
    Ok(bytes)
}

// The same behind their size.
pub fn sized(alloc: Global, parts: &[&[u8]]) -> Result<Vec<u8>, AllocError> {
    let frame = joined(alloc, parts)?;
    let mut bytes = Vec::new(alloc);
    bytes.extend_from_slice(&u32::try_from(frame.len()).unwrap_or(0).to_be_bytes())?;
    bytes.extend_from_slice(frame.as_slice())?;
    Ok(bytes)
}
