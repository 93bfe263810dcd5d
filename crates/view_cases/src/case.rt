//! A line of the input.
use kp_schema::Dir;
use std::alloc::{AllocError, Global};

/// A message's bytes, and other versions that its struct is given afterwards.
#[derive(Drop)]
pub struct Case {
    pub key: i16,
    pub version: i16,
    pub dir: Dir,
    pub bytes: Vec<u8>,
    pub others: Vec<i16>,
}

/// The case of a line `KEY VERSION request|response HEX OTHER..`, where `-` stands for no bytes.
pub fn case_of(alloc: Global, line: &str) -> Result<Option<Case>, AllocError> {
    let words: Vec<&str> = line.split_whitespace().collect(alloc)?;
    let [key, version, dir, bytes, others @ ..] = words.as_slice() else {
        return Ok(None);
    };
    let (Ok(key), Ok(version)) = (key.parse::<i16>(), version.parse::<i16>()) else {
        return Ok(None);
    };
    let dir = if *dir == "request" {
        Dir::Request
    } else {
        Dir::Response
    };
    let Ok(bytes) = hex::decode(alloc, bytes.trim_end_matches('-')) else {
        return Ok(None);
    };
    let others = numbers_in(alloc, others)?;
    Ok(Some(Case {
        key,
        version,
        dir,
        bytes,
        others,
    }))
}

fn numbers_in(alloc: Global, words: &[&str]) -> Result<Vec<i16>, AllocError> {
    let mut numbers = Vec::new(alloc);
    for word in words {
        if let Ok(number) = word.parse::<i16>() {
            numbers.push(number)?;
        }
    }
    Ok(numbers)
}
