// Requests that no filter sees, with so many in flight: each response makes room for the next request.
use crate::exchange::{is_answered, is_emitted, is_sent, is_taken};
use conn_core::Core;
use filter_probes::Probe;
use std::alloc::{AllocError, Global};

pub fn went_right(alloc: Global, in_flight: u32, count: u32) -> Result<bool, AllocError> {
    let mut core = Core::new(alloc, Vec::<Probe>::new(alloc), in_flight.clamp(1, 64));
    for number in 0..count {
        if let Some(oldest) = number.checked_sub(in_flight) {
            if !is_passed(alloc, &mut core, oldest)? {
                return Ok(false);
            }
        }
        if !(is_taken(alloc, &mut core, number)? && is_sent(&mut core, number)) {
            return Ok(false);
        }
    }
    for number in count.saturating_sub(in_flight)..count {
        if !is_passed(alloc, &mut core, number)? {
            return Ok(false);
        }
    }
    Ok(true)
}

fn is_passed(alloc: Global, core: &mut Core<Probe>, number: u32) -> Result<bool, AllocError> {
    Ok(is_answered(alloc, core, number)? && is_emitted(core, number))
}
