use crate::message::{Came, Message, Response, ResponseBody};
use crate::probe_kind::{Decision, Given, ProbeKind};
use std::alloc::{AllocError, Global};

const MOST_TURNS: u8 = 7;

const BUDGET: usize = 64;

/// How a request stands.
#[derive(Clone, Copy, Debug, PartialEq, Eq)]
pub enum Outcome {
    /// It waits for the response to this message.
    Sends { message: Message, main: bool },
    /// It waits for a verdict on the hold of this filter, counted from 0.
    Holds { filter: u32 },
    /// Its response, or that it gets none.
    Done(Option<Response>),
    /// This filter ended the connection.
    Shut { filter: u32, code: u16 },
    /// It asks for more than 64 things.
    AskBudget,
    /// A filter goes on after six inputs.
    NeverEnds,
}

/// What becomes of a request.
#[derive(Clone, Copy, Debug, PartialEq, Eq)]
pub struct Course {
    pub outcome: Outcome,
    /// How many turns filters had.
    pub turns: u32,
}

// What becomes of a message from one filter on: what comes back for it, or how the request stands.
enum Fate {
    Back(Option<Response>),
    Stops(Outcome),
}

// What came, and how much of it was used.
#[derive(Drop)]
struct Outside<'a> {
    came: &'a [Came],
    used: usize,
}

/// What becomes of a request with all that came for it. The probe nearest the client stands first.
pub fn course_of(
    alloc: Global,
    chain: &[ProbeKind],
    request: Message,
    came: &[Came],
) -> Result<Course, AllocError> {
    let mut outside = Outside { came, used: 0 };
    let mut turns = 0;
    let outcome = match walk(alloc, chain, 0, request, true, &mut outside, &mut turns)? {
        Fate::Back(response) => Outcome::Done(response),
        Fate::Stops(Outcome::Sends { .. } | Outcome::Holds { .. }) if came.len() >= BUDGET => {
            Outcome::AskBudget
        }
        Fate::Stops(outcome) => outcome,
    };
    Ok(Course { outcome, turns })
}

// A message at the first of these filters, which has this number in the whole chain.
fn walk(
    alloc: Global,
    chain: &[ProbeKind],
    filter: u32,
    message: Message,
    main: bool,
    outside: &mut Outside,
    turns: &mut u32,
) -> Result<Fate, AllocError> {
    let Some((kind, nearer)) = chain.split_first() else {
        return Ok(match next(outside) {
            None => Fate::Stops(Outcome::Sends { message, main }),
            Some((place, Came::Answer { key, version })) => {
                let body = ResponseBody::Came(place);
                Fate::Back(Some(Response { key, version, body }))
            }
            Some((_, Came::NoResponse | Came::Verdict(_))) => Fate::Back(None),
        });
    };
    let mut given: Vec<Given> = Vec::new(alloc);
    let next_filter = filter.saturating_add(1);
    for _ in 0..MOST_TURNS {
        *turns = turns.saturating_add(1);
        let fate = match kind.decides(message, given.as_slice()) {
            Decision::Forward(message) => {
                walk(alloc, nearer, next_filter, message, main, outside, turns)?
            }
            Decision::Side(message) => {
                walk(alloc, nearer, next_filter, message, false, outside, turns)?
            }
            Decision::Hold => {
                let Some((_, came)) = next(outside) else {
                    return Ok(Fate::Stops(Outcome::Holds { filter }));
                };
                given.push(verdict_in(came))?;
                continue;
            }
            Decision::Return(response) => return Ok(Fate::Back(response)),
            Decision::Shut(code) => Fate::Stops(Outcome::Shut { filter, code }),
        };
        match fate {
            Fate::Back(response) => given.push(Given::Back(response))?,
            Fate::Stops(outcome) => return Ok(Fate::Stops(outcome)),
        }
    }
    Ok(Fate::Stops(Outcome::NeverEnds))
}

// What came, to who waits for a verdict.
fn verdict_in(came: Came) -> Given {
    match came {
        Came::Answer { .. } | Came::NoResponse => Given::Back(None),
        Came::Verdict(said) => Given::Verdict(said),
    }
}

// The next of what came, with its place.
fn next(outside: &mut Outside) -> Option<(usize, Came)> {
    let place = outside.used;
    let came = *outside.came.get(place)?;
    outside.used = place.saturating_add(1);
    Some((place, came))
}
