ghost use Rattle.std.specs.Prelude.{◌≡◌, IfOk};
ghost use Rattle.any_filter.specs.declared.any_pending.AnyPending.TheVariants as pending;
ghost use Rattle.any_filter.specs.AnyTurn.{move_with, IsMoveWith, IsBoxedScreened, IsBoxedListing};

use address_rewrite::Addressing;
use filter_core::Move;
use kp_edge::NoMemory;
use std::alloc::Global;
use stock_filters::{Forwarded, Listing, Screened};

/// What the filter in an [`AnyFilter`](crate::AnyFilter) keeps between two moves. What is
/// large stands in a box, so that a move is cheap to hand on.
#[derive(Drop)]
pub enum AnyPending {
    Forwarded(Forwarded),
    Screened(Box<Screened>),
    Listing(Box<Listing>),
    Addressing(Addressing),
}

pub(crate) fn with_forwarded(made: Move<Forwarded>) -> Move<AnyPending>
    ensures { result ≡ move_with pending.Forwarded made }
{
    match made {
        Move::Forward(message, kept) => Move::Forward(message, AnyPending::Forwarded(kept)),
        Move::Side(message, kept) => Move::Side(message, AnyPending::Forwarded(kept)),
        Move::Hold(key, kept) => Move::Hold(key, AnyPending::Forwarded(kept)),
        Move::Return(response) => Move::Return(response),
        Move::Shut(reason) => Move::Shut(reason),
    }
}

pub(crate) fn with_screened(
    alloc: Global,
    made: Move<Screened>,
) -> Result<Move<AnyPending>, NoMemory>
    ensures { IfOk result (λ boxed. IsMoveWith IsBoxedScreened made boxed) }
{
    match made {
        Move::Forward(message, kept) => {
            let kept = Box::new(alloc, kept)?;
            Ok(Move::Forward(message, AnyPending::Screened(kept)))
        }
        Move::Side(message, kept) => {
            let kept = Box::new(alloc, kept)?;
            Ok(Move::Side(message, AnyPending::Screened(kept)))
        }
        Move::Hold(key, kept) => {
            let kept = Box::new(alloc, kept)?;
            Ok(Move::Hold(key, AnyPending::Screened(kept)))
        }
        Move::Return(response) => Ok(Move::Return(response)),
        Move::Shut(reason) => Ok(Move::Shut(reason)),
    }
}

pub(crate) fn with_listing(alloc: Global, made: Move<Listing>) -> Result<Move<AnyPending>, NoMemory>
    ensures { IfOk result (λ boxed. IsMoveWith IsBoxedListing made boxed) }
{
    match made {
        Move::Forward(message, kept) => {
            let kept = Box::new(alloc, kept)?;
            Ok(Move::Forward(message, AnyPending::Listing(kept)))
        }
        Move::Side(message, kept) => {
            let kept = Box::new(alloc, kept)?;
            Ok(Move::Side(message, AnyPending::Listing(kept)))
        }
        Move::Hold(key, kept) => {
            let kept = Box::new(alloc, kept)?;
            Ok(Move::Hold(key, AnyPending::Listing(kept)))
        }
        Move::Return(response) => Ok(Move::Return(response)),
        Move::Shut(reason) => Ok(Move::Shut(reason)),
    }
}

pub(crate) fn with_addressing(made: Move<Addressing>) -> Move<AnyPending>
    ensures { result ≡ move_with pending.Addressing made }
{
    match made {
        Move::Forward(message, kept) => Move::Forward(message, AnyPending::Addressing(kept)),
        Move::Side(message, kept) => Move::Side(message, AnyPending::Addressing(kept)),
        Move::Hold(key, kept) => Move::Hold(key, AnyPending::Addressing(kept)),
        Move::Return(response) => Move::Return(response),
        Move::Shut(reason) => Move::Shut(reason),
    }
}
