/// What a filter keeps that forwarded a request and needs nothing of it any more.
#[derive(Debug, Drop)]
pub struct Forwarded;
