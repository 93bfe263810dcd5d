ghost use Rattle.std.specs.Prelude.{◌≡◌, ◌≤◌, ◌++◌, ◌∷◌, [], ℕ, List, length, IfOk, OnOk};
ghost use Rattle.conn_rules.specs.Meaning.{Meaning};
ghost use Rattle.conn_rules.specs.State.{Outside};
ghost use Rattle.serving.specs.Services.{Begins, IsProgress, CountsOn, outside_of, IsRead, progress_remaining};
ghost use Rattle.conn_core.specs.Requests.{is_told_versions, versions_told};

use crate::answer_body::AnswerBody;
use crate::chain_run::ChainRun;
use crate::kinds::{FrameKind, kind_of};
use crate::opening::{Opened, open};
use crate::read_answer::read_answer;
use crate::telling::tell;
use api_versions::refusal;
use bytes::Bytes;
use filter_chain::Run;
use filter_core::Filter;
use kp_edge::{NoMemory, Steps};
use serving::{Begun, Cause, Given, Progress, Service, WholeFrame};
use std::alloc::Global;

/// What requests mean under a chain of filters. The filter nearest the client stands first.
#[derive(Drop)]
pub struct Chain<F: Drop> {
    pub(crate) alloc: Global,
    pub(crate) filters: Vec<F>,
}

impl<F: Filter + Drop> Service for Chain<F> {
    ghost use Rattle.std.specs.Prelude.{map};
    ghost use Rattle.filter_chain.specs.RunStates.{budget_unused};
    ghost use Rattle.conn_core.specs.Chained.{chain_meaning};
    ghost use Rattle.conn_core.specs.Underway.{IsUnderway, answer_bytes};

    type Run = ChainRun<F::Pending>;

    type Answer = AnswerBody;

    ghost meaning = { λ chain. chain_meaning (map F.turn chain.filters.items) };

    ghost stands = { λ chain. IsUnderway F.turn F.stands chain.filters.items };

    ghost read_from = { λ _. answer_bytes };

    ghost remaining = { λ _ run. budget_unused run.run };

    fn begin<L>(
        &self,
        frame: &Bytes,
        steps: &mut Steps<L>,
    ) -> Result<Begun<ChainRun<F::Pending>>, NoMemory> {
        match kind_of(frame.as_slice()) {
            FrameKind::Headed {
                key,
                version,
                body_at,
            } => match open(self.alloc, frame, key, version, body_at)? {
                Opened::Request(envelope, request) => {
                    let silent = envelope.silent;
                    let state = Run::start(self.alloc, self.filters.as_slice(), request, steps)?;
                    let progress = tell(envelope, state)?;
                    Ok(Begun::Request { silent, progress })
                }
                Opened::NoRequest(cause) => Ok(Begun::NoRequest(cause)),
            },
            FrameKind::ToldVersions { correlation_id } => Ok(Begun::Request {
                silent: false,
                progress: Progress::Done(Some(tell_versions(
                    self.alloc,
                    frame.as_slice(),
                    correlation_id,
                )?)),
            }),
            FrameKind::Unsupported { key, version } => {
                Ok(Begun::NoRequest(Cause::UnsupportedApi { key, version }))
            }
            FrameKind::BadHead => Ok(Begun::NoRequest(Cause::BadHead)),
        }
    }

    fn go_on<L>(
        &self,
        run: ChainRun<F::Pending>,
        given: Given<AnswerBody>,
        steps: &mut Steps<L>,
    ) -> Result<Progress<ChainRun<F::Pending>>, NoMemory>
        ensures right { IfOk result (λ progress. (frame : List ℕ) (before : List Outside) → IsUnderway F.turn F.stands self.now.filters.items run frame before
            → IsProgress (chain_meaning (map F.turn self.now.filters.items)) (IsUnderway F.turn F.stands self.now.filters.items) frame (before ++ outside_of answer_bytes given ∷ []) progress) }
        ensures counted { OnOk result (CountsOn (chain_meaning (map F.turn self.now.filters.items)) (IsUnderway F.turn F.stands self.now.filters.items) run (outside_of answer_bytes given) steps.old steps.new) }
        ensures fewer { IfOk result (λ progress. progress_remaining (λ (kept : ChainRun F.Pending). budget_unused kept.run) progress ≤ budget_unused run.run) }
    {
        let outside = run.asked.taken(given)?;
        let envelope = run.envelope;
        let state = run
            .run
            .poll(self.alloc, self.filters.as_slice(), outside, steps)?;
        tell(envelope, state)
    }

    fn read(&self, before: [u8; 4], body: Bytes) -> Result<Result<AnswerBody, Cause>, NoMemory> {
        read_answer(self.alloc, before, body)
    }
}

// What a client is told at once that asks for ApiVersions in another version.
fn tell_versions(alloc: Global, frame: &[u8], correlation_id: i32) -> Result<WholeFrame, NoMemory>
    requires { 8 ≤ length frame.now }
    ensures { IfOk result (λ response. response.bytes ≡ versions_told frame.now) }
{
    let own_id = [frame[4], frame[5], frame[6], frame[7]];
    WholeFrame::of_parts(alloc, &[], own_id, refusal(correlation_id).split_at(8).1)
}
