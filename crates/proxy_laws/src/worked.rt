ghost use Rattle.std.specs.Prelude.{◌≡◌, [], ◌∷◌, true, false, pos, replicate, Some, All};
ghost use Rattle.filter_core.specs.Laws.{IsLawful};
ghost use Rattle.side_requests.specs.declared.ask.Ask.TheVariants as ask;
ghost use Rattle.filter_chain.specs.Outcomes.{Needs, Completed, NeverEnds, run, turns};
ghost use Rattle.filter_probes.specs.Probes.{probe_heartbeat, metadata, heartbeat_error};
ghost use Rattle.proxy_laws.specs.Coming.{MayHaveCome};
ghost use Rattle.proxy_laws.specs.WorkedChain.{worked_filters, restless, empty_cluster, metadata_came, heartbeat_came};

/// A chain of two probes goes as it was worked through by hand: Metadata is asked aside, the Heartbeat goes on, and its
/// response comes back changed, after three turns of the first and four of the second. Beside it stands what the laws keep out.
pub fn worked_chain()
    ensures lawful { All IsLawful worked_filters }

    ensures asks_aside { run worked_filters probe_heartbeat [] ≡ Needs (ask.Broker metadata false) }
    ensures sends_itself { run worked_filters probe_heartbeat (metadata_came ∷ []) ≡ Needs (ask.Broker probe_heartbeat true) }
    ensures completes { run worked_filters probe_heartbeat (metadata_came ∷ heartbeat_came ∷ []) ≡ Completed (Some (heartbeat_error (pos 77))) }
    ensures seven_turns { turns worked_filters probe_heartbeat (metadata_came ∷ heartbeat_came ∷ []) ≡ 7 }

    // What came is of the kind that was asked for, and the other answer could not have come first.
    ensures may_come { MayHaveCome worked_filters probe_heartbeat (metadata_came ∷ heartbeat_came ∷ []) }
    ensures in_no_other_order { MayHaveCome worked_filters probe_heartbeat (heartbeat_came ∷ metadata_came ∷ []) → ⊥ }

    // What may not come could give the Heartbeat a Metadata's response, and an unlawful filter may have no end.
    ensures foreign { run worked_filters probe_heartbeat (heartbeat_came ∷ metadata_came ∷ []) ≡ Completed (Some empty_cluster) }
    ensures without_an_end { run (restless ∷ []) probe_heartbeat (replicate 7 metadata_came) ≡ NeverEnds 0 }
{}
