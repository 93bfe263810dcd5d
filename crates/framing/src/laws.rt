//! What holds of the cutting of streams itself.

ghost use Rattle.std.specs.Prelude.{◌≡◌, ℕ, ◌<◌, ◌⊎◌, ℤ, List, ◌++◌, length, Some, All};
ghost use Rattle.std.specs.List.{flat_map};
ghost use Rattle.framing.specs.Frames.{sized, IsFrame, BeginsFrame, IsTail, bad_size};
ghost use Rattle.framing.specs.Cuts.{Cuts};
ghost use Rattle.framing.specs.Feed.{Feed};
ghost use Rattle.framing.specs.FramerHistory.{FramerEvent, IsFramerHistory, fresh_feed, stream, given};

/// A stream is cut in one way.
pub fn one_cut()
    ensures { (least most : ℕ) (stream : List ℕ)
        (frames others : List (List ℕ)) (tail rest : List ℕ)
        → Cuts least most stream frames tail → Cuts least most stream others rest
        → (frames ≡ others) × (tail ≡ rest) }
{}

/// Frames that stand at the front of a stream are the first of its cut.
pub fn first_frames_of_a_cut()
    ensures { (least most : ℕ) (stream : List ℕ)
        (given frames : List (List ℕ)) (rest tail : List ℕ)
        → All (IsFrame least most) given → stream ≡ flat_map sized given ++ rest
        → Cuts least most stream frames tail
        → (others : List (List ℕ)) × (frames ≡ given ++ others) }
{}

/// The cut of a stream is that of its pieces, wherever they end.
pub fn cut_in_pieces()
    ensures { (least most : ℕ) (stream piece : List ℕ)
        (frames more : List (List ℕ)) (tail rest : List ℕ)
        → Cuts least most stream frames tail → Cuts least most (tail ++ piece) more rest
        → Cuts least most (stream ++ piece) (frames ++ more) rest }
{}

/// Each stream of bytes has a cut.
pub fn each_stream_has_a_cut()
    ensures { (least most : ℕ) (stream : List ℕ) → All (λ byte. byte < 256) stream
        → (frames : List (List ℕ)) × (tail : List ℕ) × Cuts least most stream frames tail }
{}

/// What is at the front begins a frame, or is a tail, and never both.
pub fn frame_or_tail()
    ensures one { (least most : ℕ) (bytes : List ℕ) → All (λ byte. byte < 256) bytes
        → BeginsFrame least most bytes ⊎ IsTail least most bytes }
    ensures not_both { (least most : ℕ) (bytes : List ℕ)
        → BeginsFrame least most bytes → IsTail least most bytes → ⊥ }
{}

/// A bad size stays, whatever is fed behind it.
pub fn bad_size_stays()
    ensures { (least most : ℕ) (bytes piece : List ℕ) (size : ℤ)
        → bad_size least most bytes ≡ Some size → bad_size least most (bytes ++ piece) ≡ Some size }
{}

/// However a stream was fed and whenever frames were asked for: they are the frames of its cut so
/// far, and once no whole frame is left they are all of them.
pub fn frames_of_a_run()
    ensures place { (least most : ℕ) (events : List FramerEvent) (end : Feed)
        → IsFramerHistory (fresh_feed least most) events end
        → end.at ≡ length (flat_map sized (given events)) }
    ensures so_far { (least most : ℕ) (events : List FramerEvent) (end : Feed)
        → IsFramerHistory (fresh_feed least most) events end
        → stream events ≡ flat_map sized (given events) ++ end.rest }
    ensures each { (least most : ℕ) (events : List FramerEvent) (end : Feed)
        → IsFramerHistory (fresh_feed least most) events end
        → All (IsFrame least most) (given events) }
    ensures all { (least most : ℕ) (events : List FramerEvent) (end : Feed)
        → IsFramerHistory (fresh_feed least most) events end → IsTail least most end.rest
        → Cuts least most (stream events) (given events) end.rest }
{}
