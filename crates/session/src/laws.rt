ghost use Rattle.std.specs.Prelude.{◌≡◌, ℕ, List, [], ◌++◌, Bool, Result, Ok, Err, ◌⊎◌, if◌then◌else◌};
ghost use Rattle.kp_edge.specs.declared.no_memory.NoMemory.{NoMemory};
ghost use Rattle.framing.specs.Frames.{IsTail};
ghost use Rattle.framing.specs.Cuts.{Cuts};
ghost use Rattle.conn_rules.specs.History.{Entry, AreFirst, out, sent};
ghost use Rattle.session.specs.declared.peer.Peer.{Peer};
ghost use Rattle.session.specs.declared.told.Told.{Told};
ghost use Rattle.session.specs.Peers.{least_size, most_size, frames_of_peer};
ghost use Rattle.session.specs.Streams.{Stream, fresh_stream, other_peer, IsStreamOf};
ghost use Rattle.session.specs.Pushes.{IsPush};
ghost use Rattle.session.specs.Calls.{IsPiece, IsEnd};

/// However a stream came in pieces, and whenever its frames were handed on: these are its first frames, in order, and the
/// rest stands behind them. Each call of a station keeps that, also where memory was wanting.
pub fn stream_laws()
    ensures opening { (p : Peer) → IsStreamOf [] [] (fresh_stream p) }
    ensures piece { (bytes piece : List ℕ) (hs ks : List Entry) (s t : Stream) (told : Told)
        → IsStreamOf bytes hs s → IsPiece s piece ks (Ok told) t
        → IsStreamOf (if s.ended then bytes else (bytes ++ piece)) (hs ++ ks) t }
    ensures no_memory { (bytes piece : List ℕ) (hs ks : List Entry) (s t : Stream) (e : NoMemory)
        → IsStreamOf bytes hs s → IsPiece s piece ks (Err e) t
        → IsStreamOf (bytes ++ piece) (hs ++ ks) t ⊎ IsStreamOf bytes (hs ++ ks) t }
    ensures push { (bytes : List ℕ) (hs ks : List Entry) (s t : Stream) (result : Result Told NoMemory)
        → IsStreamOf bytes hs s → IsPush s ks result t → IsStreamOf bytes (hs ++ ks) t }
    ensures end { (bytes : List ℕ) (hs ks : List Entry) (s t : Stream) (result : Result Told NoMemory)
        → IsStreamOf bytes hs s → IsEnd s ks result t → IsStreamOf bytes (hs ++ ks) t }
    ensures elsewhere { (bytes : List ℕ) (hs ks : List Entry) (s : Stream)
        → IsStreamOf bytes hs s → frames_of_peer s.peer ks ≡ [] → IsStreamOf bytes (hs ++ ks) s }

    // What is done with one stream hands on nothing of the other.
    ensures other_piece { (s t : Stream) (piece : List ℕ) (ks : List Entry) (result : Result Told NoMemory)
        → IsPiece s piece ks result t → frames_of_peer (other_peer s.peer) ks ≡ [] }
    ensures other_push { (s t : Stream) (ks : List Entry) (result : Result Told NoMemory)
        → IsPush s ks result t → frames_of_peer (other_peer s.peer) ks ≡ [] }
    ensures other_end { (s t : Stream) (ks : List Entry) (result : Result Told NoMemory)
        → IsEnd s ks result t → frames_of_peer (other_peer s.peer) ks ≡ [] }

    // Nor does it give the client anything.
    ensures silent_piece { (s t : Stream) (piece : List ℕ) (ks : List Entry) (told : Told)
        → IsPiece s piece ks (Ok told) t → out ks ≡ [] }
    ensures silent_push { (s t : Stream) (ks : List Entry) (result : Result Told NoMemory)
        → IsPush s ks result t → out ks ≡ [] }
    ensures silent_end { (s t : Stream) (ks : List Entry) (result : Result Told NoMemory)
        → IsEnd s ks result t → out ks ≡ [] }

    // Nor the broker.
    ensures unsent_piece { (s t : Stream) (piece : List ℕ) (ks : List Entry) (told : Told)
        → IsPiece s piece ks (Ok told) t → sent ks ≡ [] }
    ensures unsent_push { (s t : Stream) (ks : List Entry) (result : Result Told NoMemory)
        → IsPush s ks result t → sent ks ≡ [] }
    ensures unsent_end { (s t : Stream) (ks : List Entry) (result : Result Told NoMemory)
        → IsEnd s ks result t → sent ks ≡ [] }

    // Whatever else came behind: these are the first frames of the stream's cut, and all of them once no whole frame
    // is left.
    ensures first { (bytes : List ℕ) (hs : List Entry) (s : Stream) (frames : List (List ℕ)) (tail : List ℕ)
        → IsStreamOf bytes hs s → Cuts (least_size s.peer) (most_size s.peer) bytes frames tail
        → AreFirst (frames_of_peer s.peer hs) frames }
    ensures whole { (bytes : List ℕ) (hs : List Entry) (s : Stream)
        → IsStreamOf bytes hs s → IsTail (least_size s.peer) (most_size s.peer) s.rest
        → Cuts (least_size s.peer) (most_size s.peer) bytes (frames_of_peer s.peer hs) s.rest }
{}
