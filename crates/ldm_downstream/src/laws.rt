//! What holds of all receivings. These functions do nothing: their contracts are the laws.
ghost use Rattle.std.specs.Prelude.{◌≡◌, ◌≤◌, ◌∷◌, [], ℕ, List, Option, length};
ghost use Rattle.ldm_rpc.specs.Streams.{records_in, in_hand};
ghost use Rattle.ldm_session.specs.declared.limits.TheConstants.{LONGEST_STREAM};
ghost use Rattle.ldm_outside.specs.declared.link.Way.TheVariants.{First, Given, Sent};
ghost use Rattle.ldm_outside.specs.Link.{bytes_given, bytes_sent};
ghost use Rattle.ldm_downstream.specs.declared.limits.TheConstants.{LONGEST_PIECE};
ghost use Rattle.ldm_downstream.specs.InTurn.{Round, given_in, passed_in, sent_in};
ghost use Rattle.ldm_downstream.specs.Pieces.{Piece, arrivals, beginning, hand, joined};
ghost use Rattle.ldm_downstream.specs.Untimed.{untimed};
ghost use Rattle.ldm_outside.specs.Session.{SessionRecord};
ghost use Rattle.ldm_shared.specs.Passes.{PassView};
ghost use Rattle.ldm_intake.specs.declared.end.RecvEnd.{RecvEnd};
ghost use Rattle.ldm_intake.specs.Receiving.{Receiving};
ghost use Rattle.ldm_downstream.specs.Complete.{Accepts, AcceptsReplied, Completes};
ghost use Rattle.ldm_downstream.specs.Receives.{ReceivesAll};

/// A stream that is accepted is received to its end, unless the queue can have no call more, the memory ends, or a
/// fault came.
pub fn accepted_streams_are_received()
    ensures complete { (end : RecvEnd) (last : Option (List ℕ)) (s : Receiving) (ahead : List ℕ) (old new : PassView)
        (before after : SessionRecord) → ReceivesAll end last s ahead old new before after
        → Completes end s ahead old new before after }
    // A stream that is accepted whatever the queue replies is accepted with what it replied.
    ensures whatever { (s : Receiving) (stream : List ℕ) (old new : PassView) → Accepts s stream
        → AcceptsReplied s stream old new }
{}

/// However a stream is cut into pieces, the same records come, each at the same place, and the same is in hand behind
/// them: only the moments are those of the pieces.
pub fn pieces_make_no_difference()
    ensures records { (pieces : List Piece) → length (joined pieces) ≤ LONGEST_STREAM
        → untimed (arrivals beginning pieces) ≡ records_in beginning (joined pieces) }
    ensures in_hand { (pieces : List Piece) → length (joined pieces) ≤ LONGEST_STREAM
        → hand beginning pieces ≡ in_hand beginning (joined pieces) }
{}

/// What passed in rounds: of each first the piece that came, with a mark on its first byte, and then the bytes that
/// were sent. A piece has at most so many bytes.
pub fn rounds_are_told()
    ensures sent { (rounds : List Round) → bytes_sent (passed_in rounds) ≡ sent_in rounds }
    ensures given { (rounds : List Round) → bytes_given (passed_in rounds) ≡ given_in rounds }
    ensures order { passed_in
        (record { given = 1 ∷ 2 ∷ []; sent = 3 ∷ [] } ∷ record { given = 4 ∷ []; sent = [] } ∷ [])
        ≡ record { way = First; byte = 1 } ∷ record { way = Given; byte = 2 } ∷ record { way = Sent; byte = 3 }
        ∷ record { way = First; byte = 4 } ∷ [] }
    ensures longest_piece { LONGEST_PIECE ≡ 262144 }
{}
