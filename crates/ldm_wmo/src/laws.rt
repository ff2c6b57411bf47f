//! What holds of all streams. These functions do nothing: their contracts are the laws.
ghost use Rattle.std.specs.Prelude.{◌≡◌, ◌<◌, ◌+◌, ◌^◌, ℕ, List, ◌∷◌, ◌++◌, None, Option, Some, false, drop, length};
ghost use Rattle.ldm_wmo.specs.declared.framing.Framing.TheVariants.{Line, Socket};
ghost use Rattle.ldm_wmo.specs.declared.kind.Kind.{Kind};
ghost use Rattle.ldm_wmo.specs.Bulletins.{bulletin_of};
ghost use Rattle.ldm_wmo.specs.Messages.{messages_of};
ghost use Rattle.ldm_wmo.specs.Spelling.{Holds, IsBulletin};
ghost use Rattle.ldm_wmo.specs.Scanning.{Scanning, after, bytes_taken, is_complete, next_of, outside, place};
ghost use Rattle.ldm_wmo.specs.Items.{Bulletin, Found};
ghost use Rattle.ldm_wmo.specs.Writing.{fault_of, written};
ghost use Rattle.ldm_wmo.specs.Streams.{cut_at_end, given, in_hand, items_in, items_of};

/// How the stream is cut into pieces makes no difference: what two pieces make is what both make as one.
pub fn pieces_join()
    ensures after { (s : Scanning) (a b : List ℕ) → after s (a ++ b) ≡ after (after s a) b }
    ensures items { (s : Scanning) (a b : List ℕ) → items_in s (a ++ b) ≡ items_in s a ++ items_in (in_hand s a) b }
    ensures in_hand { (s : Scanning) (a b : List ℕ) → in_hand s (a ++ b) ≡ in_hand (in_hand s a) b }
{}

/// Who pushes a piece, takes the item where one is complete, forgets it, and goes on with what is left of the piece,
/// gets the items of the stream.
pub fn pushes_scan_the_stream()
    ensures items { (s : Scanning) (piece : List ℕ) → is_complete s ≡ false →
        items_in s piece ≡ given (after s piece) ++ items_in (next_of (after s piece))
        (drop (bytes_taken s piece) piece) }
    ensures in_hand { (s : Scanning) (piece : List ℕ) → is_complete s ≡ false →
        in_hand s piece ≡ in_hand (next_of (after s piece)) (drop (bytes_taken s piece) piece) }
{}

/// The bytes that are a bulletin, by its parts, are read as one, and no others are.
pub fn bulletins_are_read()
    ensures read { (kind : Kind) (bytes : List ℕ) (seqno : ℕ) (heading : List ℕ)
        → IsBulletin kind bytes seqno heading → bulletin_of kind bytes ≡ Some (record { seqno = seqno; heading = heading }) }
    ensures spelled { (kind : Kind) (bytes : List ℕ) (seqno : ℕ) (heading : List ℕ)
        → bulletin_of kind bytes ≡ Some (record { seqno = seqno; heading = heading })
        → IsBulletin kind bytes seqno heading }
{}

/// A written bulletin is found as itself, and the stream goes on behind it.
pub fn written_bulletins_are_found()
    ensures found { (at seqno : ℕ) (heading text rest : List ℕ) → at < 2 ^ 64 → fault_of seqno heading text ≡ None →
        items_in (outside at) (written seqno heading text ++ rest)
        ≡ Bulletin at seqno heading (written seqno heading text) ∷ items_in
        (outside (place (at + length (written seqno heading text)))) rest }
{}

/// What is found in a stream is what it holds, and it holds nothing else: bytes outside candidates, candidates that
/// end, and perhaps one that is cut.
pub fn streams_are_read()
    ensures holds { (stream : List ℕ) → Holds 0 stream (items_of Line stream) (cut_at_end Line stream) }
    ensures once { (stream : List ℕ) (items : List Found) (cut : Option ℕ) → Holds 0 stream items cut
        → (items ≡ items_of Line stream) × (cut ≡ cut_at_end Line stream) }
{}

/// The messages of a stream in frames: what the scanner finds, however the stream is cut, is what the frames of the whole
/// stream hold, and where the frame begins that its end cuts off.
pub fn frames_are_read()
    ensures items { (stream : List ℕ) → items_of Socket stream ≡ (messages_of stream).items }
    ensures cut { (stream : List ℕ) → cut_at_end Socket stream ≡ (messages_of stream).cut }
{}
