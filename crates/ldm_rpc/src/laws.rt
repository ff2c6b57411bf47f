//! What holds of all streams. These functions do nothing: their contracts are the laws.
ghost use Rattle.std.specs.Prelude.{◌≡◌, ℕ, ◌+◌, ◌<◌, ◌≤◌, Bool, true, false, not, List};
ghost use Rattle.std.specs.Prelude.{[], ◌∷◌, ◌++◌, length, drop, take, Some, All};
ghost use Rattle.std.specs.List.{flat_map};
ghost use Rattle.ldm_rpc.specs.declared.fault.RpcFault.TheVariants.{TooLong};
ghost use Rattle.ldm_rpc.specs.declared.stage.Stage.TheVariants.{Faulty};
ghost use Rattle.ldm_rpc.specs.declared.stage.TheConstants.{LAST_FRAGMENT};
ghost use Rattle.ldm_rpc.specs.Reading.{Reading, after, begun, bytes_taken, is_open};
ghost use Rattle.ldm_rpc.specs.Reading.{is_pending, is_whole, place, whole_of};
ghost use Rattle.ldm_rpc.specs.Spelling.{Record, Fits, IsShort, content, fragments, header, joined, spelling};
ghost use Rattle.ldm_types.specs.Info.{AreBytes};
ghost use Rattle.ldm_rpc.specs.Fronts.{Splits};
ghost use Rattle.ldm_rpc.specs.Streams.{Position, at_start, before_record, forgets, given, in_hand, placed, records_in};

/// How a stream is cut into pieces makes no difference: what two pieces make is what both make as one.
pub fn pieces_join()
    ensures after { (s : Reading) (a b : List ℕ) → after s (a ++ b) ≡ after (after s a) b }
    ensures taken { (s : Reading) (a b : List ℕ)
        → bytes_taken s (a ++ b) ≡ bytes_taken s a + bytes_taken (after s a) b }
    ensures records { (p : Position) (a b : List ℕ)
        → records_in p (a ++ b) ≡ records_in p a ++ records_in (in_hand p a) b }
    ensures in_hand { (p : Position) (a b : List ℕ) → in_hand p (a ++ b) ≡ in_hand (in_hand p a) b }
{}

/// Who pushes a piece, takes the record where it is complete, forgets it, and goes on with what is left of the piece,
/// gets the records of the stream. Who counts the bytes that were taken has the place of each.
pub fn pushes_read_the_stream()
    ensures records { (p : Position) (piece : List ℕ) → is_whole p.reading ≡ false →
        records_in p piece ≡ given p.begins (after p.reading piece)
        ++ records_in (forgets p.begins (p.came + bytes_taken p.reading piece) (after p.reading piece))
        (drop (bytes_taken p.reading piece) piece) }
    ensures in_hand { (p : Position) (piece : List ℕ) → is_whole p.reading ≡ false →
        in_hand p piece ≡ in_hand (forgets p.begins (p.came + bytes_taken p.reading piece) (after p.reading piece))
        (drop (bytes_taken p.reading piece) piece) }
    // Bytes are taken as long as the record is not complete and there is no fault, and no longer.
    ensures until { (s : Reading) (piece : List ℕ) (n : ℕ) → n < bytes_taken s piece
        → is_open (after s (take n piece)) ≡ true }
    ensures up_to { (s : Reading) (piece : List ℕ) → after s (take (bytes_taken s piece) piece) ≡ after s piece }
{}

/// A record is pending from its first byte on until it is complete, and so is one that was refused.
pub fn pending_from_the_first_byte()
    ensures none { (limit : ℕ) → is_pending (after (begun limit) []) ≡ false }
    ensures some { (limit byte : ℕ) (bytes : List ℕ)
        → is_pending (after (begun limit) (byte ∷ bytes)) ≡ not (is_whole (after (begun limit) (byte ∷ bytes))) }
{}

/// A record whose content is within the limit is read whole and no further, whatever follows it, and gives its
/// content. So are records one behind the other, each at the place where its first fragment begins.
pub fn records_are_read()
    ensures whole { (limit : ℕ) (r : Record) (rest : List ℕ) → Fits limit r
        → whole_of (after (begun limit) (spelling r ++ rest)) ≡ Some (content r) }
    ensures taken { (limit : ℕ) (r : Record) (rest : List ℕ) → Fits limit r
        → bytes_taken (begun limit) (spelling r ++ rest) ≡ length (spelling r) }
    ensures records { (limit at : ℕ) (records : List Record) (rest : List ℕ) → All (Fits limit) records →
        records_in (before_record limit at) (flat_map spelling records ++ rest)
        ≡ placed at records ++ records_in (before_record limit (at + length (flat_map spelling records))) rest }
    ensures in_hand { (limit at : ℕ) (records : List Record) (rest : List ℕ) → All (Fits limit) records →
        in_hand (before_record limit at) (flat_map spelling records ++ rest) ≡ in_hand
        (before_record limit (at + length (flat_map spelling records))) rest }
{}

/// A record whose content would exceed the limit is refused at the first header that makes it so. The place told
/// is the number of the record's bytes before that header.
pub fn too_long_at_the_header()
    ensures fault { (limit : ℕ) (before : List (List ℕ)) (last : Bool) (len : ℕ) (rest : List ℕ) →
        All IsShort before → len < LAST_FRAGMENT → length (joined before) ≤ limit
        → limit < length (joined before) + len →
        (after (begun limit) (fragments before ++ header last len ++ rest)).stage ≡ Faulty
        (TooLong (place (length (fragments before)))) }
    ensures taken { (limit : ℕ) (before : List (List ℕ)) (last : Bool) (len : ℕ) (rest : List ℕ) →
        All IsShort before → len < LAST_FRAGMENT → length (joined before) ≤ limit
        → limit < length (joined before) + len →
        bytes_taken (begun limit) (fragments before ++ header last len ++ rest) ≡ length (fragments before) + 4 }
{}

/// The same bytes begin with at most one record, and no record is a proper front of another. So a stream is in one
/// way records, and a rest that completes none.
pub fn no_record_begins_another()
    ensures one { (limit : ℕ) (a b : Record) (x y : List ℕ) → Fits limit a → Fits limit b
        → spelling a ++ x ≡ spelling b ++ y → (a ≡ b) × (x ≡ y) }
    ensures no_longer { (limit : ℕ) (a b : Record) (rest : List ℕ) → Fits limit a → Fits limit b
        → spelling b ≡ spelling a ++ rest → rest ≡ [] }
    ensures one_way { (limit : ℕ) (xs ys : List Record) (x y : List ℕ) → All (Fits limit) xs → All (Fits limit) ys →
        records_in (at_start limit) x ≡ [] → records_in (at_start limit) y ≡ [] →
        flat_map spelling xs ++ x ≡ flat_map spelling ys ++ y → (xs ≡ ys) × (x ≡ y) }
{}

/// Every stream is records, which come out, each with its content and the place where it begins, and then the front of
/// a record or one that is too long, which begins behind them: no content comes out that is not spelled there. That
/// there is but one such way is [`no_record_begins_another`].
pub fn what_is_read_is_spelled()
    ensures { (limit : ℕ) (stream : List ℕ) → AreBytes stream
        → Splits limit 0 stream (records_in (at_start limit) stream) (in_hand (at_start limit) stream) }
{}
