// Demands 2 and 3 on the line: the receiver over whole runs. A run is a list of events, bytes and calls of the host
// in any order, from any state in range; a new receiver is one.
ghost use Rattle.std.specs.Prelude.{◌≡◌, true, false, List, [], ◌∷◌, ◌++◌, map, ◌⊎◌, ℕ, ◌+◌, ◌*◌, ◌%◌, ◌≤◌, ◌<◌, length, get_or, take, drop, replicate, Some, None};
ghost use Rattle.values.specs.Large.{Values};
ghost use Rattle.block_parity.specs.Parity.{even, with_parity};
ghost use Rattle.block_validity.specs.Block.{Valid};
ghost use Rattle.block_validity.specs.Changed.{flip};
ghost use Rattle.block_maker.specs.Making.{values_of};
ghost use Rattle.block_reader.specs.declared.Verdict.TheVariants.{Repeat};
ghost use Rattle.block_reader.specs.Judging.{verdict, mendable};
ghost use Rattle.block_reader.specs.Claims.{NoneNear, OnlyNear};
ghost use Rattle.line_codes.specs.Codes.{numbers, syn, nack, four, request, Ends, Nowhere};
ghost use Rattle.line_phases.specs.declared.Phase.TheVariants.{Off, Collecting, Waiting};
ghost use Rattle.line_receiver.specs.declared.Receiver.{Receiver};
ghost use Rattle.line_receiver.specs.States.{InReceiver, emptied, new_receiver};
ghost use Rattle.line_receiver.specs.Calls.{silent, stepped, switched_on, switched_off, asked_again};
ghost use Rattle.line_receiver.specs.Runs.{Event, byte, on, obey, run, Sent, sent_by, sent, all_passed, all_asked};
ghost use Rattle.line_receiver.specs.Runs.{switches, unswitched, bytes_of, blocks_in, blocks_since};
ghost use Rattle.line_receiver.specs.Page.{passes, asks, at_last, while_waiting, Stand, Course};
ghost use Rattle.line_receiver.specs.Standing.{stand_of, IsWaiting, Stands, asked_in};
ghost use Rattle.line_receiver.specs.Alike.{Alike, AlikeSteps};
ghost use Rattle.line_receiver.specs.Line.{blocks_for, made_of, filled, joined, Arrives, Twice, Sending};

// A run over some events and then others is the run over the first, then over the others; what goes out is joined.
pub fn a_run_is_the_run_over_its_parts()
    ensures { (es fs : List Event) (r : Receiver) → (run r (es ++ fs) ≡ run (run r es) fs)
        × (sent r (es ++ fs) ≡ sent r es ++ sent (run r es) fs) }
{}

// At every moment the number is that of the blocks accepted since the last switching, modulo 16; where there was
// none, they are counted on from the number at the start. A call that is no switching moves it by the blocks accepted
// there: by one, or not at all.
pub fn the_number_counts_accepted_blocks()
    ensures counted { (r : Receiver) → InReceiver r → (es : List Event)
        → (run r es).number ≡ blocks_since r.number r es % 16 }
    ensures anew { (es : List Event) → (run new_receiver es).number ≡ blocks_since 0 new_receiver es % 16 }
    ensures moves { (r : Receiver) → InReceiver r → (e : Event) → switches e ≡ false
        → (obey e r).next.number ≡ (r.number + blocks_in (sent_by (obey e r))) % 16 }
{}

// Off, a value with parity passes as that value, and a byte of odd parity as 7/F; nothing else goes out, and the state
// stays.
pub fn while_off_each_byte_passes_by_itself()
    ensures even { (r : Receiver) → InReceiver r → r.phase ≡ Off → (v : ℕ) → v < 128
        → ((stepped r (with_parity v)).next ≡ r)
        × (sent_by (stepped r (with_parity v)) ≡ passes (v ∷ []) None) }
    ensures odd { (r : Receiver) → InReceiver r → r.phase ≡ Off → (b : ℕ) → even b ≡ false
        → ((stepped r b).next ≡ r) × (sent_by (stepped r b) ≡ passes (127 ∷ []) None) }
{}

// At any call nothing is asked; or NACK and 4/X are, with parity, X the number awaited, which stays, and the receiver
// waits. Asking again changes nothing, gives the request in waiting and nothing elsewhere. The sixteen requests are
// written out, for the numbers 0 to 15.
pub fn a_request_names_the_awaited_block()
    ensures codes { (syn ≡ with_parity 22) × (nack ≡ with_parity 21) }
    ensures spelled { map request numbers
        ≡ (149 ∷ 192 ∷ []) ∷ (149 ∷ 65 ∷ []) ∷ (149 ∷ 66 ∷ []) ∷ (149 ∷ 195 ∷ [])
        ∷ (149 ∷ 68 ∷ []) ∷ (149 ∷ 197 ∷ []) ∷ (149 ∷ 198 ∷ []) ∷ (149 ∷ 71 ∷ [])
        ∷ (149 ∷ 72 ∷ []) ∷ (149 ∷ 201 ∷ []) ∷ (149 ∷ 202 ∷ []) ∷ (149 ∷ 75 ∷ [])
        ∷ (149 ∷ 204 ∷ []) ∷ (149 ∷ 77 ∷ []) ∷ (149 ∷ 78 ∷ []) ∷ (149 ∷ 207 ∷ []) ∷ [] }
    ensures fact { (r : Receiver) → InReceiver r → (e : Event) → ((sent_by (obey e r)).asked ≡ [])
        ⊎ (((sent_by (obey e r)).asked ≡ request r.number) × ((obey e r).next.number ≡ r.number)
        × IsWaiting (obey e r).next) }
    ensures again { (r : Receiver) → InReceiver r → ((asked_again r).next ≡ r)
        × (sent_by (asked_again r) ≡ asked_in r.phase r.number) }
{}

// Every run follows the page, rule by rule: what goes out at each event, what was judged there, and where the
// receiver stands, the bytes held being those since the stretch began. And the page says one thing only.
pub fn every_run_follows_the_page()
    ensures course { (r : Receiver) → InReceiver r → (es : List Event)
        → (t : Stand) × Course (stand_of r) es (sent r es) t × Stands (run r es) t }
    ensures once { (s t u : Stand) (es : List Event) (os ps : List Sent)
        → Course s es os t → Course s es ps u → (os ≡ ps) × (t ≡ u) }
{}

// Seventeen bytes from where a stretch begins, for any number: where one valid block is near, its fifteen values pass
// at the seventeenth and the next block is awaited; where none is, the request goes out there and the receiver waits.
// No other of the bytes passes or asks anything.
pub fn each_seventeenth_byte_is_judged()
    ensures near { (x : ℕ) (B : List ℕ) → x < 16 → length B ≡ 17 → (C : List ℕ) → OnlyNear B C
        → (run (emptied x Collecting) (map byte B) ≡ emptied ((x + 1) % 16) Collecting)
        × (sent (emptied x Collecting) (map byte B) ≡ at_last (passes (values_of C) (Some (verdict B)))) }
    ensures none { (x : ℕ) (B : List ℕ) → x < 16 → length B ≡ 17 → NoneNear B
        → (run (emptied x Collecting) (map byte B) ≡ emptied x (Waiting 0))
        × (sent (emptied x Collecting) (map byte B) ≡ at_last (asks x (Some Repeat))) }
{}

// Up to the next switching: while SYN, SYN, 4/X of the awaited number stand nowhere in the bytes, the receiver waits,
// nothing goes out at a byte, and the request at each asking. The byte at which they first stand last sends nothing
// and begins a stretch for block X. (A state handed in with n codes seen is as one that has just heard n SYN.)
pub fn waiting_ends_at_the_first_resumption()
    ensures { (r : Receiver) → InReceiver r → (n : ℕ) → r.phase ≡ Waiting n
        → (ts : List Event) → unswitched ts ≡ true → Nowhere r.number (replicate n syn ++ bytes_of ts)
        → IsWaiting (run r ts) × ((run r ts).number ≡ r.number) × (sent r ts ≡ map (while_waiting r.number) ts)
        × ((b : ℕ) → Ends r.number (replicate n syn ++ bytes_of ts ++ (b ∷ []))
        → stepped (run r ts) b ≡ silent (emptied r.number Collecting)) }
{}

// Switching on, also when on, gives collecting; switching off gives off; both with number 0, nothing held or seen,
// and nothing goes out.
pub fn switching_starts_afresh()
    ensures { (r : Receiver) → InReceiver r → (switched_on r ≡ silent (emptied 0 Collecting))
        × (switched_off r ≡ silent (emptied 0 Off)) }
{}

// Two states equal but for the places past the bytes held, in range or not: whatever happens to both, every call
// answers, passes, asks and judges the same, and the next states are equal but for those places.
pub fn places_past_the_held_never_matter()
    ensures { (r q : Receiver) → Alike r q → (es : List Event) (e : Event)
        → AlikeSteps (obey e (run r es)) (obey e (run q es)) }
{}

// The line whole. Any values are cut into fifteens and made into blocks; a receiver just switched on hears them.
// Each block hit at no bit or at one mendable bit: what passes is the values, filled up with NUL, and nothing is
// asked. Block j the first for which other bytes arrive, seventeen near which no valid block is: the blocks before it
// have passed and one request has gone out, for j modulo 16, whatever arrives, until SYN, SYN, 4/j; then the blocks
// from j on pass, so that each has passed once, and nothing more is asked. What arrives until then must nowhere spell
// SYN, SYN, 4/j itself: a block still on its way that did would end the waiting. Lines that meet this exist: the made
// blocks themselves, each of them valid.
pub fn the_line_comes_through_whole()
    ensures whole { (r : Receiver) → InReceiver r → (vs bs : List ℕ) → Values vs → Arrives (made_of vs) bs
        → (all_passed (sent r (on ∷ map byte bs)) ≡ filled vs) × (all_asked (sent r (on ∷ map byte bs)) ≡ []) }
    ensures asked { (vs : List ℕ) (j : ℕ) (hit : List ℕ) → Values vs → j < blocks_for vs
        → length hit ≡ 17 → NoneNear hit
        → (before noise : List ℕ) → Arrives (take j (made_of vs)) before → Nowhere (j % 16) noise
        → (r : Receiver) → InReceiver r → let heard = before ++ hit ++ noise in
        (all_passed (sent r (on ∷ map byte heard)) ≡ take (15 * j) (filled vs))
        × (all_asked (sent r (on ∷ map byte heard)) ≡ request (j % 16)) }
    ensures once { (vs : List ℕ) (j : ℕ) (hit : List ℕ) → Values vs → j < blocks_for vs
        → length hit ≡ 17 → NoneNear hit
        → (before noise : List ℕ) → Arrives (take j (made_of vs)) before → Nowhere (j % 16) noise
        → (r : Receiver) → InReceiver r → (after : List ℕ) → Arrives (drop j (made_of vs)) after
        → let heard = before ++ hit ++ noise ++ (syn ∷ syn ∷ four (j % 16) ∷ after) in
        (all_passed (sent r (on ∷ map byte heard)) ≡ filled vs)
        × (all_asked (sent r (on ∷ map byte heard)) ≡ request (j % 16)) }
    ensures met { ((vs : List ℕ) → Arrives (made_of vs) (joined (made_of vs))) × ((x : ℕ) → Nowhere x [])
        × ((vs : List ℕ) (j : ℕ) → Values vs → j < blocks_for vs → Valid (get_or (made_of vs) j [])) }
{}

// However often a block is refused and sent again, whatever is on its way before the sender begins again, so long as
// that nowhere spells SYN, SYN, 4/X of the awaited number: each block passes once, in its order, and one request has
// gone out for each of those refused, naming it. So a resent block is never taken for a new one. A valid block hit at
// any two different bits of all 136 is so refused, and one hit once at a bit that is not mendable.
pub fn a_resent_block_passes_once()
    ensures once { (r : Receiver) → InReceiver r → (vs bs qs : List ℕ) → Values vs → Sending 0 (made_of vs) bs qs
        → (all_passed (sent r (on ∷ map byte bs)) ≡ filled vs) × (all_asked (sent r (on ∷ map byte bs)) ≡ qs) }
    ensures twice { (W B : List ℕ) → Valid W → Twice W B → (length B ≡ 17) × NoneNear B }
    ensures alone { (W : List ℕ) (k : ℕ) → Valid W → mendable ≤ k → k < 136
        → (length (flip k W) ≡ 17) × NoneNear (flip k W) }
{}
