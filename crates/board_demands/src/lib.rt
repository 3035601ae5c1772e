// What Outaksel promises of one hut. Each function here does nothing: its contract is a theorem about what the crates
// of the board define, so that the check's log names it. Their words are those of crates/board/specs/Runs.antt and of
// Pieces.antt, Claims.antt and Cuts.antt in crates/board_pieces/specs, and each is proved in the crate whose words it
// speaks. specs/Example is one page in bytes.
#![tactic(auto)]

ghost use Rattle.std.specs.Prelude.{◌≡◌, Ok, Bool, true, false, cond, List, [], ◌∷◌, ◌++◌, map, ℕ, ◌≤◌, ◌<◌, length, replicate};
ghost use Rattle.values.specs.Large.{Values};
ghost use Rattle.links_wiring.specs.declared.Module.{Module};
ghost use Rattle.links_wiring.specs.declared.Module.TheVariants.{Screen, Keyboard, Modem, Socket};
ghost use Rattle.links_wiring.specs.Tables.{reaches};
ghost use Rattle.links_replies.specs.Replies.{statuses_of};
ghost use Rattle.links_hearing.specs.declared.Unfinished.TheVariants.{Free};
ghost use Rattle.links_hearing.specs.Phrases.{Phrase, AllProper, all_values, all_flowing, Phrased};
ghost use Rattle.line_phases.specs.declared.Phase.TheVariants.{Off};
ghost use Rattle.line_receiver.specs.States.{in_range as receiver_in_range};
ghost use Rattle.line_receiver.specs.Calls.{stepped};
ghost use Rattle.line_receiver.specs.Runs.{Event as Heard, byte, on, obey as receiver_obey, sent_by};
ghost use Rattle.line_receiver.specs.Line.{made_of, filled, joined, Sending};
ghost use Rattle.links_hearing.specs.declared.ears.Ear.{Ear};
ghost use Rattle.links_hearing.specs.declared.ears.Ear.TheVariants.{Modem as modem, Socket as port};
ghost use Rattle.links.specs.declared.Links.{Links};
ghost use Rattle.links.specs.States.{unfinished, in_range as links_in_range};
ghost use Rattle.links.specs.Runs.{Throughout};
ghost use Rattle.screen_answers.specs.Answers.{Taken as TakenByScreen};
ghost use Rattle.screen.specs.Calls.{ran};
ghost use Rattle.links.specs.declared.Refusal.TheVariants.{TooLarge, Broken};
ghost use Rattle.links.specs.Calls.{told};
ghost use Rattle.board_feeding.specs.Feeding.{from_line, nobody, fed, Enough};
ghost use Rattle.board.specs.declared.Board.{Board};
ghost use Rattle.board.specs.Boards.{fresh_board, in_range, front_of};
ghost use Rattle.board.specs.Calls.{refused, joined as joined_of, at_line, switched_on};
ghost use Rattle.board.specs.Pages.{NoCommand};
ghost use Rattle.board.specs.Runs.{Event, front, key, socket, to_local, to_connected, obey, run, out_to, request};
ghost use Rattle.board.specs.Runs.{handed_to, requests, heard_in, calls_in, Outside};
ghost use Rattle.board.specs.Runs.{Goes, InBoard, Unmoved, too_large, call_told};
ghost use Rattle.board_front.specs.declared.Room.{Room};
ghost use Rattle.board_front.specs.declared.Front.{Front};
ghost use Rattle.board_front.specs.Ample.{Ample};
ghost use Rattle.board_front.specs.LineBytes.{heard_by, unheard};
ghost use Rattle.board_pieces.specs.Pieces.{told as piece_told, lines_of, lines_told, is_taken, singly, handed, asked};
ghost use Rattle.board_pieces.specs.Pieces.{refused as piece_refused};
ghost use Rattle.board_pieces.specs.declared.Refusal.TheVariants.{NoRoom, Broken as PieceBroken};
ghost use Rattle.board_pieces.specs.Noted.{noted, noted_of, noted_told, is_noted};
ghost use Rattle.board_pieces.specs.Claims.{TakenWhole, NothingTaken, RoomFor};
ghost use Rattle.board_pieces.specs.Cuts.{second_taken, InTwo};
ghost use Rattle.board_demands.specs.Example.{arrived, wanted, white, shown};

// In every run of a board in range each part goes its own way: the receiver hears the line bytes, switchings and
// askings alone, the links are told the values that it passes on and those of keyboard, socket and host, in order, the
// screen takes what the links send it, refusing nothing; what each call hands out is what the parts hand out.
pub fn each_part_goes_its_own_way()
    ensures { (b : Board) → InBoard b → (es : List Event)
        → Goes b (run b es) (heard_in es) (calls_in b.receiver es) (λ m. handed_to m b es) (requests b es) }
{}

// One call on a board in range. A byte, a switching or an asking is the receiver's own call, and what that asks is what
// the board hands out to be asked. A key, and a value other than ESC from the socket with nothing unfinished there, is
// handed out to just the modules that keyboard or socket is linked to, and shown where that is linked to the screen. The
// host's choice gives the local or the connected table, told by the statuses of screen, keyboard, modem and socket.
pub fn each_call_reaches_its_part()
    ensures line { (h : Heard) (b : Board) → InBoard b
        → ((obey (front h) b).next.receiver ≡ (receiver_obey h b.receiver).next)
        × (request (obey (front h) b) ≡ (sent_by (receiver_obey h b.receiver)).asked) }
    ensures keys { (b : Board) → InBoard b → (v : ℕ) → v < 128 → ((m : Module) → Outside m
        → out_to m (obey (key v) b) ≡ cond (reaches b.links.table Keyboard m) (v ∷ []) [])
        × ((obey (key v) b).next.screen
        ≡ (ran b.screen (cond (reaches b.links.table Keyboard Screen) (v ∷ []) [])).screen) }
    ensures socket { (b : Board) → InBoard b → unfinished b.links port ≡ Free → (v : ℕ) → v < 128
        → (v ≡ 27 → ⊥) → ((m : Module) → Outside m
        → out_to m (obey (socket v) b) ≡ cond (reaches b.links.table Socket m) (v ∷ []) [])
        × ((obey (socket v) b).next.screen
        ≡ (ran b.screen (cond (reaches b.links.table Socket Screen) (v ∷ []) [])).screen) }
    ensures tables { (b : Board) → InBoard b
        → (statuses_of (obey to_local b).next.links.table ≡ 77 ∷ 66 ∷ 70 ∷ 74 ∷ [])
        × (statuses_of (obey to_connected b).next.links.table ≡ 69 ∷ 66 ∷ 78 ∷ 76 ∷ []) }
{}

// The page shown is the page sent. Values are made into blocks and arrive as `Sending` allows, hit, resent and all; a
// board in range, with nothing unfinished from the modem, is switched on and hears them; and the modem is linked to the
// screen at each of the values, filled up with NUL. Then the screen shows what its own run over these shows, with the
// commands taken out, and it takes them all; and what the board asked is what the sender was asked for. The same holds
// where the bytes are handed in as one piece, with room enough. (Any values are phrases, and then the beginning of one:
// theorem `all_but_the_commands_comes_through`.) Such lines and boards exist: a page without commands, on any line that
// hits nothing, and any such board whose modem is linked to the screen when it begins, as a fresh one is; and one page
// in bytes, with a block resent.
pub fn the_page_shown_is_the_page_sent()
    ensures by_index { (vs bs qs : List ℕ) → Values vs → Sending 0 (made_of vs) bs qs
        → (b : Board) → InBoard b → unfinished b.links modem ≡ Free
        → (p : Phrased (filled vs)) → Throughout Modem Screen b.links (from_line (filled vs))
        → ((run b (map front (on ∷ map byte bs))).screen ≡ (ran b.screen (all_flowing p.phrases)).screen)
        × ((ran b.screen (all_flowing p.phrases)).answer ≡ TakenByScreen)
        × (requests b (map front (on ∷ map byte bs)) ≡ qs) }
    ensures piece { (vs bs qs : List ℕ) → Values vs → Sending 0 (made_of vs) bs qs
        → (b : Board) → InBoard b → unfinished b.links modem ≡ Free
        → (p : Phrased (filled vs)) → Throughout Modem Screen b.links (from_line (filled vs))
        → (r : Room) → let c = (switched_on b).next in is_taken c bs r ≡ true
        → ((lines_of c bs r).next.screen ≡ (ran b.screen (all_flowing p.phrases)).screen) × (asked c bs ≡ qs) }
    ensures met { (vs : List ℕ) (ps : List Phrase) → Values vs → filled vs ≡ all_values ps
        → AllProper ps → NoCommand ps → (b : Board) → InBoard b → unfinished b.links modem ≡ Free
        → reaches b.links.table Modem Screen ≡ true
        → Sending 0 (made_of vs) (joined (made_of vs)) [] × Throughout Modem Screen b.links (from_line (filled vs)) }
    ensures example { ((run fresh_board (map front (on ∷ map byte arrived))).screen.cells ≡ shown)
        × (requests fresh_board (map front (on ∷ map byte arrived)) ≡ wanted) }
{}

// A fresh board: the receiver off, number 0, nothing held; the local table, told by the statuses of screen, keyboard,
// modem and socket, and nothing unfinished from modem or socket; 1,000 blank cells, and the cursor at row 1, column 1,
// hidden. So its modem is linked to the screen.
pub fn a_fresh_board_is_off_local_and_blank()
    ensures off { (fresh_board.receiver.phase ≡ Off) × (fresh_board.receiver.number ≡ 0)
        × (fresh_board.receiver.count ≡ 0) }
    ensures local { (statuses_of fresh_board.links.table ≡ 77 ∷ 66 ∷ 70 ∷ 74 ∷ [])
        × ((e : Ear) → unfinished fresh_board.links e ≡ Free)
        × (reaches fresh_board.links.table Modem Screen ≡ true) }
    ensures blank { (fresh_board.screen.cells ≡ replicate 1000 (white 1 32))
        × (fresh_board.screen.pen.here.place.row ≡ 1) × (fresh_board.screen.pen.here.place.column ≡ 1)
        × (fresh_board.screen.pen.shown ≡ false) }
{}

// A fresh board is in range, and from a board in range every run stays there. The test that the calls make says exactly
// which boards are in range, their arrays being as long as every board's are.
pub fn every_event_keeps_the_range()
    ensures anew { InBoard fresh_board }
    ensures runs { (b : Board) → InBoard b → (es : List Event) → InBoard (run b es) }
    ensures tested { (b : Board) → InBoard b → in_range b ≡ true }
    ensures passed { (b : Board) → length b.receiver.held ≡ 17 → length b.screen.cells ≡ 1000
        → in_range b ≡ true → InBoard b }
{}

// A call's number, and the place that it names, come of the paper's conditions in their order: 5 where any part is out
// of range, then 2 for a key or a socket's value above 127, and else 0; a line byte is never 2. After a refusal the
// board handed in comes back, and nothing is handed out.
pub fn each_call_gives_its_number()
    ensures number { (e : Event) (b : Board) → told (obey e b).answer ≡ call_told e b }
    ensures broken { (e : Event) (b : Board) → in_range b ≡ false → obey e b ≡ refused b Broken }
    ensures large { (e : Event) (b : Board) → in_range b ≡ true → too_large e ≡ true
        → obey e b ≡ refused b TooLarge }
    ensures unmoved { (e : Event) (b : Board) → ((obey e b).answer ≡ Ok tt → ⊥) → Unmoved b (obey e b) }
{}

// A piece's number: 5 where any part is out of range, then 4 where an output lacks room, and else 0; there is room
// where each output has as many places as single calls hand out bytes there. A piece that is taken is the single calls,
// one for each byte: the board after them, and as many bytes written as they hand out; an output begins with what is
// handed out there, and is as it was behind it. A piece that is not taken leaves the board and every output as they
// were.
pub fn a_piece_gives_its_number()
    ensures number { (b : Board) (xs : List ℕ) (r : Room) → piece_told (lines_of b xs r).answer ≡ lines_told b xs r }
    ensures room { (b : Board) (xs : List ℕ) (r : Room)
        → (is_taken b xs r ≡ true → (in_range b ≡ true) × RoomFor b xs r)
        × (in_range b ≡ true → RoomFor b xs r → is_taken b xs r ≡ true) }
    ensures whole { (b : Board) (xs : List ℕ) (r : Room) → is_taken b xs r ≡ true → TakenWhole b xs r }
    ensures kept { (b : Board) (xs : List ℕ) (r : Room) → is_taken b xs r ≡ false → NothingTaken b xs r }
{}

// Outputs that surely suffice, whatever the bytes: for a piece of n on a board in range, five places for each of n and
// sixteen for keyboard, modem and socket, and two for each of n for requests. The piece is then taken.
pub fn such_outputs_surely_suffice()
    ensures { (b : Board) → InBoard b → (xs : List ℕ) (r : Room) → Ample (length xs) r
        → is_taken b xs r ≡ true }
{}

// A piece with notes: 5 where any part is out of range, then 4 where an output lacks room, that of the notes among them,
// and else 0. Where it has a place for each byte, the piece comes to what it comes to without notes, and is taken where
// it is then; where it has fewer, nothing is taken and nothing counts as written. The notes on the parts of a piece are
// those on the whole.
pub fn a_piece_with_notes_is_that_piece()
    ensures number { (b : Board) (xs : List ℕ) (r : Room) (n : ℕ)
        → piece_told (noted_of b xs r n).answer ≡ noted_told b xs r n }
    ensures places { (b : Board) (xs : List ℕ) (r : Room) (n : ℕ) → length xs ≤ n
        → (lines_of b xs r ≡ noted_of b xs r n) × (is_taken b xs r ≡ is_noted b xs r n) }
    ensures fewer { (b : Board) (xs : List ℕ) (r : Room) (n : ℕ) → n < length xs
        → (is_noted b xs r n ≡ false)
        × ((t : Bool) → in_range b ≡ t → cond t (piece_refused b NoRoom) (piece_refused b PieceBroken) ≡ noted_of b xs r n) }
    ensures cut { (b : Board) → InBoard b → (xs ys : List ℕ)
        → noted b (xs ++ ys) ≡ noted b xs ++ noted (run b (singly xs)) ys }
{}

// However a piece is cut in two, two calls come to what one comes to, the second being lent what stands behind what the
// first wrote: where there is room for the whole there is room for each part, all answer 0, the board after it is the
// same, the counts add up and every output is the same, every byte; and where both parts are taken, so is the whole.
// Single calls, in whatever state, come to the same as well.
pub fn a_cut_changes_nothing()
    ensures in_two { (b : Board) → InBoard b → (xs ys : List ℕ) (r : Room) → is_taken b (xs ++ ys) r ≡ true
        → InTwo b xs ys r }
    ensures whole { (b : Board) → InBoard b → (xs ys : List ℕ) (r : Room) → is_taken b xs r ≡ true
        → second_taken b xs ys r ≡ true → is_taken b (xs ++ ys) r ≡ true }
    ensures board { (b : Board) (xs ys : List ℕ)
        → run b (singly (xs ++ ys)) ≡ run (run b (singly xs)) (singly ys) }
    ensures handed { (m : Module) (b : Board) (xs ys : List ℕ)
        → handed m b (xs ++ ys) ≡ handed m b xs ++ handed m (run b (singly xs)) ys }
    ensures asked { (b : Board) (xs ys : List ℕ)
        → asked b (xs ++ ys) ≡ asked b xs ++ asked (run b (singly xs)) ys }
{}

// Seventy-five places suffice for what any module gets of the fifteen values that a line byte can bring.
pub fn seventy_five_places_suffice()
    ensures { (l : Links) (vs : List ℕ) → length vs ≤ 15 → Enough (fed l vs).shares }
{}

// Hearing a line byte by itself (`board_front::hear`) and handing values on (`board_feeding::feed`) give no number: the
// board's calls give it, and do the rest. A byte heard by receiver and links of a board in range is what the call
// `line` does, but for the screen, which is then written. What would be 5 or 2 changes nothing: a broken receiver hears
// nothing; broken links take no value, and nobody gets anything, while the receiver goes on; and a value above 127 is
// left out.
pub fn hearing_is_the_call_without_its_number()
    ensures line { (b : Board) (x : ℕ) → in_range b ≡ true → at_line b x
        ≡ joined_of b (heard_by (front_of b) x) (Ok tt) }
    ensures receiver { (f : Front) (x : ℕ) → receiver_in_range f.receiver ≡ false → heard_by f x ≡ unheard f }
    ensures behind { (f : Front) (x : ℕ) → links_in_range f.links ≡ false
        → ((heard_by f x).front.links ≡ f.links) × ((heard_by f x).shares ≡ nobody)
        × ((heard_by f x).front.receiver ≡ (stepped f.receiver x).next) }
    ensures links { (l : Links) → links_in_range l ≡ false → (vs : List ℕ)
        → fed l vs ≡ record { links = l; shares = nobody } }
    ensures large { (l : Links) → links_in_range l ≡ true → (v : ℕ) → 127 < v → (vs : List ℕ)
        → fed l (v ∷ vs) ≡ fed l vs }
{}
