// Demand 1 on the links: whatever state and value are handed in, a call ends, and each refusal has its number and
// changes nothing.
ghost use Rattle.std.specs.Prelude.{◌≡◌, true, false, List, [], ◌∷◌, ℕ};
ghost use Rattle.links_wiring.specs.declared.Module.{Module};
ghost use Rattle.links_wiring.specs.Tables.{reaches};
ghost use Rattle.links_replies.specs.Replies.{statuses_of};
ghost use Rattle.links_sending.specs.Sending.{silence, part_of, FewIn};
ghost use Rattle.links_hearing.specs.declared.ears.Ear.TheVariants.{Modem as EarModem, Socket as EarSocket};
ghost use Rattle.links.specs.declared.Links.{Links};
ghost use Rattle.links.specs.declared.Refusal.TheVariants.{TooLarge, Broken};
ghost use Rattle.links.specs.States.{local_links, connected_links, in_range};
ghost use Rattle.links.specs.Calls.{told, taken, refused, with_table, with_local, with_connected};
ghost use Rattle.links.specs.Calls.{from_keyboard, from_modem, from_socket};
ghost use Rattle.links.specs.Runs.{Call, key, value, to_local, to_connected, obey, run, InLinks, too_large, call_told};

// A call's number, and the place that it names, come of the paper's conditions in their order: 5 for a broken state,
// then 2 for a value above 127, and else 0. After a refusal the state handed in comes back, and nothing is sent.
pub fn each_call_gives_its_number()
    ensures number { (c : Call) (l : Links) → told (obey c l).answer ≡ call_told c l }
    ensures broken { (c : Call) (l : Links) → in_range l ≡ false → obey c l ≡ refused l Broken }
    ensures large { (c : Call) (l : Links) → in_range l ≡ true → too_large c ≡ true
        → obey c l ≡ refused l TooLarge }
{}

// The links begin in range; from a state in range every run stays there, and no module is ever linked to itself. The
// test that the calls make says exactly which states are in range.
pub fn every_call_keeps_the_range()
    ensures anew { InLinks local_links × InLinks connected_links }
    ensures runs { (l : Links) → InLinks l → (cs : List Call) → InLinks (run l cs) }
    ensures never { (l : Links) → InLinks l → (cs : List Call) (m : Module)
        → reaches (run l cs).table m m ≡ false }
    ensures tested { (l : Links) → InLinks l → in_range l ≡ true }
    ensures passed { (l : Links) → in_range l ≡ true → InLinks l }
{}

// From a state in range the host chooses the table that the local links begin with, or the connected ones; what is
// unfinished stays, and nothing is sent. The statuses of screen, keyboard, modem and socket are then these.
pub fn the_host_chooses_a_table()
    ensures local { (l : Links) → InLinks l
        → obey to_local l ≡ taken (with_table l local_links.table) silence }
    ensures connected { (l : Links) → InLinks l
        → obey to_connected l ≡ taken (with_table l connected_links.table) silence }
    ensures statuses { (statuses_of local_links.table ≡ 77 ∷ 66 ∷ 70 ∷ 74 ∷ [])
        × (statuses_of connected_links.table ≡ 69 ∷ 66 ∷ 78 ∷ 76 ∷ []) }
{}

// Whatever the state and the call, a receiver gets at most five bytes, and none above 127.
pub fn at_most_five_small_bytes()
    ensures { (c : Call) (l : Links) (receiver : Module) → FewIn (part_of (obey c l).sent receiver) }
{}

// The calls of a run, of which every theorem here speaks, are the public ones: a key is `from_keyboard`, a value of modem
// or socket `from_modem` or `from_socket`, the host's choice `with_local` or `with_connected`.
pub fn a_run_makes_the_public_calls()
    ensures values { (l : Links) (v : ℕ) → (obey (key v) l ≡ from_keyboard l v)
        × (obey (value EarModem v) l ≡ from_modem l v) × (obey (value EarSocket v) l ≡ from_socket l v) }
    ensures choices { (l : Links) → (obey to_local l ≡ with_local l) × (obey to_connected l ≡ with_connected l) }
{}
