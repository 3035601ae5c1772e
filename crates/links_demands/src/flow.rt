// Demand 2 on the links: what is passed on. A run is a list of calls, keys, values and choices of a table in any order;
// `Says e l cs vs` is a run from a state in range with nothing unfinished from modem or socket, in which that one says
// the values vs and anything else may be called in between.
ghost use Rattle.std.specs.Prelude.{◌≡◌, List, [], ◌∷◌, ◌++◌, map, ℕ, ◌<◌};
ghost use Rattle.values.specs.Large.{Values};
ghost use Rattle.links_wiring.specs.declared.Module.{Module};
ghost use Rattle.links_wiring.specs.declared.Module.TheVariants.{Screen, Keyboard};
ghost use Rattle.links_hearing.specs.declared.Unfinished.{Unfinished};
ghost use Rattle.links_hearing.specs.declared.Unfinished.TheVariants.{Free};
ghost use Rattle.links_hearing.specs.Hearing.{codes_of};
ghost use Rattle.links_hearing.specs.Phrases.{Phrase, alone, AllProper, all_values, all_flowing, Phrased};
ghost use Rattle.links.specs.declared.Links.{Links};
ghost use Rattle.links_hearing.specs.declared.ears.Ear.{Ear};
ghost use Rattle.links_hearing.specs.declared.ears.Ear.TheVariants.{Modem as EarModem};
ghost use Rattle.links_hearing.specs.Ears.{name_of};
ghost use Rattle.links.specs.States.{local_links, unfinished};
ghost use Rattle.links.specs.Runs.{Call, key, value, obey, run, got_from, Throughout};
ghost use Rattle.links.specs.Runs.{InLinks, Says, PassedOn, freed, Swallowed};

// A value other than ESC from modem or socket with nothing unfinished, and any value from the keyboard, reaches just
// the receivers that its sender is linked to, and changes no state.
pub fn values_go_by_the_links()
    ensures heard { (l : Links) (e : Ear) (v : ℕ) → InLinks l → unfinished l e ≡ Free → v < 128 → (v ≡ 27 → ⊥)
        → PassedOn l (value e v) (name_of e) (v ∷ []) l }
    ensures keys { (l : Links) (v : ℕ) → InLinks l → v < 128 → PassedOn l (key v) Keyboard (v ∷ []) l }
{}

// A value from the keyboard changes no state at all, whatever the value and the state.
pub fn keys_change_nothing()
    ensures { (l : Links) (v : ℕ) → (obey (key v) l).next ≡ l }
{}

// ESC sends nothing by itself. It and a next code that begins no command reach, together and in order, just the
// receivers linked at the time of that code.
pub fn esc_goes_with_its_next_code()
    ensures held { (e : Ear) (l : Links) (cs : List Call) → Says e l cs [] → Swallowed (run l cs) e 27 }
    ensures pairs { (e : Ear) (l : Links) (cs : List Call) (v : ℕ) → Says e l cs (27 ∷ []) → v < 128
        → (v ≡ 57 → ⊥) → (v ≡ 58 → ⊥) → (v ≡ 59 → ⊥)
        → PassedOn (run l cs) (value e v) (name_of e) (27 ∷ v ∷ []) (freed (run l cs) e) }
    ensures met { (e : Ear) (vs : List ℕ) → Values vs → Says e local_links (map (value e) vs) vs }
{}

// Of what modem or socket says in a run, phrase by phrase, a module that it is linked to at each call gets, through it,
// all but the commands, in order and complete. Whatever is said is phrases, and then the beginning of one; and while
// the modem says values by themselves, it stays linked to the screen.
pub fn all_but_the_commands_comes_through()
    ensures flows { (e : Ear) (l : Links) (cs : List Call) (m : Module) (ps : List Phrase) (u : Unfinished)
        → Says e l cs (all_values ps ++ codes_of u) → AllProper ps → Throughout (name_of e) m l cs
        → got_from e m l cs ≡ all_flowing ps }
    ensures phrased { (vs : List ℕ) → Phrased vs }
    ensures met { (vs : List ℕ) → Values vs → AllProper (map alone vs)
        → Throughout (name_of EarModem) Screen local_links (map (value EarModem) vs) }
{}
