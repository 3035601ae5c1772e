// Demand 1 on the line: whatever state is handed in, a call ends, and a broken one has its number and comes back.
ghost use Rattle.std.specs.Prelude.{◌≡◌, false, List, ◌-◌, drop, replicate};
ghost use Rattle.numbers.specs.Numbers.{number_of};
ghost use Rattle.values.specs.Large.{Values};
ghost use Rattle.line_receiver.specs.declared.Receiver.{Receiver};
ghost use Rattle.line_receiver.specs.States.{in_range, InReceiver, call_conditions, new_receiver};
ghost use Rattle.line_phases.specs.declared.Phase.TheVariants.{Off};
ghost use Rattle.line_receiver.specs.Calls.{answer_number};
ghost use Rattle.line_receiver.specs.Runs.{Event, obey, run, sent_by};
ghost use Rattle.line_receiver.specs.Page.{nothing};

// A call's number comes of the paper's conditions: 5 for a state outside its ranges, and else 0, also where the call
// asks for a repeat.
pub fn each_call_gives_its_number()
    ensures { (e : Event) (r : Receiver) → answer_number (obey e r).answer ≡ number_of (call_conditions r) }
{}

// Whatever the state and the call: behind the values that pass, and behind the bytes that are asked, every place is 0.
pub fn places_past_a_count_are_0()
    ensures { (e : Event) (r : Receiver)
        → (drop (obey e r).values.count (obey e r).values.codes ≡ replicate (15 - (obey e r).values.count) 0)
        × (drop (obey e r).request.count (obey e r).request.codes ≡ replicate (2 - (obey e r).request.count) 0) }
{}

// A new receiver is off, number 0, nothing held, and in range. From a state in range every run stays in range: each
// call answers 0, and no value that it passes on is above 127. From any other state every call answers 5, sends
// nothing and hands that very state back.
pub fn a_broken_state_is_handed_back()
    ensures broken { (r : Receiver) → in_range r ≡ false → (e : Event)
        → ((obey e r).next ≡ r) × (answer_number (obey e r).answer ≡ 5) × (sent_by (obey e r) ≡ nothing) }
    ensures anew { InReceiver new_receiver
        × (new_receiver.phase ≡ Off) × (new_receiver.number ≡ 0) × (new_receiver.count ≡ 0) }
    ensures runs { (r : Receiver) → InReceiver r → (es : List Event) → InReceiver (run r es)
        × ((e : Event) → (answer_number (obey e (run r es)).answer ≡ 0) × Values (sent_by (obey e (run r es))).passed) }
{}
