// Demand 2 on the links: commands and the replies to them. `Says e l cs vs` is a run from a state in range with nothing
// unfinished from modem or socket, in which that one says the values vs and anything else may be called in between.
ghost use Rattle.std.specs.Prelude.{◌≡◌, Bool, cond, ◌&&◌, not, List, [], ◌∷◌, ◌++◌, map, ℕ, ◌+◌, ◌/◌, ◌%◌, ◌<◌, length, get_or, take};
ghost use Rattle.links_wiring.specs.declared.Module.{Module};
ghost use Rattle.links_wiring.specs.declared.Module.TheVariants.{Modem, Socket};
ghost use Rattle.links_wiring.specs.Each.{Table};
ghost use Rattle.links_wiring.specs.Modules.{same, receiver_code, sender_code};
ghost use Rattle.links_wiring.specs.Tables.{reaches};
ghost use Rattle.links_replies.specs.Replies.{shown, status_of, weight_of, reply_of};
ghost use Rattle.links_hearing.specs.declared.Unfinished.TheVariants.{Free};
ghost use Rattle.links_commands.specs.declared.Order.TheVariants.{Nothing, Link, Ask};
ghost use Rattle.links_commands.specs.Commands.{Command, pro3, spelled, beginning, last_of, ordered, link_command, ask_command};
ghost use Rattle.links_commands.specs.Commands.{SpelledFor};
ghost use Rattle.links_hearing.specs.Hearing.{codes_of, left_after};
ghost use Rattle.links.specs.declared.Links.{Links};
ghost use Rattle.links_hearing.specs.declared.ears.Ear.{Ear};
ghost use Rattle.links_hearing.specs.declared.ears.Ear.TheVariants.{Modem as EarModem, Socket as EarSocket};
ghost use Rattle.links_hearing.specs.Ears.{name_of};
ghost use Rattle.links.specs.States.{unfinished};
ghost use Rattle.links.specs.Runs.{Call, value, obey, run, said, got_from, InLinks, Says, Swallowed, Answered};

// PRO3 with 6/1 or 6/0, a receiver and a sender orders that link set or cleared, PRO2 with 6/2 and a receiver asks for
// its status, and no other command orders anything. (A command is its beginning and its last code.)
pub fn a_command_is_known_by_its_codes()
    ensures whole { (c : Command) → spelled c ≡ beginning c ++ (last_of c ∷ []) }
    ensures link { (receiver sender : Module) (on : Bool)
        → ordered (link_command receiver sender on) ≡ Link receiver sender on }
    ensures ask { (receiver : Module) → ordered (ask_command receiver) ≡ Ask receiver }
    ensures only { (c : Command) → SpelledFor (ordered c) c }
{}

// After PRO1, PRO2 and PRO3 exactly one, two and three codes are taken, whatever they are: until the last the codes so
// far are unfinished, and then nothing is.
pub fn exactly_so_many_codes_are_taken()
    ensures midway { (e : Ear) (l : Links) (cs : List Call) (c : Command) (k : ℕ) → k < length (spelled c)
        → Says e l cs (take k (spelled c)) → codes_of (unfinished (run l cs) e) ≡ take k (spelled c) }
    ensures over { (e : Ear) (l : Links) (cs : List Call) (c : Command) → Says e l cs (spelled c)
        → unfinished (run l cs) e ≡ Free }
{}

// Every code of a command but the last is taken out of the flow, and so is the last of an unknown one: nobody gets
// anything, and the table and what is unfinished from the other of modem and socket stay.
pub fn commands_are_taken_out_of_the_flow()
    ensures waits { (e : Ear) (l : Links) (cs : List Call) (c : Command) (k : ℕ) → k + 1 < length (spelled c)
        → Says e l cs (take k (spelled c)) → Swallowed (run l cs) e (get_or (spelled c) k 0) }
    ensures unknown { (e : Ear) (l : Links) (cs : List Call) (c : Command) → ordered c ≡ Nothing
        → Says e l cs (beginning c) → Swallowed (run l cs) e (last_of c) }
{}

// The last code of a link or ask command sends the reply to the module that sent the command, whatever its links, and
// nothing to any other.
pub fn a_reply_goes_to_the_sender_alone()
    ensures names { (name_of EarModem ≡ Modem) × (name_of EarSocket ≡ Socket) }
    ensures link { (e : Ear) (l : Links) (cs : List Call) (receiver sender : Module) (on : Bool)
        → Says e l cs (beginning (link_command receiver sender on))
        → Answered (run l cs) e (sender_code sender) receiver }
    ensures ask { (e : Ear) (l : Links) (cs : List Call) (receiver : Module)
        → Says e l cs (beginning (ask_command receiver)) → Answered (run l cs) e (receiver_code receiver) receiver }
{}

// The last code of a link command sets or clears the pair that it names, where it names two modules, and leaves every
// other; that of an ask command leaves them all.
pub fn one_link_changes()
    ensures link { (e : Ear) (l : Links) (cs : List Call) (receiver sender : Module) (on : Bool)
        → Says e l cs (beginning (link_command receiver sender on))
        → (a b : Module) → reaches (obey (value e (sender_code sender)) (run l cs)).next.table a b
        ≡ cond (not (same receiver sender) && (same a sender && same b receiver)) on
        (reaches (run l cs).table a b) }
    ensures ask { (e : Ear) (l : Links) (cs : List Call) (receiver : Module)
        → Says e l cs (beginning (ask_command receiver))
        → (obey (value e (receiver_code receiver)) (run l cs)).next.table ≡ (run l cs).table }
{}

// A status tells, bit by bit, which senders reach its receiver, with the receiver's own bit 1, and stands in column 4.
pub fn a_status_tells_the_table()
    ensures bits { (t : Table) (receiver sender : Module)
        → status_of t receiver / weight_of sender % 2 ≡ cond (shown t receiver sender) 1 0 }
    ensures column { (t : Table) (receiver : Module) → status_of t receiver / 16 ≡ 4 }
{}

// A reply is a PRO3 command spelled, with 6/3, its receiver's code and its status; and such a command orders nothing,
// whatever it names.
pub fn a_reply_is_a_command_that_orders_nothing()
    ensures spelled { (t : Table) (receiver : Module)
        → reply_of t receiver ≡ spelled (pro3 99 (receiver_code receiver) (status_of t receiver)) }
    ensures orders { (x y : ℕ) → ordered (pro3 99 x y) ≡ Nothing }
{}

// A reply that modem or socket says back is swallowed, whatever else is called in between: at each of its values nobody
// gets anything, and the table and what is unfinished from the other stay. With nothing called in between, the links are
// behind it as they were before it. So two boards never answer each other for ever.
pub fn a_reply_is_never_answered()
    ensures each { (e : Ear) (l : Links) (cs : List Call) (t : Table) (receiver : Module) (k : ℕ) → k < 5
        → Says e l cs (take k (reply_of t receiver)) → Swallowed (run l cs) e (get_or (reply_of t receiver) k 0) }
    ensures whole { (e : Ear) (l : Links) (t : Table) (receiver : Module) → InLinks l → unfinished l e ≡ Free
        → (run l (map (value e) (reply_of t receiver)) ≡ l)
        × ((m : Module) → got_from e m l (map (value e) (reply_of t receiver)) ≡ []) }
{}

// Each of modem and socket has its own unfinished sequence: from any state in range, what is unfinished from it after a
// run follows from what was, and from the values that it said itself; keys, the other one's values and the host's
// choices have no part in it.
pub fn each_has_its_own_sequence()
    ensures { (l : Links) (cs : List Call) (e : Ear) → InLinks l
        → unfinished (run l cs) e ≡ left_after (unfinished l e) (said e cs) }
{}
