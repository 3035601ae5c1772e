// The bench cards W1 to W14 of 01, as one statement over their list (specs/Cards), and our own cards of the screen as
// another (specs/ScreenCards).
#![tactic(auto)]

ghost use Rattle.cards.specs.Cards.{EachHolds, cards};
ghost use Rattle.cards.specs.ScreenCards.{screen_runs};

// Every card of the list holds.
pub fn the_bench_cards_hold()
    ensures { EachHolds cards }
{}

// And every one of our own: worked runs on a fresh screen, bytes, cells and pen written out.
pub fn our_own_cards_hold()
    ensures { EachHolds screen_runs }
{}
