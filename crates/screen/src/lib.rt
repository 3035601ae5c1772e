// What values do to a screen (01, "Screen cells").
//
// `step` takes one value and `run` a piece of them; both take any state and any values, and hand back the next state
// with the answer: a broken state, or a value above 127, is refused and changes nothing. specs/Screens says what one
// value does to a screen, specs/Calls what each call answers and hands back; proofs/ holds their laws.
#![tactic(auto)]

ghost use Rattle.std.specs.Prelude.{◌≡◌};
ghost use Rattle.screen.specs.Calls.{stepped, ran};

mod drawing;

use drawing::advance;
pub use screen_answers::Refusal;
use screen_answers::answer_to;
use screen_page::Screen;

// The screen is handed back on a refusal too (`each_call_gives_its_number` of `screen_demands`), so it stands beside the
// answer and not within it.
#[derive(Clone, Copy)]
pub struct Ran {
    pub screen: Screen,
    pub answer: Result<(), Refusal>,
}

// One value.
#[tactic(auto, unfolding(crate::specs::Screens::advanced_by, crate::specs::Calls::ran, crate::specs::Calls::stepped))]
pub fn step(screen: Screen, value: u8) -> Ran
    ensures { result ≡ stepped screen value }
{
    run(screen, &[value])
}

// A piece of values: all of them or, where the state is broken or a value is above 127, none.
pub fn run(screen: Screen, values: &[u8]) -> Ran
    ensures { result ≡ ran screen values.now }
{
    let broken = screen.is_broken();
    let at = values::first_large(values);
    let answer = answer_to(broken, at, values.len());
    if answer.is_err() {
        return Ran { screen, answer };
    }
    let screen = advance(screen, values);
    Ran { screen, answer }
}
