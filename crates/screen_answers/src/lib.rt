// What a call on the screen answers (01, "Numbers given"): a broken state goes before a value too large. specs/Answers
// says which answer comes of the conditions, proofs/Written writes some out, and proofs/Given shows that the answer has
// the number that the paper gives them.
#![tactic(auto)]

ghost use Rattle.std.specs.Prelude.{◌≡◌};
ghost use Rattle.screen_answers.specs.Answers.{answer_to};

// Why a call is refused: the paper's 2 and 5. What is taken has its 0.
#[derive(Clone, Copy)]
pub enum Refusal {
    // The lowest place of a value above 127, counted from 0.
    TooLarge(usize),
    Broken,
}

// The answer to a call with so many values: `at` is the lowest place of one that is too large, or not below `count`. It
// is a number and no Option, as `values::first_large` gives one: `each_call_gives_its_number` of `screen_demands` has it
// so, by its clause `large`.
pub fn answer_to(broken: bool, at: usize, count: usize) -> Result<(), Refusal>
    ensures { result ≡ answer_to broken at count }
{
    if broken {
        return Err(Refusal::Broken);
    }
    if at < count {
        return Err(Refusal::TooLarge(at));
    }
    Ok(())
}
