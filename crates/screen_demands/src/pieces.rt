// Demand 2 on pieces of values.
ghost use Rattle.std.specs.Prelude.{◌≡◌, List, ◌++◌, ℕ};
ghost use Rattle.values.specs.Large.{Values};
ghost use Rattle.screen_page.specs.declared.Screen.{Screen};
ghost use Rattle.screen_page.specs.Ranges.{InScreen};
ghost use Rattle.screen_answers.specs.Answers.{Taken};
ghost use Rattle.screen.specs.Calls.{runs_to, ran};
ghost use Rattle.screen.specs.Claims.{singly};

// A run over values of 0 to 127 is the single steps, and the run over some values and then others is the run over the
// first, then over the others.
pub fn a_run_is_its_single_steps()
    ensures single { (s : Screen) (vs : List ℕ) → InScreen s → Values vs → ran s vs ≡ runs_to (singly s vs) Taken }
    ensures parts { (s : Screen) (us vs : List ℕ) → InScreen s → Values us → Values vs
        → ran s (us ++ vs) ≡ ran (ran s us).screen vs }
{}
