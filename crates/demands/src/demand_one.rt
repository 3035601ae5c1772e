// Demand 1: any bytes from line, keyboard or socket are taken in a finite run, and no entry point trusts its caller.
// Each number is given exactly when 01 says so, in its order 1, 5, 2, 4, 3, and leaves what it must.

// the maker and the judge
pub use block_demands::demand_one::{
    an_answer_is_told_in_one_way, each_number_is_given_exactly_when, refusals_leave_what_was_lent,
    the_lowest_place_is_named,
};

// the receiver: 5, and 0 also where a repeat is asked
pub use line_demands::states::{
    a_broken_state_is_handed_back,
    each_call_gives_its_number as each_call_of_a_receiver_gives_its_number,
    places_past_a_count_are_0,
};

// the screen: 5 and 2
pub use screen_demands::states::{
    each_call_gives_its_number as each_call_of_a_screen_gives_its_number,
    every_step_keeps_the_range as every_step_of_a_screen_keeps_the_range,
    reading_gives_the_cell_at_its_place,
};

// the links: 5 and 2
pub use links_demands::states::{
    at_most_five_small_bytes,
    each_call_gives_its_number as each_call_of_the_links_gives_its_number,
    every_call_keeps_the_range as every_call_of_the_links_keeps_the_range,
};

// the board: 5 and 2; for a piece of line bytes 5 and 4
pub use board_demands::{
    a_piece_gives_its_number, a_piece_with_notes_is_that_piece,
    each_call_gives_its_number as each_call_of_a_board_gives_its_number,
    every_event_keeps_the_range as every_event_of_a_board_keeps_the_range,
    hearing_is_the_call_without_its_number, seventy_five_places_suffice,
    such_outputs_surely_suffice,
};
