// Demand 2: blocks are made and read by the Minitel 1B specification; receiver, screen, links and replies follow it as
// far as the papers go, and the papers where these decide.

// a block
pub use block_demands::demand_two::{
    a_byte_enters_the_division_in_one_step, changing_a_bit_changes_that_bit_alone,
    each_code_bit_stands_for_its_power, nothing_is_left_exactly_when_the_generator_divides,
    read_clean_is_what_the_maker_writes, what_the_maker_writes_the_reader_hands_back,
};

// the receiver: a repeat request names the awaited block; between two switchings the number moves only when a block is
// accepted
pub use line_demands::pieces::{a_turn_is_its_bytes_one_by_one, the_notes_say_what_each_byte_was};
pub use line_demands::runs::{
    a_request_names_the_awaited_block, a_run_is_the_run_over_its_parts, every_run_follows_the_page,
    places_past_the_held_never_matter, switching_starts_afresh, the_number_counts_accepted_blocks,
    waiting_ends_at_the_first_resumption, while_off_each_byte_passes_by_itself,
};

// the screen
pub use screen_demands::cells::the_same_cell_is_an_equal_cell;
pub use screen_demands::changes::{
    a_c0_code_ends_a_sequence, a_waiting_ground_has_one_fate, ff_and_rs_start_at_row_1,
    only_a_written_character_becomes_the_last, only_characters_and_ff_change_a_cell,
    rep_is_single_characters, the_attributes_of_g1_are_never_inverse,
    us_starts_at_its_place_or_changes_nothing,
};
pub use screen_demands::pieces::a_run_is_its_single_steps;
pub use screen_demands::row_0::{lf_returns_from_row_0, no_move_crosses_into_row_0};

// the links: what is passed on
pub use links_demands::flow::{
    all_but_the_commands_comes_through, esc_goes_with_its_next_code, keys_change_nothing,
    values_go_by_the_links,
};
pub use links_demands::states::the_host_chooses_a_table;

// the links: commands and replies
pub use links_demands::replying::{
    a_command_is_known_by_its_codes, a_reply_goes_to_the_sender_alone,
    a_reply_is_a_command_that_orders_nothing, a_reply_is_never_answered, a_status_tells_the_table,
    commands_are_taken_out_of_the_flow, each_has_its_own_sequence, exactly_so_many_codes_are_taken,
    one_link_changes,
};

// the links: worked runs, byte by byte
pub use links_demands::cards::the_link_cards_hold;
pub use links_demands::states::a_run_makes_the_public_calls;

// the board
pub use board_demands::{
    a_cut_changes_nothing, a_fresh_board_is_off_local_and_blank, each_call_reaches_its_part,
    each_part_goes_its_own_way, the_page_shown_is_the_page_sent,
};
