// Demand 3: what is handed on is the only valid block within one changed mendable bit of what arrived; a repeat is asked
// exactly when there is none. A valid block hit once there comes back whole; hit at any two of its 136 bits it is
// refused.

// a block
pub use block_demands::demand_three::{
    handed_on_is_the_only_valid_block_near, hit_once_comes_back_whole, hit_twice_is_refused,
    mended_where_the_remainder_points_into_the_one_odd_byte,
    odd_hits_are_never_clean_even_hits_never_mended, one_count_holds_for_every_block,
    the_mendable_bits_are_the_code_bits_and_the_parity_bit_of_byte_16,
    valid_blocks_lie_four_bits_apart,
};

// at each seventeenth byte of the line
pub use line_demands::runs::each_seventeenth_byte_is_judged;
