// The bench cards W1 to W14, as one statement over their list, and our own as another.
pub use cards::{our_own_cards_hold, the_bench_cards_hold};
