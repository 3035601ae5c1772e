// The line whole: values cut into blocks, sent, hit and sent again arrive as they were sent, each block once.
pub use line_demands::runs::{a_resent_block_passes_once, the_line_comes_through_whole};
