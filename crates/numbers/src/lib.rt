// The numbers that a call gives (01, "Numbers given"), stated once, and no functions: specs/Numbers says which
// number comes of the conditions that hold, and proofs/Given that each number is given exactly when its condition
// holds and none before it in the order. Every contract that gives a number takes it from here.
//
// A call that may refuse has a type of its own for why (`Unmade` of `block_maker`; `Refusal` of `screen_answers`, `links`,
// `board_pieces` and `line_sender`; `Broken` of `line_receiver` and `screen_page`) and not one for all: each says which
// refusals its call can give, and which of them name a place. The definitions `told`, `answer_number`,
// `read_number` and `cursor_number` beside the calls give each its number.

#![tactic(auto)]
