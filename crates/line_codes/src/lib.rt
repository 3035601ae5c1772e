// The codes that pass between the hut and the sender (01, "The receiver"; 001, sections 5-3-5 and 5-3-6): a byte by
// itself, the numbers of the blocks, the request for one, and the codes with which the sender begins again. specs/Codes
// says what each is; proofs/Numbered shows that the numbers count modulo 16 and writes the requests out,
// proofs/Removed that a value with parity passes as that value, and proofs/Seen that counting the synchronising codes
// to two is looking at the last three bytes.
#![tactic(auto)]

ghost use Rattle.std.specs.Prelude.{◌≡◌};
ghost use Rattle.line_codes.specs.Codes.{plainly, next, four as four_of, request as request_for, listened};

// What a byte makes of the waiting for a block. No Option: to have seen none is not to have resumed, and each of the two
// is an outcome of its own.
#[derive(Clone, Copy, PartialEq, Eq)]
pub enum Listened {
    // So many synchronising codes are seen, 0 to 2.
    Seen(u8),
    Resumed,
}

// A byte by itself: without parity, or 7/F where its parity is odd.
pub fn plain(byte: u8) -> u8
    ensures { result ≡ plainly byte }
{
    if block_parity::is_even(byte) {
        byte % 128
    } else {
        127
    }
}

// The number of the block behind this one.
pub fn next_number(number: u8) -> u8
    ensures { result ≡ next number }
{
    (number % 16 + 1) % 16
}

// 4/X with parity.
fn four(number: u8) -> u8
    ensures { result ≡ four_of number }
{
    block_parity::with_parity(64 + number % 16)
}

// The request for a block: NACK and 4/X, with parity.
pub fn request(number: u8) -> [u8; 2]
    ensures { result ≡ request_for number }
{
    let code = four(number);
    [149, code]
}

// A byte heard while a block is awaited, after so many synchronising codes. A third keeps two seen.
pub fn listen(number: u8, seen: u8, byte: u8) -> Listened
    ensures { result ≡ listened number seen byte }
{
    if byte == 150 {
        Listened::Seen(if seen < 2 { seen + 1 } else { 2 })
    } else if seen == 2 && byte == four(number) {
        Listened::Resumed
    } else {
        Listened::Seen(0)
    }
}
