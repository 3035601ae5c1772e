// The maker of blocks (01, "The block", "Numbers given"; 001, section 5-1-3).
//
// `make` writes the block of 1 to 15 values into the first seventeen bytes of a lent output, and `values` gives the
// values of a block. specs/Making says what `make` tells and leaves, for any values and any output. proofs/Blocks shows
// that what it writes is valid and carries the values, and that every valid block of bytes is what it writes for that
// block's values; proofs/Left what it tells, case by case, and that the block is then what stands in the output.
#![tactic(auto)]

ghost use Rattle.std.specs.Prelude.{◌≤◌, ◌≡◌, ◌++◌, length, get_or, take, drop};
ghost use Rattle.block_maker.specs.Making.{useful, sealed, told, make_told, make_left, values_of};

// Why there is no block.
#[derive(Clone, Copy)]
pub enum Unmade {
    WrongLength,
    // The lowest place of a value above 127, counted from 0.
    TooLarge(usize),
    NoRoom,
}

// The useful byte at i: a value with parity, or NUL past the values.
fn useful_at(values: &[u8], i: usize) -> u8
    ensures { result ≡ get_or (useful values.now) i 0 }
{
    if i < values.len() {
        block_parity::with_parity(values[i])
    } else {
        0
    }
}

// The fifteen useful bytes. By the place: there is one at each, also past the values, where a `zip` with the values ends.
fn fill(values: &[u8], out: &mut [u8])
    requires { (length values.now ≤ 15) × (17 ≤ length out.old) }
    ensures { out.new ≡ useful values.now ++ drop 15 out.old }
{
    for i in 0..15 {
        out[i] = useful_at(values, i);
    }
}

// Bytes 16 and 17, from the fifteen before them.
fn seal(out: &mut [u8])
    requires { 17 ≤ length out.old }
    ensures { out.new ≡ sealed (take 15 out.old) ++ drop 17 out.old }
{
    let c = block_division::check_bits(&out[..15]);
    out[15] = block_parity::with_parity(c);
    out[16] = 0;
}

// The block of 1 to 15 values of 0 to 127, in the first seventeen bytes of the output and no others; or why there
// is none.
pub fn make(values: &[u8], out: &mut [u8]) -> Result<(), Unmade>
    ensures { (told result ≡ make_told values.now out.old)
        × (out.new ≡ make_left values.now out.old) }
{
    let n = values.len();
    if n == 0 || 15 < n {
        return Err(Unmade::WrongLength);
    }
    let at = values::first_large(values);
    if at < n {
        return Err(Unmade::TooLarge(at));
    }
    if out.len() < 17 {
        return Err(Unmade::NoRoom);
    }
    fill(values, out);
    seal(out);
    Ok(())
}

// The fifteen values of a block: its useful bytes without parity. A loop: `map` over the fifteen, taken by the pattern
// `[useful @ .., _, _]`, did not close, as the language makes no proof of such a pattern yet.
pub fn values(bytes: [u8; 17]) -> [u8; 15]
    ensures { result ≡ values_of bytes }
{
    let mut values = [0u8; 15];
    for place in 0..15 {
        values[place] = bytes[place] % 128;
    }
    values
}
