// The commands of the block code: `make VALUES ROOM` and `judge BLOCK`. Each answers its words, or says that they are no
// such command.
use crate::numbering::Number;
use crate::words::{Hex, MOST, OrDash, Parts};
use block_maker::Unmade;
use few::Few;
use system::Output;

// `make VALUES ROOM`: NUMBER PLACE OUTPUT. The output's bytes are ee before the call, so that untouched ones show.
pub(crate) fn make(out: &mut Output, mut words: Parts<'_>) -> Option<()> {
    let mut given = [0u8; MOST];
    let mut lent = [0xeeu8; MOST];
    let values = words.bytes(&mut given)?;
    let output = lent.get_mut(..words.size()?)?;
    words.end()?;
    let made = block::make(values, output);
    let place = match made {
        Err(Unmade::TooLarge(place)) => Some(place),
        _ => None,
    };
    let number = Number::of(made);
    out.print(format_args!("{number} {} {}", OrDash(place), Hex(output)));
    Some(())
}

// The judge's number and bit as a word. A block that was taken is mended where a bit is named.
fn word(number: u8, bit: u8) -> &'static str {
    match (number, bit) {
        (0, 255) => "clean",
        (0, _) => "mended",
        (3, _) => "repeat",
        _ => "-",
    }
}

// `judge BLOCK`: NUMBER VERDICT BLOCK PART. The part lies in the block, so it is copied while it lives, and the block
// itself is read once it is back.
pub(crate) fn judge(out: &mut Output, mut words: Parts<'_>) -> Option<()> {
    let mut lent = [0u8; MOST];
    let block = words.bytes(&mut lent)?;
    words.end()?;
    let judged = block::judge(block);
    let number = judged.number();
    let word = word(number, judged.bit());
    let part = Few::<MOST>::of(judged.part);
    out.print(format_args!("{number} {word} {} {}", Hex(block), Hex(part.bytes())));
    Some(())
}
