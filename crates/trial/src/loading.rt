// The words that name a screen's state: its cells, and all the rest of it.
use crate::words::{Parts, byte, digit, mark_of, number, pair};
use screen_attributes::{Attributes, Zone};
use screen_cells::{Cell, Character};
use screen_cursor::Place;
use screen_page::Screen;
use screen_pen::{Pen, Spot};
use screen_sequences::Sequence;

// The cell that seven digits name; the last two are 0 or 1.
fn cell_of(seven: &[u8; 7]) -> Option<Cell> {
    let [set, high, low, ink, ground, flash, inverse] = *seven;
    Some(Cell {
        character: Character {
            set: digit(set)?,
            code: pair(high, low)?,
        },
        ink: digit(ink)?,
        ground: digit(ground)?,
        flash: mark_of(flash)?,
        inverse: mark_of(inverse)?,
    })
}

// The thousand cells.
fn cells_of(word: &str) -> Option<[Cell; 1000]> {
    let (sevens, rest) = word.as_bytes().as_chunks::<7>();
    let mut cells = [screen_cells::blank(); 1000];
    if sevens.len() != cells.len() || !rest.is_empty() {
        return None;
    }
    for (cell, seven) in cells.iter_mut().zip(sevens) {
        *cell = cell_of(seven)?;
    }
    Some(cells)
}

// ROW,COLUMN and whatever follows.
fn place_of(numbers: &mut Parts<'_>) -> Option<Place> {
    Some(Place {
        row: numbers.number()?,
        column: numbers.number()?,
    })
}

// `-`, or a colour.
fn waiting_of(word: &str) -> Option<Option<u8>> {
    if word == "-" {
        return Some(None);
    }
    Some(Some(number(word)?))
}

// SET,INK,GROUND,WAITING,FLASH,INVERSE, and nothing behind them.
fn attributes_of(mut numbers: Parts<'_>) -> Option<Attributes> {
    let attributes = Attributes {
        set: numbers.number()?,
        ink: numbers.number()?,
        zone: Zone {
            ground: numbers.number()?,
            waiting: waiting_of(numbers.next()?)?,
        },
        flash: numbers.flag()?,
        inverse: numbers.flag()?,
    };
    numbers.end()?;
    Some(attributes)
}

// `-`, or SET:CODE.
fn last_of(word: &str) -> Option<Option<Character>> {
    if word == "-" {
        return Some(None);
    }
    let (set, code) = word.split_once(':')?;
    Some(Some(Character {
        set: number(set)?,
        code: byte(code)?,
    }))
}

// The name of a sequence, or `us:CODE`.
fn sequence_of(name: &str) -> Option<Sequence> {
    Some(match name {
        "-" => Sequence::Free,
        "esc" => Sequence::Escape,
        "esc2" => Sequence::Long,
        "csi" => Sequence::Control,
        "us" => Sequence::Address,
        "rep" => Sequence::Repeat,
        "ss2" => Sequence::Single,
        "sep" => Sequence::Separator,
        _ => Sequence::Row(byte(name.strip_prefix("us:")?)?),
    })
}

// ROW,COLUMN,SHOWN.
fn cursor_of(word: &str) -> Option<(Place, bool)> {
    let mut numbers = Parts::of(word, ',');
    let place = place_of(&mut numbers)?;
    let shown = numbers.flag()?;
    numbers.end()?;
    Some((place, shown))
}

// ROW,COLUMN and then as attributes are.
fn kept_of(word: &str) -> Option<Spot> {
    let mut numbers = Parts::of(word, ',');
    Some(Spot {
        place: place_of(&mut numbers)?,
        attributes: attributes_of(numbers)?,
    })
}

// CUR ATTR LAST KEPT PEND.
fn pen_of(words: &mut Parts<'_>) -> Option<Pen> {
    let (place, shown) = cursor_of(words.next()?)?;
    let attributes = attributes_of(Parts::of(words.next()?, ','))?;
    let last = last_of(words.next()?)?;
    let kept = kept_of(words.next()?)?;
    let sequence = sequence_of(words.next()?)?;
    Some(Pen {
        here: Spot { place, attributes },
        kept,
        last,
        sequence,
        shown,
    })
}

// CELLS CUR ATTR LAST KEPT PEND, in range or not.
pub(crate) fn screen_of(words: &mut Parts<'_>) -> Option<Screen> {
    let cells = cells_of(words.next()?)?;
    let pen = pen_of(words)?;
    Some(Screen { cells, pen })
}
