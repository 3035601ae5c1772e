// A cell's character as a point of Unicode: one for each code of each set.
use screen_cells::Character;

// G0: as ASCII, but for six.
fn letter(code: u8) -> char {
    match code {
        0x5e => '↑',
        0x60 => '─',
        0x7b => '▏',
        0x7c => '│',
        0x7d => '▕',
        0x7e => '▔',
        _ => char::from(code),
    }
}

// G1: the sextant of the same six parts. Unicode has four of the sixty-four elsewhere, and counts the others without
// those.
fn mosaic(code: u8) -> char {
    let parts = (code % 16 + code / 16 % 2 * 16 + code / 64 % 2 * 32) as u32;
    let sextant = match parts {
        0 => return ' ',
        21 => return '▌',
        42 => return '▐',
        63 => return '█',
        1..=20 => 0x1faff + parts,
        22..=41 => 0x1fafe + parts,
        _ => 0x1fafd + parts,
    };
    char::from_u32(sextant).unwrap()
}

// G2: those that the terminal has; a low bar for any other.
fn sign(code: u8) -> char {
    match code {
        0x23 => '£',
        0x24 => '$',
        0x26 => '#',
        0x27 => '§',
        0x2c => '←',
        0x2d => '↑',
        0x2e => '→',
        0x2f => '↓',
        0x30 => '°',
        0x31 => '±',
        0x38 => '÷',
        0x3c => '¼',
        0x3d => '½',
        0x3e => '¾',
        0x6a => 'Œ',
        0x7a => 'œ',
        0x7b => 'ß',
        _ => '_',
    }
}

// The point of a character; a space and a full block are the same in every set.
pub(crate) fn point(character: Character) -> char {
    let Character { set, code } = character;
    match (code, set) {
        (0x20, _) => ' ',
        (0x7f, _) => '█',
        (_, 1) => mosaic(code),
        (_, 2) => sign(code),
        _ => letter(code),
    }
}
