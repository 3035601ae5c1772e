// The page as lines of text: with the numbers of its rows and the cursor, or in the colours of a terminal.
use crate::characters::point;
use crate::texts::{Streams, Told};
use screen_cells::Cell;
use screen_page::{Cursor, Screen};
use std::fmt;

// What sets a terminal to a cell's looks. There are eight colours.
#[derive(Clone, Copy)]
struct Looks(Cell);

impl fmt::Display for Looks {
    fn fmt<W: fmt::Write>(&self, f: &mut fmt::Formatter<W>) -> fmt::Result {
        let ink = self.0.ink % 8;
        let ground = self.0.ground % 8;
        let flash = if self.0.flash { ";5" } else { "" };
        let inverse = if self.0.inverse { ";7" } else { "" };
        write!(f, "\x1b[0;3{ink};4{ground}{flash}{inverse}m")
    }
}

// The cell at a place. A screen that a board hands back is never broken, and the places asked for here are on it; were it
// otherwise, a question mark would show it.
fn cell_at(screen: &Screen, row: u8, column: u8) -> Cell {
    if let Ok(Some(cell)) = screen.cell(row, column) {
        return cell;
    }
    let mut cell = screen_cells::blank();
    cell.character.code = b'?';
    cell
}

// The forty characters of a row; in colours, what sets them stands wherever they change.
#[derive(Clone, Copy)]
struct Row<'a> {
    screen: &'a Screen,
    number: u8,
    coloured: bool,
}

impl fmt::Display for Row<'_> {
    fn fmt<W: fmt::Write>(&self, f: &mut fmt::Formatter<W>) -> fmt::Result {
        let mut before = None;
        for column in 1..=40 {
            let cell = cell_at(self.screen, self.number, column);
            let changed = match before {
                Some(before) => !screen_cells::look_alike(before, cell),
                None => true,
            };
            if self.coloured && changed {
                write!(f, "{}", Looks(cell))?;
            }
            write!(f, "{}", point(cell.character))?;
            before = Some(cell);
        }
        Ok(())
    }
}

// Writes the rows, a line each.
pub(crate) fn write_rows(streams: Streams, screen: &Screen, coloured: bool) -> Result<(), Told> {
    for number in 0..25 {
        let row = Row {
            screen,
            number,
            coloured,
        };
        if coloured {
            streams.print(format_args!("{row}\x1b[0m\n"))?;
        } else {
            streams.print(format_args!("row {number:>2} |{row}|\n"))?;
        }
    }
    Ok(())
}

// Writes the line on the cursor. A screen that a board hands back is never broken.
pub(crate) fn write_cursor(streams: Streams, screen: &Screen) -> Result<(), Told> {
    let (at, shown) = match screen.cursor() {
        Ok(Cursor::Hidden(at)) => (at, "hidden"),
        Ok(Cursor::Shown(at)) => (at, "shown"),
        Err(_) => return Ok(()),
    };
    let row = at.row;
    let column = at.column;
    streams.print(format_args!("cursor: row {row}, column {column}, {shown}\n"))
}
