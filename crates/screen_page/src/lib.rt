// A screen, by value (01, "Screen cells"): a thousand cells and the pen that writes them. Fresh, tested and read; the
// crate `screen` has what values do to it.
//
// specs/Pages says what a fresh screen is, specs/Ranges which are in range, specs/Reading what reading gives; proofs/
// holds their laws.
#![tactic(auto)]

ghost use Rattle.std.specs.Prelude.{◌≡◌};
ghost use Rattle.screen_cursor.specs.Places.{On};
ghost use Rattle.screen_page.specs.Pages.{fresh_screen};
ghost use Rattle.screen_page.specs.Ranges.{broken};
ghost use Rattle.screen_page.specs.Reading.{seen_at, read, pointed};

use screen_cells::Cell;
use screen_cursor::Place;
use screen_pen::Pen;

#[derive(Clone, Copy)]
pub struct Screen {
    // Row 0 first, its columns 1 to 40, then row 1.
    pub cells: [Cell; 1000],
    pub pen: Pen,
}

// A cursor that is read: where it is.
#[derive(Clone, Copy)]
pub enum Cursor {
    Hidden(Place),
    Shown(Place),
}

// Why nothing is read: the screen lies outside the ranges of the page.
#[derive(Clone, Copy)]
pub struct Broken;

impl Screen {
    // A thousand blank cells, and the pen at its start.
    #[tactic(auto, unfolding(crate::specs::Pages::fresh_screen))]
    pub fn fresh() -> Screen
        ensures { result ≡ fresh_screen }
    {
        let blank = screen_cells::blank();
        let pen = Pen::fresh();
        Screen {
            cells: [blank; 1000],
            pen,
        }
    }

    // Whether it lies outside the ranges of the page.
    #[tactic(auto, unfolding(crate::specs::Ranges::in_range, crate::specs::Ranges::broken))]
    pub fn is_broken(self) -> bool
        ensures { result ≡ broken self }
    {
        !(screen_ranges::in_range(self.pen) && screen_sheet::in_range(self.cells))
    }

    // The cell that is seen at a place, which is the one that is stored there. Whatever
    // reads one cell comes by here; a dump of all thousand has them as they are stored.
    fn seen(self, place: Place) -> Cell
        requires { On place }
        ensures { result ≡ seen_at self place }
    {
        self.cells[place.index()]
    }

    // What is seen at a row, from 0, and a column, from 1: nothing at a place off the screen.
    #[tactic(auto, unfolding(crate::specs::Reading::read))]
    pub fn cell(self, row: u8, column: u8) -> Result<Option<Cell>, Broken>
        ensures { result ≡ read self row column }
    {
        if self.is_broken() {
            return Err(Broken);
        }
        let place = Place { row, column };
        if !place.on_screen() {
            return Ok(None);
        }
        Ok(Some(self.seen(place)))
    }

    // Where the cursor is, and whether it is shown.
    #[tactic(auto, unfolding(crate::specs::Reading::pointed))]
    pub fn cursor(self) -> Result<Cursor, Broken>
        ensures { result ≡ pointed self }
    {
        if self.is_broken() {
            return Err(Broken);
        }
        let place = self.pen.here.place;
        if self.pen.shown {
            return Ok(Cursor::Shown(place));
        }
        Ok(Cursor::Hidden(place))
    }
}
