// A piece of values, on a screen in range. The pen is carried beside the cells, and a character is stored in place: no
// value but FF copies the thousand cells. This is the one place where a cell is stored.
ghost use Rattle.std.specs.Prelude.{◌≡◌, true};
ghost use Rattle.values.specs.Large.{Values};
ghost use Rattle.screen_page.specs.Ranges.{in_range};
ghost use Rattle.screen.specs.Others.{is_other};
ghost use Rattle.screen.specs.Screens.{advanced_by};

use screen_cells::Character;
use screen_page::Screen;
use screen_pen::Pen;
use screen_planning::{Asked, plan};
use screen_sequences::Sequence;

// Whether a value is other than a character with nothing unfinished.
fn is_other(pen: Pen, value: u8) -> bool
    ensures { result ≡ is_other pen value }
{
    !matches!(pen.sequence, Sequence::Free) || value < 32
}

// Each value asks what is planned for it, nothing for most, or itself once where it is nothing but a character, as
// `plan` would say too.
pub(crate) fn advance(start: Screen, values: &[u8]) -> Screen
    requires in_range { in_range start ≡ true }
    requires values { Values values.now }
    ensures { result ≡ advanced_by start values.now }
{
    let mut screen = start;
    let mut pen = start.pen;
    for value in values {
        let code = *value;
        let asked = if is_other(pen, code) {
            let planned = plan(pen, code);
            pen = planned.pen;
            planned.asked
        } else {
            let set = pen.here.attributes.set;
            Asked::Put {
                character: Character { set, code },
                times: 1,
            }
        };
        match asked {
            Asked::Nothing => {}
            Asked::Blank => screen.cells = screen_sheet::clear(screen.cells),
            Asked::Put { character, times } => {
                for _ in 0..times {
                    let at = pen.here.place.index();
                    let stroke = pen.write(character);
                    screen.cells[at] = stroke.cell;
                    pen = stroke.pen;
                }
            }
        }
    }
    screen.pen = pen;
    screen
}
