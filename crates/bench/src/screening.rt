// The mode `screen`: the bytes without parity as values, a portion in one call.
use crate::pages::Page;
use crate::portions::{Part, remove_parity};
use crate::texts::sum;
use screen_page::Screen;
use system::Output;

// A screen, and how many values it got.
#[derive(Clone, Copy)]
pub(crate) struct Screening {
    screen: Screen,
    values: u64,
}

impl Screening {
    pub(crate) fn begun() -> Screening {
        Screening {
            screen: Screen::fresh(),
            values: 0,
        }
    }
}

// The values are all taken; were they not, the page would show it.
impl Part for Screening {
    fn take(&mut self, out: &mut Output, portion: &mut [u8], writing: bool) {
        remove_parity(portion);
        self.screen = screen::run(self.screen, portion).screen;
        self.values = sum(self.values, portion.len());
        if writing {
            out.print(Page(&self.screen));
        }
    }

    fn tell(&self, out: &mut Output) {
        let values = self.values;
        let page = Page(&self.screen);
        out.print(format_args!("screen: {values} values\n{page}"));
    }
}
