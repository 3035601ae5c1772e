// The mode `links`: the bytes without parity as values, handed to connected links fifteen at a time.
use crate::portions::{Part, remove_parity};
use crate::states::LinksState;
use crate::texts::{print_lines, sum};
use few::Few;
use links::Links;
use links_wiring::Each;
use system::Output;

// Links, and how many bytes each module got.
#[derive(Clone, Copy)]
pub(crate) struct Linking {
    links: Links,
    handed: Each<u64>,
}

impl Linking {
    pub(crate) fn begun() -> Linking {
        Linking {
            links: Links::connected(),
            handed: Each::all(0),
        }
    }
}

// A group of up to fifteen values. Nearly all are full: those are copied in one go, without a count to look at, which
// costs less than `Few::of`.
fn values_of(group: &[u8]) -> Few<15> {
    match group.first_chunk() {
        Some(values) => Few {
            codes: *values,
            count: 15,
        },
        None => Few::of(group),
    }
}

// The modules stand one by one, since what is told has the name of each, in the order of the peer's words.
impl Part for Linking {
    fn take(&mut self, out: &mut Output, portion: &mut [u8], writing: bool) {
        remove_parity(portion);
        for group in portion.chunks(15) {
            let fed = board_feeding::feed(self.links, values_of(group));
            self.links = fed.links;
            let shares = fed.shares;
            let handed = self.handed;
            self.handed = Each {
                screen: sum(handed.screen, shares.screen.count),
                keyboard: sum(handed.keyboard, shares.keyboard.count),
                modem: sum(handed.modem, shares.modem.count),
                socket: sum(handed.socket, shares.socket.count),
            };
            if writing {
                print_lines(out, "screen", shares.screen.bytes());
                print_lines(out, "keyboard", shares.keyboard.bytes());
                print_lines(out, "modem", shares.modem.bytes());
                print_lines(out, "socket", shares.socket.bytes());
            }
        }
    }

    fn tell(&self, out: &mut Output) {
        let Each {
            screen,
            keyboard,
            modem,
            socket,
        } = self.handed;
        let links = LinksState(self.links);
        out.print(format_args!(
            "links: screen {screen}, keyboard {keyboard}, modem {modem}, socket {socket} bytes\n{links}"
        ));
    }
}
