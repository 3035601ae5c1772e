// The mode `path`: a portion of line bytes in one call of a fresh board, switched on and connected.
use crate::pages::Page;
use crate::portions::Part;
use crate::states::{LinksState, ReceiverState};
use crate::texts::{print_lines, sum};
use board::Board;
use board_pieces::Outputs;
use lent::first;
use system::Output;

// As many bytes as an output may need for a piece of up to 4,096: with sixteen bytes held before it, and five for each
// value. The keeper's program has the same, and begins its board so: these two lines are no shorter by another crate.
const ROOM: usize = 5 * (4096 + 16);

// A board, and how many bytes it has handed out.
#[derive(Clone, Copy)]
pub(crate) struct Boarding {
    board: Board,
    keyboard: u64,
    modem: u64,
    socket: u64,
    requests: u64,
}

impl Boarding {
    pub(crate) fn begun() -> Boarding {
        let on = Board::fresh().switch_on().next;
        Boarding {
            board: on.with_connected().next,
            keyboard: 0,
            modem: 0,
            socket: 0,
            requests: 0,
        }
    }
}

fn print_board(out: &mut Output, board: &Board) {
    let receiver = ReceiverState(board.receiver);
    let links = LinksState(board.links);
    let page = Page(&board.screen);
    out.print(format_args!("{receiver}{links}{page}"));
}

// The bytes are taken; were they not, the counts would show it.
impl Part for Boarding {
    fn take(&mut self, out: &mut Output, portion: &mut [u8], writing: bool) {
        let mut keyboard = [0u8; ROOM];
        let mut modem = [0u8; ROOM];
        let mut socket = [0u8; ROOM];
        let mut requests = [0u8; ROOM];
        let mut outputs = Outputs {
            keyboard: &mut keyboard,
            modem: &mut modem,
            socket: &mut socket,
            requests: &mut requests,
        };
        let heard = board_pieces::lines(self.board, portion, &mut outputs);
        let used = heard.used;
        self.board = heard.next;
        self.keyboard = sum(self.keyboard, used.keyboard);
        self.modem = sum(self.modem, used.modem);
        self.socket = sum(self.socket, used.socket);
        self.requests = sum(self.requests, used.requests);
        if writing {
            print_lines(out, "keyboard", first(&keyboard, used.keyboard));
            print_lines(out, "modem", first(&modem, used.modem));
            print_lines(out, "socket", first(&socket, used.socket));
            print_lines(out, "requests", first(&requests, used.requests));
            print_board(out, &self.board);
        }
    }

    fn tell(&self, out: &mut Output) {
        let keyboard = self.keyboard;
        let modem = self.modem;
        let socket = self.socket;
        let requests = self.requests;
        out.print(format_args!(
            "path: keyboard {keyboard}, modem {modem}, socket {socket}, requests {requests} bytes\n"
        ));
        print_board(out, &self.board);
    }
}
