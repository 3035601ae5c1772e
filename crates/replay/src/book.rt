// What is told of a record: a line for each block judged and each resumption, and the totals. The book hears nothing by
// itself: a note of each byte says what it was to the board's own receiver, and the book counts and tells.
use crate::hut::Play;
use crate::texts::{Lines, Streams, Told};
use line_receiver::Phase;

// What a byte was to the receiver.
#[derive(Clone, Copy)]
enum Note {
    // It is only held.
    Held,
    // The last of a block, by its verdict; one that is mended, at this bit.
    Clean,
    Repeat,
    Mended(u8),
    // Dropped while waiting.
    Dropped,
    // The last code of a resumption.
    Resumed,
}

// The notes that `board_pieces::lines_noted` gives are numbers: from 128 on, those of the bits.
impl From<u8> for Note {
    fn from(note: u8) -> Note {
        match note {
            1 => Note::Clean,
            2 => Note::Repeat,
            3 => Note::Dropped,
            4 => Note::Resumed,
            128..=255 => Note::Mended(note % 128),
            _ => Note::Held,
        }
    }
}

// A portion that the board took: its bytes, with those that the receiver held before, a note of each, and the requests
// that came of them.
#[derive(Clone, Copy)]
pub(crate) struct Portion<'a> {
    pub(crate) held: &'a [u8; 17],
    pub(crate) bytes: &'a [u8],
    pub(crate) notes: &'a [u8],
    pub(crate) requests: &'a [u8],
}

impl Portion<'_> {
    // The byte that a bit lies in, as it arrived. The block's last byte stands at this place of the portion; that byte
    // stands before it there, or it was held before the portion.
    fn arrived(self, bit: u8, last: usize) -> u8 {
        let Portion { held, bytes, .. } = self;
        let place = (bit % 128 / 8) as usize;
        let back = 16 - place;
        if back <= last {
            bytes.get(last - back).copied().unwrap_or(0)
        } else {
            held[place]
        }
    }
}

#[derive(Clone, Copy, Default)]
pub(crate) struct Book {
    // How many bytes the portions before had: the place of the first byte of this one.
    read: u64,
    // That of the block awaited.
    number: u8,
    blocks: u64,
    clean: u64,
    mended: u64,
    refused: u64,
    resumptions: u64,
    dropped: u64,
}

impl Book {
    // Enters a portion. All that is told of it is written then, so that it stands before what standard error says of the
    // next.
    pub(crate) fn enter_all(&mut self, streams: Streams, portion: Portion) -> Result<(), Told> {
        let mut lines = Lines::new(streams);
        let mut requests = portion.requests;
        for (at, note) in portion.notes.iter().enumerate() {
            let place = self.read.saturating_add(at as u64);
            match Note::from(*note) {
                Note::Held => {}
                Note::Clean => self.enter_clean(&mut lines, place)?,
                Note::Repeat => {
                    let (request, rest) = requests.split_first_chunk().unwrap_or((&[0; 2], &[]));
                    requests = rest;
                    self.enter_repeat(&mut lines, place, *request)?;
                }
                Note::Mended(bit) => {
                    let byte = portion.arrived(bit, at);
                    self.enter_mended(&mut lines, place, bit, byte)?;
                }
                Note::Dropped => self.dropped = self.dropped.saturating_add(1),
                Note::Resumed => self.enter_resumption(&mut lines, place)?,
            }
        }
        lines.flush()?;
        self.read = self.read.saturating_add(portion.bytes.len() as u64);
        Ok(())
    }

    // A clean block, whose last byte stands at this place of the record.
    fn enter_clean(&mut self, lines: &mut Lines, last: u64) -> Result<(), Told> {
        self.blocks = self.blocks.saturating_add(1);
        self.clean = self.clean.saturating_add(1);
        let Book { blocks, number, .. } = *self;
        let start = start(last);
        self.number = line_codes::next_number(number);
        lines.tell(format_args!("block {blocks} at {start}, number {number}: clean\n"))
    }

    // A block to be repeated, with the request that came of it.
    fn enter_repeat(&mut self, lines: &mut Lines, last: u64, request: [u8; 2]) -> Result<(), Told> {
        self.blocks = self.blocks.saturating_add(1);
        self.refused = self.refused.saturating_add(1);
        let Book { blocks, number, .. } = *self;
        let start = start(last);
        let [first, second] = request;
        lines.tell(format_args!(
            "block {blocks} at {start}, number {number}: repeat, request {first:02x} {second:02x}\n"
        ))
    }

    // The last code of a resumption.
    fn enter_resumption(&mut self, lines: &mut Lines, place: u64) -> Result<(), Told> {
        self.resumptions = self.resumptions.saturating_add(1);
        let number = self.number;
        lines.tell(format_args!("resumed at {place}, number {number}\n"))
    }

    // A block mended at this bit, in this byte as it arrived.
    fn enter_mended(
        &mut self,
        lines: &mut Lines,
        last: u64,
        bit: u8,
        byte: u8,
    ) -> Result<(), Told> {
        self.blocks = self.blocks.saturating_add(1);
        self.mended = self.mended.saturating_add(1);
        let Book { blocks, number, .. } = *self;
        let start = start(last);
        let place = bit / 8 + 1;
        let weight = 1u8 << (bit % 8);
        let mended = byte ^ weight;
        self.number = line_codes::next_number(number);
        lines.tell(format_args!(
            "block {blocks} at {start}, number {number}: mended, bit {bit} (byte {place}, weight {weight}), {byte:02x} became {mended:02x}\n"
        ))
    }

    // Tells the totals, with what the links of the board handed out, and that the record ends while its receiver waits,
    // where it does so.
    pub(crate) fn tell_totals(self, streams: Streams, play: &Play) -> Result<(), Told> {
        let Book {
            read,
            blocks,
            clean,
            mended,
            refused,
            resumptions,
            dropped,
            ..
        } = self;
        streams.print(format_args!(
            "blocks {blocks}: {clean} clean, {mended} mended, {refused} to be repeated\nresumptions {resumptions}\n"
        ))?;
        let keyboard = play.keyboard;
        let modem = play.modem;
        let socket = play.socket;
        streams.print(format_args!(
            "bytes {read}, of these {dropped} dropped while waiting\nhanded out: keyboard {keyboard}, modem {modem}, socket {socket} bytes\n"
        ))?;
        if let Phase::Waiting(_) = play.board.receiver.phase {
            let number = play.board.receiver.number;
            streams.print(format_args!("the record ends while block {number} is awaited\n"))?;
        }
        Ok(())
    }
}

// The place of a block's first byte, where its last stands at this one.
fn start(last: u64) -> u64 {
    last.saturating_sub(16)
}
