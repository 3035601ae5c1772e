// The mode `receiver`: a receiver that is switched on takes a portion turn by turn, as the board's does.
use crate::judging::{Counts, Told};
use crate::portions::Part;
use crate::states::ReceiverState;
use crate::texts::{Hex, sum};
use block_reader::Verdict;
use line_receiver::{Receiver, Stepped};
use line_turns::take_turn;
use system::Output;

// A receiver, what it judged, and how many bytes it handed out.
#[derive(Clone, Copy)]
pub(crate) struct Receiving {
    receiver: Receiver,
    counts: Counts,
    passed: u64,
    asked: u64,
}

// Writes a block that was judged, with what was handed out.
fn print_block(out: &mut Output, verdict: Verdict, done: Stepped) {
    let verdict = Told(verdict);
    out.print(verdict);
    for handed in [done.values.bytes(), done.request.bytes()] {
        if !handed.is_empty() {
            let handed = Hex(handed);
            out.print(format_args!(" {handed}"));
        }
    }
    out.write_all(b"\n");
}

impl Receiving {
    pub(crate) fn begun() -> Receiving {
        Receiving {
            receiver: Receiver::new().switch_on().next,
            counts: Counts::default(),
            passed: 0,
            asked: 0,
        }
    }

    fn enter(&mut self, out: &mut Output, done: Stepped, writing: bool) {
        self.receiver = done.next;
        self.passed = sum(self.passed, done.values.count);
        self.asked = sum(self.asked, done.request.count);
        if let Some(verdict) = done.judged {
            self.counts.count(verdict);
            if writing {
                print_block(out, verdict, done);
            }
        }
    }
}

// Turn by turn; there are no more of them than bytes. The place of the next one is kept, and not what is left of the
// portion, since that costs less.
impl Part for Receiving {
    fn take(&mut self, out: &mut Output, portion: &mut [u8], writing: bool) {
        let mut at = 0;
        for _ in 0..portion.len() {
            if at >= portion.len() {
                break;
            }
            let turn = take_turn(self.receiver, &portion[at..]);
            self.enter(out, turn.stepped, writing);
            at = at.saturating_add(turn.took);
        }
    }

    fn tell(&self, out: &mut Output) {
        let Receiving {
            receiver,
            counts,
            passed,
            asked,
        } = *self;
        let receiver = ReceiverState(receiver);
        out.print(format_args!(
            "receiver: {counts}\npassed on {passed}, asked {asked} bytes\n{receiver}"
        ));
    }
}
