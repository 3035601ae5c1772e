// The mode `memory`: of a process's status, as the system writes it in /proc, the line that has its peak memory.
use std::io::Read;
use system::{Output, read_full};

// Writes the line that begins with these words; no other line of a status has them in it. Each place is looked at and not
// each line alone, since of any other file the rest of a line from such words on is written, as ever.
pub(crate) fn write_peak(out: &mut Output, record: &mut impl Read) {
    let mut status = [0u8; 4096];
    let n = read_full(record, &mut status);
    for from in 0..n {
        let rest = &status[from..n];
        if rest.starts_with(b"VmHWM:") {
            out.write_all(line_of(rest));
        }
    }
}

// The first line of a text, with its end.
fn line_of(text: &[u8]) -> &[u8] {
    text.split_inclusive(|byte| *byte == b'\n')
        .next()
        .unwrap_or(text)
}
