// Bytes as text, in base sixteen.
use std::fmt;
use system::Output;

// A sum that stays within its type, so that a count has no bound to prove. No file is so long that it is reached.
pub(crate) fn sum(a: u64, n: usize) -> u64 {
    a.wrapping_add(n as u64)
}

// The two digits of each byte, or a dash where there are none. The trial writes them so too; each program keeps its own
// words, since the formats are two and nothing but their stored texts holds either.
#[derive(Clone, Copy)]
pub(crate) struct Hex<'a>(pub(crate) &'a [u8]);

impl fmt::Display for Hex<'_> {
    fn fmt<W: fmt::Write>(&self, f: &mut fmt::Formatter<W>) -> fmt::Result {
        let bytes = self.0;
        if bytes.is_empty() {
            return f.write_str("-");
        }
        for byte in bytes {
            write!(f, "{byte:02x}")?;
        }
        Ok(())
    }
}

// As many bytes as are written in one line: what one call of the links can give a module.
const LINE: usize = 75;

// Writes bytes behind a name, in lines of LINE at most; nothing where there are none.
pub(crate) fn print_lines(out: &mut Output, name: &'static str, bytes: &[u8]) {
    for part in bytes.chunks(LINE) {
        let part = Hex(part);
        out.print(format_args!("{name} {part}\n"));
    }
}
