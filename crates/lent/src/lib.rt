// Lent memory: its parts, none longer than it is, so that a caller has no length to prove; whether two hold the same;
// and bytes added to it, as many as fit.
#![tactic(auto)]

ghost use Rattle.std.specs.Prelude.{◌≡◌, min, take, drop};
ghost use Rattle.lent.specs.Memory.{same, written, behind};

// The first bytes of it, or all of them where it has fewer.
pub fn first(s: &[u8], n: usize) -> &[u8]
    ensures { result.now ≡ take n s.now }
{
    &s[..n.min(s.len())]
}

// The bytes past the first, or none where it has no more.
pub fn past(s: &[u8], n: usize) -> &[u8]
    ensures { result.now ≡ drop n s.now }
{
    &s[n.min(s.len())..]
}

// Whether two hold the same bytes.
pub fn is(s: &[u8], word: &[u8]) -> bool
    ensures { result ≡ same s.now word.now }
{
    s == word
}

// Adds what fits of some bytes from a place on: the place behind them.
pub fn add(bytes: &[u8], out: &mut [u8], at: usize) -> usize
    ensures value { result ≡ behind out.old at bytes.now }
    ensures left { out.new ≡ written out.old at bytes.now }
{
    if out.len() <= at {
        return at;
    }
    let fit = bytes.len().min(out.len() - at);
    out[at..at + fit].copy_from_slice(&bytes[..fit]);
    at + fit
}
