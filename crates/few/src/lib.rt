// A few bytes handed on by value: those that a call gives to a module or to the line. There is no heap, so they stand in
// an array that has room for the most that there can be, and a count says how many they are.
//
// specs/Bytes says what they are, and how so many bytes stand in such an array; proofs/Kept that these are the bytes
// again.
#![tactic(auto)]

ghost use Rattle.std.specs.Prelude.{◌≡◌, [], take};
ghost use Rattle.few.specs.Bytes.{few, contents};

// Up to N bytes: the first `count`. The places past them are 0.
#[derive(Clone, Copy)]
pub struct Few<const N: usize> {
    pub codes: [u8; N],
    pub count: usize,
}

impl<const N: usize> Few<N> {
    // No bytes.
    pub fn none() -> Few<N>
        ensures { result ≡ few N [] }
    {
        Few {
            codes: [0; N],
            count: 0,
        }
    }

    // These bytes, as many as there is room for.
    pub fn of(bytes: &[u8]) -> Few<N>
        ensures { result ≡ few N (take N bytes.now) }
    {
        let count = bytes.len().min(N);
        let mut codes = [0; N];
        codes[..count].copy_from_slice(&bytes[..count]);
        Few { codes, count }
    }

    // The bytes: of a count above N there are N.
    pub fn bytes(&self) -> &[u8]
        ensures { result.now ≡ contents self.now }
    {
        match self.codes.get(..self.count) {
            Some(bytes) => bytes,
            None => &self.codes,
        }
    }
}
