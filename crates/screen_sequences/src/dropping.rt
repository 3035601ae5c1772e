// Which unfinished sequence drops a code.
ghost use Rattle.std.specs.Prelude.{◌≡◌};
ghost use Rattle.screen_sequences.specs.Sequences.{is_separator};

use crate::Sequence;

impl Sequence {
    // Whether one code is to be dropped.
    pub(crate) fn is_separator(self) -> bool
        ensures { result ≡ is_separator self }
    {
        matches!(self, Sequence::Separator)
    }
}
