// A writer of numbers: a lent buffer, and the sink that says how and where the next number is written.
ghost use Rattle.std.specs.Prelude.{[], ◌∷◌, ◌≡◌};
ghost use Rattle.answer_numbers.specs.Numbers.{plain, signed, raised};
ghost use Rattle.answer_numbers.specs.Writers.{comma_put, plain_put, signed_put, plain_added, word_put, written};

use crate::sink::{Sink, SinkKind};
use crate::word::put_word;
use answer_text::put::{put_byte, put_i32, put_u64};

#[derive(Drop)]
pub struct Writer<'a> {
    pub out: &'a mut [u8],
    pub sink: Sink,
}

// A signed number moved up so that none is negative.
fn raise(n: i32) -> u64
    ensures { result ≡ raised n }
{
    ((n as i64) + 2147483648) as u64
}

impl Writer<'_> {
    // A comma stands between two numbers.
    fn separate(&mut self)
        ensures { self.new ≡ comma_put self.old }
    {
        if self.sink.is_first {
            self.sink.is_first = false;
        } else {
            self.sink.at = put_byte(self.out, self.sink.at, b',');
        }
    }

    fn put_plain(&mut self, n: u64)
        ensures { self.new ≡ plain_put n self.old }
    {
        self.separate();
        self.sink.at = put_u64(self.out, self.sink.at, n);
    }

    fn put_signed(&mut self, n: i32)
        ensures { self.new ≡ signed_put n self.old }
    {
        self.separate();
        self.sink.at = put_i32(self.out, self.sink.at, n);
    }

    fn add_number(&mut self, n: u64)
        ensures { self.new ≡ plain_added n self.old }
    {
        self.sink.digest = self.sink.digest.add(n);
        self.sink.is_first = false;
    }

    fn put_word(&mut self, n: u64)
        ensures { self.new ≡ word_put n self.old }
    {
        self.sink.at = put_word(self.out, self.sink.at, n);
        self.sink.is_first = false;
    }

    pub fn plain(&mut self, n: u64)
        ensures { self.new ≡ written (plain n ∷ []) self.old }
    {
        match self.sink.kind {
            SinkKind::Column | SinkKind::Dump => self.put_plain(n),
            SinkKind::Digest => self.add_number(n),
            SinkKind::Words => self.put_word(n),
        }
    }

    pub fn signed(&mut self, n: i32)
        ensures { self.new ≡ written (signed n ∷ []) self.old }
    {
        match self.sink.kind {
            SinkKind::Column => self.put_signed(n),
            SinkKind::Dump => self.put_plain(raise(n)),
            SinkKind::Digest => self.add_number(raise(n)),
            SinkKind::Words => self.put_word(raise(n)),
        }
    }
}
