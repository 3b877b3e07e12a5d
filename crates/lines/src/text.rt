// A text that grows in a lent buffer.
ghost use Rattle.std.specs.Prelude.{◌+◌, ◌++◌, length};
ghost use Rattle.decimal.specs.Text.{text};
ghost use Rattle.lines.specs.Texts.{Puts, Room};

// A lent buffer, and the place at which the text goes on.
#[derive(Drop)]
pub struct Text<'a> {
    pub out: &'a mut [u8],
    pub at: usize,
}

impl Text<'_> {
    // Puts these bytes.
    pub fn put(&mut self, bytes: &[u8])
        requires { Room self.old (length bytes.now) }
        ensures { Puts self.old bytes.now self.new }
    {
        self.at = decimal::put(bytes, self.out, self.at);
    }

    // Puts a number.
    pub fn number(&mut self, n: u64)
        requires { Room self.old (length (text n)) }
        ensures { Puts self.old (text n) self.new }
    {
        self.at = decimal::write(n, self.out, self.at);
    }

    // Puts a word and then a number.
    pub fn word(&mut self, word: &[u8], n: u64)
        requires { Room self.old (length word.now + length (text n)) }
        ensures { Puts self.old (word.now ++ text n) self.new }
    {
        self.put(word);
        self.number(n);
    }
}
