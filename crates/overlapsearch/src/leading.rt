// Leading words, as they lie in the bytes of a package.

ghost use Rattle.std.specs.Prelude.{◌≤◌};
ghost use Rattle.words.specs.Laid.{Laid};
ghost use Rattle.overlapsearch.specs.Position.{AtMost24};

// As many words as count says, at most 64 of at most 24 letters each: word g, from 0, is the lens[g] bytes from starts[g] on.
#[derive(Clone, Copy)]
pub struct LeadingWords<'a> {
    pub starts: &'a [usize],
    pub lens: &'a [usize],
    pub bytes: &'a [u8],
    pub count: usize,
    pub ghost laid: { Laid starts.now lens.now bytes.now count },
    pub ghost few: { count ≤ 64 },
    pub ghost short: { AtMost24 lens.now count },
}

impl<'a> LeadingWords<'a> {
    ghost use Rattle.std.specs.Prelude.{◌≡◌, ◌<◌};
    ghost use Rattle.overlapsearch.specs.Leading.{word_in};

    // The letters of word g.
    pub fn letters(&self, g: usize) -> &'a [u8]
        requires { g < self.now.count }
        ensures { result.now ≡ word_in self.now g }
    {
        let start = self.starts[g];
        let end = start + self.lens[g];
        &self.bytes[start..end]
    }
}
