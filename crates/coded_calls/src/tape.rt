// A lent slice that is filled one word behind the other. What does not fit is left out. `us` of the contracts is what comes later: whatever
// is written from the new place on then stands behind what the call wrote.
ghost use Rattle.std.specs.Prelude.{◌∷◌, ◌++◌};
ghost use Rattle.coded_calls.specs.Tapes.{Puts};

#[derive(Drop)]
pub struct Tape<'a> {
    pub words: &'a mut [u64],
    // The place of the next word.
    pub at: usize,
}

impl Tape<'_> {
    // One word.
    pub fn put(&mut self, word: u64)
        ensures { Puts self.old self.new (λ us. word ∷ us) }
    {
        if self.at < self.words.len() {
            self.words[self.at] = word;
            self.at += 1;
        }
    }

    // All words of a slice.
    pub fn put_all(&mut self, words: &[u64])
        ensures { Puts self.old self.new (λ us. words.now ++ us) }
    {
        for word in words {
            self.put(*word);
        }
    }

    // All numbers of a list. Not one function with `put_all`: what `Into` gives of a number is a relation, so that one would take a longer
    // contract to say what it writes.
    pub fn put_list(&mut self, list: &[u32])
        ensures { Puts self.old self.new (λ us. list.now ++ us) }
    {
        for number in list {
            self.put(u64::from(*number));
        }
    }
}
