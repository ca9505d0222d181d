// The words of an operation of a decoded program.
ghost use Rattle.std.specs.Prelude.{◌≡◌, ◌≤◌, ◌<◌};
ghost use Rattle.form.specs.Words.{field, kind_in};
ghost use Rattle.form.specs.Form.{Encoded};

// A program's words, and where an operation's 16 begin.
#[derive(Clone, Copy)]
pub struct Coded<'a> {
    pub code: &'a [u16],
    pub at: usize,
    pub ghost encoded: { Encoded code.now at },
}

impl<'a> Coded<'a> {
    // Word 0: the kind. A number, as the other words: run_decoded lends them, and its clause words says what stands in each.
    pub fn kind(self) -> u16
        ensures { result ≡ kind_in self.entry.code.now self.entry.at }
    {
        self.code[self.at]
    }

    // Word k.
    pub fn word(self, k: usize) -> u16
        requires { k < 16 }
        ensures { result ≡ field self.entry.code.now self.entry.at k }
    {
        let i = self.at + k;
        self.code[i]
    }

    // Word 1 of kinds 1 to 15: the target's number.
    pub fn target(self) -> usize
        requires { kind_in self.code.now self.at ≤ 15 }
        ensures value { result ≡ field self.entry.code.now self.entry.at 1 }
        ensures upper_bound { result < 2 }
    {
        self.word(1) as usize
    }
}
