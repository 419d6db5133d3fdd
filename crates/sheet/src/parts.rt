// A byte and a tabbed number, put after the text so far (document 01, The printed sheet).
ghost use Rattle.std.specs.Prelude.{[], ◌∷◌};
ghost use Rattle.meaning.specs.Text.{tabbed};
ghost use Rattle.sheet.specs.Adds.{Adds};

use crate::Printed;
use text::{put_byte, put_number};

impl Printed {
    pub(crate) fn put(&mut self, byte: u8)
        ensures { Adds self.old self.new (byte ∷ []) }
    {
        self.length = put_byte(byte, &mut self.bytes, self.length);
    }

    // Puts a tab and a number.
    pub(crate) fn put_tabbed(&mut self, n: u64)
        ensures { Adds self.old self.new (tabbed n) }
    {
        self.put(b'\t');
        self.length = put_number(n, &mut self.bytes, self.length);
    }
}
