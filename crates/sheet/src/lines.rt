// The lines of a sheet (document 01, The printed sheet).
ghost use Rattle.meaning.specs.Text.{year_text};
ghost use Rattle.sheet.specs.Adds.{Adds};
ghost use Rattle.sheet.specs.SheetTexts.{line_text};

use crate::Printed;

impl Printed {
    // Puts a letter, and each number after a tab. Any numbers, and no `Refusal`: the text is promised of every answer.
    pub(crate) fn put_line(&mut self, letter: u8, numbers: &[u64])
        ensures { Adds self.old self.new (line_text letter numbers.now) }
    {
        self.put(letter);
        for number in numbers {
            self.put_tabbed(*number);
        }
        self.put(b'\n');
    }

    // Puts Y, year, case, points present: apart from the others, since a letter stands among its fields.
    pub(crate) fn put_year(&mut self, year: u64, letter: u8, present: u64)
        ensures { Adds self.old self.new (year_text year letter present) }
    {
        self.put(b'Y');
        self.put_tabbed(year);
        self.put(b'\t');
        self.put(letter);
        self.put_tabbed(present);
        self.put(b'\n');
    }
}
