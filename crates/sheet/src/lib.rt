// The text of a sheet (document 01, The printed sheet): at most 86 bytes of its N line and 46 of each Y line.
#![tactic(auto)]

mod parts; // a byte, and a tabbed number
mod lines; // a line of a letter and numbers, and that of a year

ghost use Rattle.std.specs.Prelude.{◌≡◌, ◌≤◌, length, min, take};
ghost use Rattle.sheet.specs.Adds.{Adds};
ghost use Rattle.sheet.specs.SheetTexts.{row_text, rows_text, sheet_text, Holds};

use answers::Answer;
use close::YearRow;

// A sheet's text: the first `length` bytes. An array with its length, since memory is fixed and there is no heap; the kit's
// vector of fixed capacity is not `Copy`, which a run's result is, and its string takes UTF-8 alone, where a row's letter may be any byte.
#[derive(Clone, Copy)]
pub struct Printed {
    pub bytes: [u8; 546],
    pub length: usize,
}

impl Printed {
    // The text.
    pub fn as_bytes(&self) -> &[u8]
        ensures { result.now ≡ take (min self.now.length 546) self.now.bytes }
    {
        &self.bytes[..self.length.min(546)]
    }

    // A year that the file does not have has no line.
    fn put_row(&mut self, year: YearRow)
        ensures row { Adds self.old self.new (row_text year) }
        ensures short { length (row_text year) ≤ 46 }
    {
        if year.year != 0 {
            self.put_year(year.year, year.case, year.present);
        }
    }

    fn put_rows(&mut self, years: [YearRow; 10])
        ensures rows { Adds self.old self.new (rows_text years) }
        ensures short { length (rows_text years) ≤ 460 }
    {
        for year in years {
            self.put_row(year);
        }
    }

    fn put_sheet(&mut self, answer: Answer, years: [YearRow; 10])
        ensures sheet { Adds self.old self.new (sheet_text answer years) }
        ensures short { length (sheet_text answer years) ≤ 546 }
    {
        match answer {
            Answer::Accepted => self.put_line(b'Z', &[0, 0]),
            Answer::Refused { number, count } => self.put_line(b'Z', &[number, count]),
            Answer::Reported {
                al,
                filiere,
                level,
                points,
            } => {
                self.put_line(b'N', &[al, filiere, level.0, points]);
                self.put_rows(years);
            }
        }
    }
}

pub fn text(answer: Answer, years: [YearRow; 10]) -> Printed
    ensures { Holds result (sheet_text answer years) }
{
    let mut printed = Printed {
        bytes: [0u8; 546],
        length: 0,
    };
    printed.put_sheet(answer, years);
    printed
}
