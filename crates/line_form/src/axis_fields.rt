// X and D lines: a date, and a number.
ghost use Rattle.std.specs.Prelude.{◌≡◌};
ghost use Rattle.meaning.specs.Line.{X, D, kind_of as kind_in};
ghost use Rattle.line_form.specs.Reads.{where_formed, kind_where, reading_read_of, daily_read_of};

use crate::dates::read_date;
use calendar::Date;
use readings::Kind;
use rounding::Energy;

// What an X line says.
#[derive(Clone, Copy)]
pub struct ReadingRead {
    pub date: Date,
    pub index: Energy,
    pub kind: Kind,
}

// What a D line says.
#[derive(Clone, Copy)]
pub struct DailyRead {
    pub date: Date,
    pub sum: u64,
}

// The kind of a field; none where it is none of the three letters (5).
#[tactic(auto, using(crate::proofs::LetterLaws::kind_known, crate::proofs::LetterLaws::kind_one, crate::proofs::LetterLaws::kind_none), unfolding(crate::specs::Reads::kind_where))]
fn kind_of(field: &[u8]) -> Option<Kind>
    ensures { result ≡ kind_where (kind_in field.now) }
{
    match field {
        [letter] => Kind::try_from(*letter).ok(),
        _ => None,
    }
}

// What an X line says; none where a field is not in its form (5).
#[tactic(auto, using(crate::proofs::Readers::reading_parts))]
pub fn read_reading(line: &[u8]) -> Option<ReadingRead>
    ensures { result ≡ where_formed X line.now (reading_read_of line.now) }
{
    let dated = read_date(line)?;
    let index = text::split(dated.rest);
    Some(ReadingRead {
        date: dated.date,
        index: Energy(text::number(index.field)?),
        kind: kind_of(text::field(index.rest))?,
    })
}

// What a D line says; none where a field is not in its form (5).
#[tactic(auto, using(crate::proofs::Readers::daily_parts))]
pub fn read_daily(line: &[u8]) -> Option<DailyRead>
    ensures { result ≡ where_formed D line.now (daily_read_of line.now) }
{
    let dated = read_date(line)?;
    let sum = text::number(text::field(dated.rest))?;
    Some(DailyRead {
        date: dated.date,
        sum,
    })
}
