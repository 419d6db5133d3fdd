// B, R and E lines: a year; a year and its rate; a count.
ghost use Rattle.std.specs.Prelude.{◌≡◌};
ghost use Rattle.meaning.specs.Line.{B, R, E};
ghost use Rattle.line_form.specs.Reads.{where_formed, capped_at, rate_read_of};

// What an R line says.
#[derive(Clone, Copy)]
pub struct RateRead {
    pub year: u64,
    pub rate: u64,
}

// The year of a B line; none where it is not in its form (5).
#[tactic(auto, using(crate::proofs::Readers::year_read))]
pub fn read_year(line: &[u8]) -> Option<u64>
    ensures { result ≡ where_formed B line.now (capped_at line.now 1) }
{
    let year = text::rest(line);
    text::number(text::field(year))
}

// The year and the rate of an R line; none where one is not in its form (5).
#[tactic(auto, using(crate::proofs::Readers::rate_parts))]
pub fn read_rate(line: &[u8]) -> Option<RateRead>
    ensures { result ≡ where_formed R line.now (rate_read_of line.now) }
{
    let year = text::split(text::rest(line));
    Some(RateRead {
        year: text::number(year.field)?,
        rate: text::number(text::field(year.rest))?,
    })
}

// The count of an E line; none where it is not in its form (5).
#[tactic(auto, using(crate::proofs::Readers::count_read))]
pub fn read_count(line: &[u8]) -> Option<u64>
    ensures { result ≡ where_formed E line.now (capped_at line.now 1) }
{
    let count = text::rest(line);
    text::number(text::field(count))
}
