// S lines: edition, AL, filière, meter, PS.
ghost use Rattle.std.specs.Prelude.{◌≡◌};
ghost use Rattle.meaning.specs.Line.{S, meter_of as meter_in};
ghost use Rattle.meaning.specs.Refusals.{is_too_soon};
ghost use Rattle.line_form.specs.Views.{meter_repr};
ghost use Rattle.line_form.specs.Reads.{where_formed, site_read_of};

use crate::{Meter, Site};
use rounding::Watts;

// The meter of a field, T or I; none for any other (5).
#[tactic(auto, using(crate::proofs::LetterLaws::meter_one, crate::proofs::LetterLaws::meter_none), unfolding(meaning::specs::Line::meter_of_letter))]
fn meter_of(field: &[u8]) -> Option<Meter>
    ensures { result ≡ meter_repr (meter_in field.now) }
{
    match field {
        [b'T'] => Some(Meter::Curve),
        [b'I'] => Some(Meter::Index),
        _ => None,
    }
}

// 9: filières 6 to 11 are certified only from AL 2023 on.
#[tactic(auto, unfolding(meaning::specs::Refusals::is_too_soon))]
pub fn is_too_soon(al: u64, filiere: u64) -> bool
    ensures { result ≡ is_too_soon al filiere }
{
    6 <= filiere && al < 2023
}

// The site of an S line; none where a field is not in its form (5).
#[tactic(auto, using(crate::proofs::Readers::site_parts))]
pub fn read_site(line: &[u8]) -> Option<Site>
    ensures { result ≡ where_formed S line.now (site_read_of line.now) }
{
    let edition = text::split(text::rest(line));
    if !text::is_edition(edition.field) {
        return None;
    }
    let al = text::split(edition.rest);
    let filiere = text::split(al.rest);
    let meter = text::split(filiere.rest);
    Some(Site {
        al: text::number(al.field)?,
        filiere: text::number(filiere.field)?,
        meter: Some(meter_of(meter.field)?),
        ps: Watts(text::number(text::field(meter.rest))?),
    })
}
