// The fields of a C or P line: a date and 20 values.
ghost use Rattle.std.specs.Prelude.{◌≡◌, List, ℕ};
ghost use Rattle.std.specs.Bool.{then_some};
ghost use Rattle.text.specs.Numbers.{is_dash};
ghost use Rattle.meaning.specs.Line.{Form, number, number_or_dash, in_form, most_power, most_profile, C, P};
ghost use Rattle.line_form.specs.Reads.{where_formed, points_read_of, profiles_read_of};
ghost use Rattle.line_form.specs.Rows.{point_in, profile_in, are_values, row_of};

use crate::dates::read_date;
use calendar::Date;
use rounding::Watts;

// What a C line says: its date, and its 20 points, none for a missing one, in an array: there is no heap.
#[derive(Clone, Copy)]
pub struct PointsRead {
    pub date: Date,
    pub points: [Option<Watts>; 20],
}

// What a P line says: its date, and its 20 profile values.
#[derive(Clone, Copy)]
pub struct ProfilesRead {
    pub date: Date,
    pub values: [u64; 20],
}

// What a field of a row gives: a value, or none where the field is not in its form (5).
trait Value: Copy + Default {
    ghost form: { Form };

    ghost value_in: { List ℕ → Self };

    fn read(field: &[u8]) -> Option<Self>
        ensures { result ≡ then_some (in_form form field.now) (value_in field.now) };
}

// Whether a field is a dash, which stands for a missing point.
#[tactic(auto, unfolding(text::specs::Numbers::is_dash))]
fn is_dash(field: &[u8]) -> bool
    ensures { result ≡ is_dash field.now }
{
    matches!(field, [b'-'])
}

// A point: a number of W, or a dash for a missing one.
impl Value for Option<Watts> {
    ghost form = { number_or_dash most_power };

    ghost value_in = { point_in };

    #[tactic(auto, unfolding(meaning::specs::Line::in_form, crate::specs::Rows::point_in, text::specs::Numbers::number_in))]
    fn read(field: &[u8]) -> Option<Self> {
        if is_dash(field) {
            return Some(None);
        }
        Some(Some(Watts(text::number(field)?)))
    }
}

// A profile value: a number.
impl Value for u64 {
    ghost form = { number 0 most_profile };

    ghost value_in = { profile_in };

    #[tactic(auto, unfolding(meaning::specs::Line::in_form, crate::specs::Rows::profile_in, text::specs::Numbers::number_in))]
    fn read(field: &[u8]) -> Option<Self> {
        text::number(field)
    }
}

// 20 values, the first fields of what is left of a line past its date; none where one is not in its form (5).
#[tactic(auto, using(crate::proofs::Rows::row_stops))]
fn read_row<V: Value>(after_date: &[u8]) -> Option<[V; 20]>
    ensures { result ≡ then_some (are_values V.form after_date.now) (row_of V.value_in after_date.now) }
{
    let mut values = [V::default(); 20];
    let mut rest = after_date;
    // a `for` and no chain: each value starts where the one before it ended, and the first that is not in its form ends it
    for h in 0..20 {
        let value = text::split(rest);
        values[h] = V::read(value.field)?;
        rest = value.rest;
    }
    Some(values)
}

// What a C line says, in which a point may be missing; none where a field is not in its form (5).
#[tactic(auto, using(crate::proofs::Rows::points_parts))]
pub fn read_points(line: &[u8]) -> Option<PointsRead>
    ensures { result ≡ where_formed C line.now (points_read_of line.now) }
{
    let dated = read_date(line)?;
    let points = read_row(dated.rest)?;
    Some(PointsRead {
        date: dated.date,
        points,
    })
}

// What a P line says, in which each value is a number; none where a field is not in its form (5).
#[tactic(auto, using(crate::proofs::Rows::profiles_parts))]
pub fn read_profiles(line: &[u8]) -> Option<ProfilesRead>
    ensures { result ≡ where_formed P line.now (profiles_read_of line.now) }
{
    let dated = read_date(line)?;
    let values = read_row(dated.rest)?;
    Some(ProfilesRead {
        date: dated.date,
        values,
    })
}
