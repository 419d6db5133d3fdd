// The case of each history year, the first that fits, and which years have default power (document 01, Cases).
ghost use Rattle.std.specs.Prelude.{◌≡◌};
ghost use Rattle.meaning.specs.Cases.{mark, is_default};
ghost use Rattle.meaning.specs.Text.{letter_of_case};
ghost use Rattle.line_form.specs.Views.{meter_view};
ghost use Rattle.history.specs.Cases.{case_view, case_with, cases_of, default_years};

use crate::ValidYears;
use line_form::Meter;
use std::array::from_fn;

// Measured; profiled (T1, P); rebuilt from curves (T2) or from profiled years (T3, I5); default power (T4, I6).
#[derive(Clone, Copy)]
pub enum Case {
    M,
    T1,
    T2,
    T3,
    T4,
    P,
    I5,
    I6,
}

impl From<Case> for u8 {
    ghost from_gives = { λ case letter. letter ≡ letter_of_case (case_view case) };

    // The letter or digit of a case on the sheet: the conversion itself.
    #[tactic(auto, unfolding(meaning::specs::Text::letter_of_case))]
    fn from(case: Case) -> u8 {
        match case {
            Case::M => b'M',
            Case::T1 => b'1',
            Case::T2 => b'2',
            Case::T3 => b'3',
            Case::T4 => b'4',
            Case::P => b'P',
            Case::I5 => b'5',
            Case::I6 => b'6',
        }
    }
}

// The case of a year, from the meter, whether some year's curve or index is valid, and whether its own are. Each flag is a fact of the years, no choice
// of steps.
#[tactic(auto, unfolding(crate::specs::Cases::case_with, meaning::specs::Cases::curve_case, meaning::specs::Cases::index_case))]
fn case_of(curve_meter: bool, some_curve: bool, some_index: bool, curve: bool, index: bool) -> Case
    ensures { result ≡ case_with curve_meter some_curve some_index (mark curve index) }
{
    if curve_meter {
        if curve {
            return Case::M;
        }
        if index {
            return Case::T1;
        }
        if some_curve {
            return Case::T2;
        }
        if some_index {
            return Case::T3;
        }
        return Case::T4;
    }
    if index {
        return Case::P;
    }
    if some_index {
        return Case::I5;
    }
    Case::I6
}

// The cases of the n history years.
pub fn cases_of(meter: Option<Meter>, valid: ValidYears, n: usize) -> [Case; 10]
    ensures { result ≡ cases_of (meter_view meter) n valid.curves valid.indexes }
{
    let curves = valid.curves;
    let indexes = valid.indexes;
    let curve_meter = meter == Some(Meter::Curve);
    let some_curve = curves.iter().take(n).any(|valid| *valid);
    let some_index = indexes.iter().take(n).any(|valid| *valid);
    from_fn(|k| {
        if k < n {
            case_of(curve_meter, some_curve, some_index, curves[k], indexes[k])
        } else {
            Case::M
        }
    })
}

fn is_default(case: Case) -> bool
    ensures { result ≡ is_default (case_view case) }
{
    matches!(case, Case::T4 | Case::I6)
}

// Which of the n history years have default power.
pub fn default_years(cases: [Case; 10], n: usize) -> [bool; 10]
    ensures { result ≡ default_years n cases }
{
    from_fn(|k| k < n && is_default(cases[k]))
}
