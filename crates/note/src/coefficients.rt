// CA, theta and C by filière.
//
// Where the note has none they give 7 or 0, as the definitions have it: 1 and 9 have refused such a site before, and with an Option each use would need a case
// that cannot come.
ghost use Rattle.std.specs.Prelude.{◌≡◌};
ghost use Rattle.note.specs.Coefficients.{column_of, ca_of, coefficient_c, theta as Coefficients·theta};

use crate::tables::{CA, COEFFICIENTS, COLUMNS, THETAS};

// The column of CA that a filière has: 7 where there is no such filière.
#[tactic(auto, unfolding(crate::specs::Coefficients::column_of, crate::specs::Coefficients::columns))]
pub fn column(filiere: u64) -> usize
    ensures { result ≡ column_of filiere }
{
    COLUMNS.get(filiere as usize).copied().unwrap_or(7)
}

// CA of a year in thousandths: 0 where the note has none.
#[tactic(auto, unfolding(crate::specs::Coefficients::ca_of, crate::specs::Coefficients::ca_in))]
pub fn ca(year: u64, filiere: u64) -> u64
    ensures { result ≡ ca_of year filiere }
{
    let c = column(filiere);
    if !(2007..=2024).contains(&year) || 7 <= c {
        return 0;
    }
    CA[7 * ((year - 2007) as usize) + c]
}

// Theta in hundred-thousandths: 0 where there is no such filière.
#[tactic(auto, unfolding(crate::specs::Coefficients::theta, crate::specs::Coefficients::thetas))]
pub fn theta(filiere: u64) -> u64
    ensures { result ≡ Coefficients·theta filiere }
{
    THETAS.get(filiere as usize).copied().unwrap_or(0)
}

// C in hundredths: 0 where there is no such filière. Offshore wind has 1.00 for AL 2021.
#[tactic(auto, unfolding(crate::specs::Coefficients::coefficient_c, crate::specs::Coefficients::coefficients))]
pub fn coefficient(al: u64, filiere: u64) -> u64
    ensures { result ≡ coefficient_c al filiere }
{
    if filiere == 3 && al == 2021 {
        return 100;
    }
    COEFFICIENTS.get(filiere as usize).copied().unwrap_or(0)
}
