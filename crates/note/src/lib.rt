// The operators' note as constants: the peak days of each year (Annex 1, jours PP2) and, by filière, the coefficients CA (3.3), theta (Annex 2) and
// C (Annex 4). What the rules count on, as the twofold rule of CA, is proved of the whole tables in proofs/.
#![tactic(auto)]

mod annex1; // the table of peak days
mod peaks; // the peak days of a year
mod tables; // the tables of coefficients
mod coefficients; // CA, theta and C of a filière

pub use coefficients::{ca, coefficient, column, theta};
pub use peaks::peak_days;
