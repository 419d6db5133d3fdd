// The NCC.
ghost use Rattle.std.specs.Prelude.{◌≡◌, ◌≤◌, ◌<◌, ◌*◌};
ghost use Rattle.rounding.specs.Units.{in_w};
ghost use Rattle.curve.specs.Places.{ncc_of};

use rounding::{Power, Watts};

// The NCC: C times the mean of the n present points.
#[tactic(auto, using(note::proofs::Factors::c_most), unfolding(crate::specs::Places::ncc_of))]
pub fn ncc(al: u64, filiere: u64, sum: Power, n: u64) -> Watts
    requires { (0 < n) × (n ≤ 4400) × (sum.0 ≤ 20_000_000_000_000 * n) }
    ensures { result ≡ in_w (ncc_of al filiere sum.0 n) }
{
    let c = note::coefficient(al, filiere);
    rounding::level(c, sum, n)
}
