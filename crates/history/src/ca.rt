// CA of ten years, and their sum.
ghost use Rattle.std.specs.Prelude.{◌≡◌, ◌≤◌};
ghost use Rattle.history.specs.Years.{cas_from};
ghost use Rattle.history.specs.Fits.{AtMost, CasSumIs};

use std::array::from_fn;

// CA of each of the ten years, in thousandths. No history begins after 2021, so no year overflows.
pub fn cas_from(first: u64, filiere: u64) -> [u64; 10]
    requires { first ≤ 2021 }
    ensures { result ≡ cas_from first filiere }
{
    from_fn(|k| note::ca(first + (k as u64), filiere))
}

// The sum of CA over the n history years. It is cut here and not by its callers: which of the ten are summed is what it promises.
pub fn cas_sum(cas: &[u64; 10], n: usize) -> u64
    requires { (n ≤ 10) × AtMost 9_999 cas.now }
    ensures { CasSumIs n cas.now result }
{
    cas[..n].iter().sum()
}
