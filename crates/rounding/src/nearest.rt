// Rounding to nearest, half up.
ghost use Rattle.std.specs.Prelude.{◌≡◌, ◌<◌};
ghost use Rattle.rounding.specs.Rounding.{half_up};

// a over d, rounded. The remainder is compared with d less the remainder, since twice a may not fit.
#[tactic(auto, using(crate::proofs::Laws::half_up_quotient, crate::proofs::Laws::half_up_next))]
pub(crate) fn half_up(a: u64, d: u64) -> u64
    requires { 0 < d }
    ensures { result ≡ half_up a d }
{
    let q = a / d;
    let r = a % d;
    if r < d - r { q } else { q + 1 }
}
