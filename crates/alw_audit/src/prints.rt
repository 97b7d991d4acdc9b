ghost use Rattle.std.specs.Prelude.{◌≡◌, ◌<◌, ◌^◌, [], ◌∷◌, length};
ghost use Rattle.alw_audit.specs.Verdicts.{VerdictIsOfWords, pairs_verdict, prints_verdict};

use crate::verdicts::{Difference, Verdict};

/// The number of prints, or the first print, that differs.
pub fn prints_verdict(claimed: &[(u32, u32)], real: &[(u32, u32)]) -> Verdict
    requires claimed { length claimed.now < 2 ^ 32 }
    requires real { length real.now < 2 ^ 32 }
    ensures verdict { result ≡ prints_verdict claimed.now real.now }
    ensures words { VerdictIsOfWords result }
{
    if claimed.len() != real.len() {
        return Verdict::Differs {
            place: Difference::PrintCount,
            claimed: claimed.len() as u64,
            real: real.len() as u64,
        };
    }
    for k in 0..claimed.len() {
        let verdict = pair_verdict(k as u32, claimed[k], real[k]);
        if let Verdict::Differs { .. } = verdict {
            return verdict;
        }
    }
    Verdict::Sound
}

// One print: its context, and its word.
fn pair_verdict(k: u32, claimed: (u32, u32), real: (u32, u32)) -> Verdict
    ensures verdict { result ≡ pairs_verdict k (claimed ∷ []) (real ∷ []) }
    ensures words { VerdictIsOfWords result }
{
    if claimed.0 != real.0 {
        return Verdict::Differs {
            place: Difference::PrintContext { k },
            claimed: u64::from(claimed.0),
            real: u64::from(real.0),
        };
    }
    if claimed.1 != real.1 {
        return Verdict::Differs {
            place: Difference::Print { k },
            claimed: u64::from(claimed.1),
            real: u64::from(real.1),
        };
    }
    Verdict::Sound
}
