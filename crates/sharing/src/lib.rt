// The counts dropped beside a kept path, shared over its inner vertices: to each the quotient, and to the first ones, as many as the remainder, one more.
#![tactic(auto)]

ghost use Rattle.std.specs.Prelude.{◌+◌, ◌<◌, ◌≡◌};
ghost use Rattle.rule.specs.Fold.{one_more};
ghost use Rattle.sharing.specs.Sharing.{Shareable, Shared};

// What place j gets, where each gets the quotient and the first ones, as many as the remainder, one more.
#[tactic(auto, using(rule::proofs::Shares::one_more_first, rule::proofs::Shares::one_more_after))]
fn portion(quotient: u64, remainder: u64, j: u64) -> u64
    requires { quotient < 18446744073709551615 }
    ensures { result ≡ quotient + one_more remainder j }
{
    if j < remainder {
        return quotient + 1;
    }
    quotient
}

// Goes the kept path from the entrance s once more. Each of its k inner vertices gets its portion beside its own count.
pub fn share(counts: &[u64], next: &[u32], out: &mut [u64], s: u32, k: u64, dropped: u64)
    requires { Shareable counts.now next.now out.old s k dropped }
    ensures { Shared counts.now next.now out.old s k dropped k out.new }
{
    if k == 0 {
        return;
    }
    let quotient = dropped / k;
    let remainder = dropped % k;
    let mut v = s as usize;
    for j in 0..k {
        let u = next[v] as usize;
        out[u] = counts[u] + portion(quotient, remainder, j);
        v = u;
    }
}
