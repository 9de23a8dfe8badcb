// The best child of a vertex: the one that a path to the exit gains the most by, and of several the smallest.
#![tactic(auto)]

ghost use Rattle.std.specs.Prelude.{◌≡◌, length};
ghost use Rattle.rule.specs.Tables.{count_of};
ghost use Rattle.rule.specs.Next.{worth as next_worth};
ghost use Rattle.children.specs.Children.{Weighable, Choosable, Chosen};

use rule::Choosing;

// A child, and what a path gains that goes on to it.
#[derive(Clone, Copy)]
pub struct Choice {
    pub child: u32,
    pub gain: u64,
}

// What a path gains that goes on to u: `end` at the exit, else what the count of u and the best from u come to.
#[tactic(auto, using(rule::proofs::Worth::worth_exit, rule::proofs::Worth::worth_other))]
fn worth(by: Choosing, counts: &[u64], best: &[u64], t: u32, end: u64, u: u32) -> u64
    requires { Weighable counts.now best.now t u }
    ensures { result ≡ next_worth by (count_of counts.now) t end (count_of best.now) u }
{
    if u == t {
        return end;
    }
    let count = counts[u as usize];
    let rest = best[u as usize];
    match by {
        Choosing::Sum => count + rest,
        Choosing::Weakest => (count + 1).min(rest),
    }
}

// The first child of a row that is worth the most.
pub fn choose(by: Choosing, row: &[u32], counts: &[u64], best: &[u64], t: u32, end: u64) -> Choice
    requires { Choosable row.now counts.now best.now t }
    ensures { Chosen
        by
        row.now
        counts.now
        best.now
        t
        end
        (length row.now)
        result.child
        result.gain }
{
    let mut chosen = Choice {
        child: row[0],
        gain: worth(by, counts, best, t, end, row[0]),
    };
    for &u in &row[1..] {
        let gain = worth(by, counts, best, t, end, u);
        if gain > chosen.gain {
            chosen = Choice { child: u, gain };
        }
    }
    chosen
}
