// When the search begins anew at level 0: after 32 times as many conflicts as the numbers 1, 1, 2,
// 1, 1, 2, 4, 1, 1, 2 and so on say, of Luby, Sinclair and Zuckerman, Optimal Speedup of Las Vegas
// Algorithms (1993; in MiniSat `luby`). Where nothing is known of how long a search takes, no other
// sequence is better by more than a factor in the order of a logarithm. What was learned, the
// activities and the phases stay.
//
// The numbers are made one from the other, as Knuth gives them: after the pair u, v comes u + 1, 1
// where v is the lowest bit of u, and otherwise u, 2 v; each v is a number of the sequence.

/// How many conflicts a Luby number stands for.
const UNIT: u64 = 32;

/// Counts conflicts in runs of 32 times the Luby numbers 1, 1, 2, 1, 1, 2, 4 and so on.
#[derive(Clone, Copy)]
pub(crate) struct Luby {
    /// Knuth's u.
    number: u64,
    /// The present Luby number, Knuth's v.
    power: u64,
    /// How many conflicts are left of the present run.
    left: u64,
}

impl Luby {
    /// The start of the first run, of 32 conflicts.
    pub fn new() -> Luby {
        Luby {
            number: 1,
            power: 1,
            left: UNIT,
        }
    }

    /// Counts one conflict more, and says whether a run ends with it.
    pub fn is_due(&mut self) -> bool {
        if self.left > 1 {
            self.left -= 1;
            return false;
        }
        if self.number & self.number.wrapping_neg() == self.power {
            self.number = self.number.wrapping_add(1);
            self.power = 1;
        } else {
            self.power = self.power.wrapping_mul(2);
        }
        self.left = self.power.wrapping_mul(UNIT);
        true
    }
}
