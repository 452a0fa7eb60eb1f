// Asks proposers of any kind in their order.
ghost use Rattle.std.specs.Prelude.{◌≡◌, []};
ghost use Rattle.dsv_cli.specs.Turns.{ComesTo, Gives};

use dsv_base::{Items, NoMemory};

/// The most offers of one proposer that are refused.
const MOST_OFFERS: u32 = 32;

/// What came of asking a proposer once.
#[derive(Drop)]
pub(crate) enum Turn<A, K> {
    /// It offers nothing more.
    Nothing,
    /// Its offer is accepted.
    Accepted(A),
    /// Its offer is refused.
    Refused(K),
}

/// Asks the proposers in their order, each by `ask`, until an offer is accepted, and keeps the
/// refused ones. A proposer that offers nothing, or whose 32nd offer was refused, is dropped; one
/// whose offer is accepted stays in front.
pub(crate) fn first_accepted<P: Drop, A: Drop, K: Drop, F>(
    proposers: &mut Vec<P>,
    kept: &mut Items<K>,
    ask: F,
) -> Result<Option<A>, NoMemory>
where
    F: Fn(&mut P) -> Result<Turn<A, K>, NoMemory>,
    requires callable { F.IsAlwaysCallable ask }
    requires none { kept.old ≡ [] }
    ensures { ComesTo (Gives (F.post ask)) proposers.old.items proposers.new.items kept.new result }
{
    let mut refused = 0;
    'asking: while !proposers.is_empty() {
        match ask(&mut proposers[0])? {
            Turn::Nothing => {
                proposers.remove(0);
                refused = 0;
            }
            Turn::Accepted(found) => return Ok(Some(found)),
            Turn::Refused(offer) => {
                kept.push(offer)?;
                refused += 1;
                if refused == MOST_OFFERS {
                    proposers.remove(0);
                    refused = 0;
                }
            }
        }
    }
    Ok(None)
}
