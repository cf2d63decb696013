//! What went wrong outside, how it is counted, and calls of which listed ones fail.

ghost use Rattle.std.specs.Prelude.{◌≡◌};
ghost use Rattle.std.specs.List.Sorted.{IsNonDecreasing};
ghost use Rattle.evac_model.specs.Counts.{one_more};
ghost use Rattle.evac_model.specs.Numbers.{is_in};

use crate::list::NumberList;
use std::marker::Model;

/// A call of the outside failed, and did nothing but raise the count of faults.
#[derive(Clone, Copy, Debug, PartialEq, Eq)]
pub struct Failed;

/// One more, where `u64::MAX` stands still.
pub fn count_up(count: u64) -> u64
    ensures { result ≡ one_more count }
{
    count.saturating_add(1)
}

// Whether a number is one of a list whose numbers don't fall, by halving.
fn has(numbers: &[u64], number: u64) -> bool
    requires { IsNonDecreasing numbers.now }
    ensures { result ≡ is_in number numbers.now }
{
    numbers.binary_search(&number).is_ok()
}

/// Which calls fail, and how many were made. The first call has the number 1. The number of calls
/// stands still at `u64::MAX`, and a call that doesn't raise it isn't listed. Contracts see the set
/// of the numbers listed, rising. They are kept in order, so that each call looks for its number by
/// halving.
#[derive(Debug, Drop)]
pub struct CallCount {
    fails: NumberList,
    made: u64,
}

impl Model for CallCount {
    ghost use Rattle.std.specs.List.Sorted.{IsNonDecreasing};
    ghost use Rattle.evac_model.specs.Counts.{Calls};
    ghost use Rattle.evac_model.specs.Numbers.{rising};

    ghost Value = { Calls };

    ghost view = { λ c. record { fails = rising c.fails; made = c.made } };

    ghost invariant = { λ c. IsNonDecreasing c.fails };
}

impl CallCount {
    ghost use Rattle.std.specs.Prelude.{◌≡◌, ◌↔◌, IsTrue};
    ghost use Rattle.evac_model.specs.Counts.{after_call, first_of_calls, IsListed};

    /// No call yet, of which the listed ones will fail, in whatever order and how often they are
    /// listed. It takes no memory.
    pub fn new(fails: NumberList) -> CallCount
        ensures { result ≡ first_of_calls fails }
    {
        let mut numbers = fails.into_vec();
        numbers.sort_unstable();
        CallCount {
            fails: NumberList::from_vec(numbers),
            made: 0,
        }
    }

    /// Counts one call more, and says whether it is listed.
    pub fn is_next_listed(&mut self) -> bool
        ensures listed { IsTrue result ↔ IsListed self.old }
        ensures counted { self.new ≡ after_call self.old }
    {
        let listed = self.made < u64::MAX && has(self.fails.as_slice(), self.made + 1);
        self.made = count_up(self.made);
        listed
    }
}
