// What a job costs: the number of weight lists that are worked for a list, told without working them.
#![tactic(auto)]

ghost use Rattle.std.specs.Prelude.{◌≡◌};
ghost use Rattle.definition.specs.Cost.{lists};
ghost use Rattle.weights.specs.Lists.{listed};
ghost use Rattle.weights.specs.Sizes.{Bounded};

use weights::Weights;

// 1, with the number for the rest, and one number for each different weight of the rest, for the rest with the first weight added where
// that weight stands first.
pub fn lists(list: Weights) -> u32
    requires { Bounded list }
    ensures { result ≡ lists (listed list) }
{
    if list.len == 0 {
        return 1;
    }
    let first = list.places[0];
    let rest = list.without(0);
    let mut number = 1 + lists(rest);
    for j in 0..rest.len {
        if rest.copies(j, j) == rest.copies(j, 0) {
            number += lists(rest.with_sum(j, first));
        }
    }
    number
}
