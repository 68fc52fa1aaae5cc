// Two parts of a map, or two maps of a run, put together: number by number.
ghost use Rattle.std.specs.Prelude.{◌≡◌, ◌^◌, ◌<◌};
ghost use Rattle.field.specs.Workings.Placing.{plus, Fitting};

use crate::Placing;
use std::ops::Add;

impl Add for Placing {
    type Output = Placing;

    ghost can_add = { λ p q. Fitting (plus p q) };

    ghost add_gives = { λ p q r. r ≡ plus p q };

    fn add(self, q: Placing) -> Placing {
        Placing {
            opens: self.opens + q.opens,
            assured: self.assured + q.assured,
            driven: self.driven + q.driven,
            stranded: self.stranded + q.stranded,
        }
    }
}
