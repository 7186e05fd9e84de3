//! The sums over what is counted of items.
ghost use Rattle.std.specs.Prelude.{◌≡◌, ◌<◌, ◌^◌, length};
ghost use Rattle.self_tests.specs.Summaries.{refused_of, classes_of, readings_of};

use crate::counts::Count;

/// How many items are refused, and how many packed classes and readings the others have.
#[derive(Clone, Copy, Debug)]
pub struct Sums {
    pub refused: u64,
    pub classes: u64,
    pub readings: u64,
}

/// What items come to.
pub fn sums_of(counts: &[Count]) -> Sums
    requires { length counts.now < 2 ^ 32 }
    ensures refused { result.refused ≡ refused_of counts.now }
    ensures classes { result.classes ≡ classes_of counts.now }
    ensures readings { result.readings ≡ readings_of counts.now }
{
    let mut sums = Sums {
        refused: 0,
        classes: 0,
        readings: 0,
    };
    for count in counts {
        match count {
            Count::Refused | Count::NoMemory => sums.refused += 1,
            Count::Found { classes, readings } => {
                sums.classes += *classes as u64;
                sums.readings += *readings as u64;
            }
        }
    }
    sums
}
