// Products of dimensions.
ghost use Rattle.std.specs.Prelude.{◌≡◌, ◌+◌, ◌*◌, ◌≤◌};
ghost use Rattle.format.specs.Limits.{limit};
ghost use Rattle.dimensions.specs.Answers.{capped};

use format::limits::LIMIT;

// The highest product, and the most that one is said to be.
const MOST: usize = LIMIT as usize;

const OVER: usize = MOST + 1;

// The product of two numbers, each at most one over the limit; one over it where it would be more.
pub fn times(many: usize, n: usize) -> usize
    requires { (many ≤ limit + 1) × (n ≤ limit + 1) }
    ensures { result ≡ capped (many * n) }
{
    let product = many * n;
    if MOST < product {
        return OVER;
    }
    product
}
