// Lent memory of the test programs.
#![tactic(auto)]

ghost use Rattle.std.specs.Prelude.{◌≡◌, All, length};

// An array with the same item at each place. A caller knows that and the length, and no list of the items, which the check would
// count one by one.
pub fn filled<T: Copy, const N: usize>(item: T) -> [T; N]
    ensures len { N ≡ length result }
    ensures items { All (λ x. x ≡ item) result }
{
    [item; N]
}
