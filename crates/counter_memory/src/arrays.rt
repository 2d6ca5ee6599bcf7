// Arrays, entry by entry.
ghost use Rattle.std.specs.Prelude.{◌≡◌, ◌<◌, map, get_or};

use std::array;

// What each entry of an array becomes.
pub fn converted<A: Copy, B: From<A>, const N: usize>(items: &[A; N]) -> [B; N]
    ensures { (f : A → B) → ((x : A) (y : B) → B.from_gives x y → y ≡ f x) → result ≡ map f items.now }
{
    array::from_fn(
        |i| -> B
            requires { i < N }
            ensures { (d : A) → B.from_gives (get_or items.entry.now i d) result }
        { B::from(items[i]) },
    )
}
