// Reads and writes of an array at any index: past its end a read is the value given, and a write does nothing.
ghost use Rattle.std.specs.Prelude.{◌≡◌, get_or, set};

pub fn item_or<T: Copy, const N: usize>(items: &[T; N], i: usize, default: T) -> T
    ensures { result ≡ get_or items.now i default }
{
    items.get(i).copied().unwrap_or(default)
}

pub fn with_item<T: Copy, const N: usize>(items: [T; N], i: usize, item: T) -> [T; N]
    ensures { result ≡ set items i item }
{
    let mut changed = items;
    if i < N {
        changed[i] = item;
    }
    changed
}
