//! Writing over the front of an array.
ghost use Rattle.std.specs.Prelude.{◌≡◌, ◌≤◌, length, take, drop};

/// Writes the items over the first that stand in an array, as many as there is room for. The rest stays as it was.
pub fn overwrite_front<T: Copy, const N: usize>(kept: &mut [T; N], items: &[T])
    ensures all_that_fit { length items.now ≤ N → take (length items.now) kept.new ≡ items.now }
    ensures else_the_first { N ≤ length items.now → kept.new ≡ take N items.now }
    ensures the_rest_stays { drop (length items.now) kept.new ≡ drop (length items.now) kept.old }
    ensures room { length kept.new ≡ N }
{
    let fitting = items.len().min(N);
    kept[..fitting].copy_from_slice(&items[..fitting]);
}
