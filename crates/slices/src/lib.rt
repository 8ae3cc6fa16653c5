// Slices: an item or a default, little-endian numbers at a place, and one value everywhere. Every reader answers for every place.
#![tactic(auto)]

ghost use Rattle.std.specs.Prelude.{◌≡◌, ◌<◌, length, replicate, slice_index_or, slice_set};
ghost use Rattle.slices.specs.Little.{bytes_at, short_at, word_at};

// What stands at a place, or the default past the end.
pub fn item_or<T: Copy>(items: &[T], at: usize, default: T) -> T
    ensures { result ≡ slice_index_or items.now at default }
{
    items.get(at).copied().unwrap_or(default)
}

// The N bytes at a place; past the end they are 0.
pub fn bytes_at<const N: usize>(bytes: &[u8], at: u32) -> [u8; N]
    ensures { result ≡ bytes_at N bytes.now at }
{
    std::array::from_fn(|i| item_or(bytes, at as usize + i, 0))
}

// The number of 16 bits at a place; bytes past the end count as 0.
pub fn short_at(bytes: &[u8], at: u32) -> u16
    ensures { result ≡ short_at bytes.now at }
{
    u16::from_le_bytes(bytes_at(bytes, at))
}

// The number of 64 bits at a place; bytes past the end count as 0.
pub fn word_at(bytes: &[u8], at: u32) -> u64
    ensures { result ≡ word_at bytes.now at }
{
    u64::from_le_bytes(bytes_at(bytes, at))
}

// One item becomes this one.
fn put<T: Copy>(items: &mut [T], at: usize, value: T)
    requires { at < length items.old }
    ensures { items.new ≡ slice_set items.old at value }
{
    items[at] = value;
}

// Every item becomes this one, of whatever type is copied: the library's fill says so only where a clone is the value again.
pub fn overwrite<T: Copy>(items: &mut [T], value: T)
    ensures { items.new ≡ replicate (length items.old) value }
{
    for at in 0..items.len() {
        put(items, at, value);
    }
}
