// The bytes that are sent, buffers to be lent, and the sums by which a step holds what comes out.
ghost use Rattle.std.specs.Prelude.{◌≡◌, ℕ, map, length, replicate};
ghost use Rattle.recorded.specs.Sums.{sum_of, rising, Wide};

// The sum of number * (index + 1), modulo 2^32.
pub fn sum_of<T: Copy + Into<u32>>(numbers: &[T]) -> u32
    ensures { (f : T → ℕ) → Wide T.converts f → result ≡ sum_of (map f numbers.now) }
{
    let mut sum: u32 = 0;
    let mut place: u32 = 0;
    for x in numbers {
        let n: u32 = (*x).into();
        place = place.wrapping_add(1);
        sum = sum.wrapping_add(n.wrapping_mul(place));
    }
    sum
}

// Fills the bytes of a message: each is 7 more than the one before, modulo 256.
pub fn fill(bytes: &mut [u8], first: u8)
    ensures { bytes.new ≡ rising first (length bytes.old) }
{
    let mut next = first;
    for byte in bytes.iter_mut() {
        *byte = next;
        next = next.wrapping_add(7);
    }
}

// A buffer that holds x all over. A call of its own, since a long array that stands in a proof is a list of as many terms.
pub fn filled<T: Copy, const N: usize>(x: T) -> [T; N]
    ensures value { result ≡ replicate N x }
    ensures len { N ≡ length result }
{
    [x; N]
}
