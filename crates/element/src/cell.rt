// Cells: what a slice can be filled with.
ghost use Rattle.std.specs.Prelude.{◌≡◌, ℕ, ◌<◌, ◌≤◌, List, length};
ghost use Rattle.std.proofs.Common.{lit<, lit≤};
ghost use Rattle.element.specs.Cells.{byte_of};

// A type of value of which any bytes of its width say one.
pub trait Cell: Copy {
    // how many bytes one takes
    ghost WIDTH: { ℕ };

    const WIDTH: usize;

    // the value that bytes say
    ghost value: { List ℕ → Self };

    fn get(from: &[u8]) -> Self
        requires { length from.now ≡ WIDTH }
        ensures { result ≡ value from.now };

    // one takes a byte at least
    ghost nonzero: { 0 < WIDTH };

    // and no more bytes than a block has
    ghost within_payload: { WIDTH ≤ 480 };
}

// A byte, which is itself.
impl Cell for u8 {
    ghost WIDTH = { 1 };

    ghost value = { byte_of };

    ghost nonzero = { lit< tt };

    ghost within_payload = { lit≤ tt };

    const WIDTH: usize = 1;

    fn get(from: &[u8]) -> u8 {
        from[0]
    }
}
