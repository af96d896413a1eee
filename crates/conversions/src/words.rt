// Words of 32 and 64 bits by their numbers: an int or a float, a long or a double. The impls are written out, since no macro may write one here.
// `as` where a number is cut: the contract keeps it in range, and TryFrom would give a Result that cannot fail.
ghost use Rattle.std.specs.Prelude.{◌≡◌, ℕ, ◌*◌, ◌<◌, ◌≤◌, ◌^◌};
ghost use Rattle.std.proofs.Common.{lit≤};

pub trait Word: Copy + Drop {
    ghost number: { Self → ℕ };

    // How many bits lie below the highest, a sign.
    ghost below: { ℕ };

    // The weight of the sign.
    fn sign() -> u64
        ensures { result ≡ 2 ^ below };

    fn number(self) -> u64
        ensures same { result ≡ number self }
        ensures in_range { result < 2 * 2 ^ below };

    fn of_number(n: u64) -> Self
        requires { n < 2 * 2 ^ below }
        ensures { number result ≡ n };

    ghost narrow: { below ≤ 63 };
}

impl Word for u32 {
    ghost number = { λ n. n };

    ghost below = { 31 };

    ghost narrow = { lit≤ tt };

    fn sign() -> u64 {
        0x8000_0000
    }

    fn number(self) -> u64 {
        u64::from(self)
    }

    fn of_number(n: u64) -> u32 {
        n as u32
    }
}

impl Word for u64 {
    ghost number = { λ n. n };

    ghost below = { 63 };

    ghost narrow = { lit≤ tt };

    fn sign() -> u64 {
        0x8000_0000_0000_0000
    }

    fn number(self) -> u64 {
        self
    }

    fn of_number(n: u64) -> u64 {
        n
    }
}
