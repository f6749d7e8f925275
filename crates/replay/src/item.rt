// The items of what is lent: numbers of one, two, four and eight bytes.
ghost use Rattle.std.specs.Prelude.{◌≡◌, ◌≤◌, ℕ};
ghost use Rattle.std.proofs.Common.{rules};

pub trait Item: Copy {
    // An item as it is before a call: its bytes are a5.
    const LENT: Self;

    const BYTES: u32;

    ghost BYTES: { ℕ };

    ghost value: { Self → ℕ };

    fn number(self) -> u64
        ensures { result ≡ value self };

    // The item that x ends with. A line whose argument has more than 32 bits where it may not is not read.
    fn low(x: u64) -> Self;

    ghost few_bytes: { BYTES ≤ 8 };
}

impl Item for u8 {
    const LENT: u8 = 0xa5;

    const BYTES: u32 = 1;

    ghost BYTES = { 1 };

    ghost value = { λ x. x };

    fn number(self) -> u64 {
        u64::from(self)
    }

    fn low(x: u64) -> u8 {
        (x % 0x100) as u8
    }

    ghost few_bytes = { Prim.search rules };
}

impl Item for u16 {
    const LENT: u16 = 0xa5a5;

    const BYTES: u32 = 2;

    ghost BYTES = { 2 };

    ghost value = { λ x. x };

    fn number(self) -> u64 {
        u64::from(self)
    }

    fn low(x: u64) -> u16 {
        (x % 0x1_0000) as u16
    }

    ghost few_bytes = { Prim.search rules };
}

impl Item for u32 {
    const LENT: u32 = 0xa5a5_a5a5;

    const BYTES: u32 = 4;

    ghost BYTES = { 4 };

    ghost value = { λ x. x };

    fn number(self) -> u64 {
        u64::from(self)
    }

    fn low(x: u64) -> u32 {
        (x % 0x1_0000_0000) as u32
    }

    ghost few_bytes = { Prim.search rules };
}

impl Item for u64 {
    const LENT: u64 = 0xa5a5_a5a5_a5a5_a5a5;

    const BYTES: u32 = 8;

    ghost BYTES = { 8 };

    ghost value = { λ x. x };

    fn number(self) -> u64 {
        self
    }

    fn low(x: u64) -> u64 {
        x
    }

    ghost few_bytes = { Prim.search rules };
}
