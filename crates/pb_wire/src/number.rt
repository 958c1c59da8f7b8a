//! Numbers of the schema.
ghost use Rattle.std.specs.Prelude.{◌≡◌};
ghost use Rattle.schema.specs.Shape.{Format, U32, U64, I32, I64, Flag, NumberValue, number_from};
ghost use Rattle.schema.specs.Texts.{FitsNumber, number_to};

/// A number that is written as a varint.
pub trait Number: Copy + Drop {
    ghost format: { Format };

    ghost value: { Self → NumberValue format };

    /// The number that a varint stands for.
    fn from_varint(varint: u64) -> Self
        ensures { value result ≡ number_from format varint };

    /// The varint that stands for the number, which is one of its format.
    fn to_varint(self) -> u64
        ensures varint { result ≡ number_to format (value self) }
        ensures fits { FitsNumber format (value self) };
}

impl Number for u32 {
    ghost format = { U32 };

    ghost value = { λ x. x };

    fn from_varint(varint: u64) -> u32 {
        (varint % 4_294_967_296) as u32
    }

    fn to_varint(self) -> u64 {
        u64::from(self)
    }
}

impl Number for u64 {
    ghost format = { U64 };

    ghost value = { λ x. x };

    fn from_varint(varint: u64) -> u64 {
        varint
    }

    fn to_varint(self) -> u64 {
        self
    }
}

impl Number for i32 {
    ghost format = { I32 };

    ghost value = { λ x. x };

    fn from_varint(varint: u64) -> i32 {
        ((varint % 4_294_967_296) as u32).cast_signed()
    }

    fn to_varint(self) -> u64 {
        i64::from(self).cast_unsigned()
    }
}

impl Number for i64 {
    ghost format = { I64 };

    ghost value = { λ x. x };

    fn from_varint(varint: u64) -> i64 {
        varint.cast_signed()
    }

    fn to_varint(self) -> u64 {
        self.cast_unsigned()
    }
}

impl Number for bool {
    ghost format = { Flag };

    ghost value = { λ x. x };

    fn from_varint(varint: u64) -> bool {
        varint != 0
    }

    fn to_varint(self) -> u64 {
        if self { 1 } else { 0 }
    }
}
