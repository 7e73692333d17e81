// What the bytes of a number say, by the type of the value.
ghost use Rattle.std.specs.Prelude.{◌≡◌};
ghost use Rattle.std.specs.Option.{option_map};
ghost use Rattle.awd_value.specs.Types.{type_number, fixed_size};
ghost use Rattle.awd_value.specs.Values.{told, value_of, value_in, Within, size_or0};

use crate::types::ValueType;
use awd_source::{Run, spelled_at};
use std::num::{f32_from_bits_with_nan, f64_from_bits_with_nan};

// A value that is a number, or yes or no.
#[derive(Clone, Copy, PartialEq, Debug)]
pub enum Number {
    Signed(i32),
    Unsigned(u32),
    Single(f32),
    Double(f64),
    YesNo(bool),
}

impl ValueType {
    // The value of bytes of this type; none for text and raw bytes, and where the bytes have not the type's size. Any byte but 0 is
    // yes; a colour and an ID are unsigned; a pattern that is no number gives a float that is not a number.
    pub fn value(self, bytes: &[u8]) -> Option<Number>
        ensures { option_map told result ≡ value_of (type_number self) bytes.now }
    {
        let size = self.size()?;
        if size.bytes != bytes.len() as u64 {
            return None;
        }
        // the bytes are just those of the number
        Some(value_in(self, spelled_at(&Run::new(bytes), 0, size)))
    }
}

// A number as a value of a type. (`as`: the number has the type's size, so nothing is cut off, and `TryFrom` would have a branch that is never taken.)
fn value_in(value_type: ValueType, spelled: u64) -> Number
    requires { Within (fixed_size (type_number value_type)) spelled }
    ensures { told result ≡ value_in (type_number value_type) (size_or0 (fixed_size (type_number value_type))) spelled }
{
    match value_type {
        ValueType::Int8 => Number::Signed(i32::from((spelled as u8).cast_signed())),
        ValueType::Int16 => Number::Signed(i32::from((spelled as u16).cast_signed())),
        ValueType::Int32 => Number::Signed((spelled as u32).cast_signed()),
        ValueType::Float32 => Number::Single(f32_from_bits_with_nan(spelled as u32)),
        ValueType::Float64 => Number::Double(f64_from_bits_with_nan(spelled)),
        ValueType::Bool => Number::YesNo(spelled != 0),
        _ => Number::Unsigned(spelled as u32),
    }
}
