// The types that a user attribute's value may have.
ghost use Rattle.std.specs.Prelude.{◌≡◌, Some, None, MatchOption};
ghost use Rattle.awd_value.specs.Types.{type_number, fixed_size, suits, StandsFor, unknown_text};

use awd_source::{FOUR, NumberSize, ONE, TWO};
use std::error::Error;
use std::fmt;

const EIGHT: NumberSize = NumberSize { bytes: 8 };

// The numbers are part of the format.
#[derive(Clone, Copy, PartialEq, Eq, Debug)]
pub enum ValueType {
    Int8 = 1,
    Int16 = 2,
    Int32 = 3,
    Uint8 = 4,
    Uint16 = 5,
    Uint32 = 6,
    Float32 = 7,
    Float64 = 8,
    Bool = 21,
    Colour = 22,
    // the ID of any block
    Address = 23,
    Text = 31,
    Raw = 32,
}

impl ValueType {
    // The number that stands for the type; no other type has it. (`as` takes no type parameter, so each enum has this line of its own.)
    pub fn number(self) -> u8
        ensures value { result ≡ type_number self }
        ensures only { (other : ValueType) → type_number other ≡ result → other ≡ self }
    {
        self as u8
    }

    // The size of a value, where the type fixes one.
    pub fn size(self) -> Option<NumberSize>
        ensures { MatchOption result (fixed_size (type_number self) ≡ None) (λ n. fixed_size (type_number self) ≡ Some n.bytes) }
    {
        match self {
            ValueType::Int8 | ValueType::Uint8 | ValueType::Bool => Some(ONE),
            ValueType::Int16 | ValueType::Uint16 => Some(TWO),
            ValueType::Int32 | ValueType::Uint32 => Some(FOUR),
            ValueType::Float32 | ValueType::Colour | ValueType::Address => Some(FOUR),
            ValueType::Float64 => Some(EIGHT),
            ValueType::Text | ValueType::Raw => None,
        }
    }

    // Whether a value may have a size.
    pub fn suits(self, size: u64) -> bool
        ensures { result ≡ suits (type_number self) size }
    {
        self.size().is_none_or(|fixed| size == fixed.bytes)
    }
}

// A number that stands for no type. (An error for each enum: it is its type that says of what the number is none.)
#[derive(Clone, Copy, PartialEq, Eq, Debug)]
pub struct UnknownType(pub u8);

impl TryFrom<u8> for ValueType {
    type Error = UnknownType;

    ghost try_from_gives = { StandsFor };

    fn try_from(number: u8) -> Result<Self, UnknownType> {
        match number {
            1 => Ok(ValueType::Int8),
            2 => Ok(ValueType::Int16),
            3 => Ok(ValueType::Int32),
            4 => Ok(ValueType::Uint8),
            5 => Ok(ValueType::Uint16),
            6 => Ok(ValueType::Uint32),
            7 => Ok(ValueType::Float32),
            8 => Ok(ValueType::Float64),
            21 => Ok(ValueType::Bool),
            22 => Ok(ValueType::Colour),
            23 => Ok(ValueType::Address),
            31 => Ok(ValueType::Text),
            32 => Ok(ValueType::Raw),
            _ => Err(UnknownType(number)),
        }
    }
}

impl fmt::Display for UnknownType {
    ghost output = { λ unknown. Some (unknown_text unknown.0) };

    fn fmt<W: fmt::Write>(&self, f: &mut fmt::Formatter<W>) -> fmt::Result {
        write!(f, "no type of value has number {}", self.0)
    }
}

impl Error for UnknownType {}
