// User attributes as plain numbers.
ghost use Rattle.std.specs.Prelude.{◌≡◌, ℕ, ◌+◌, ◌^◌, ◌<◌, true, List, length};
ghost use Rattle.std.specs.Borrow.{Bor};
ghost use Rattle.awd_value.specs.Types.{type_number, suits};
ghost use Rattle.awd_value.specs.Values.{told};
ghost use Rattle.awd_attributes.specs.Attribute.{Is, value_part};
ghost use Rattle.awd_codes.specs.Attributes.{number_code, meaning_of, attribute_code, attributes_of, reading_of};
ghost use Rattle.awd_codes.specs.Writing.{over};

use crate::records::AwdFault;
use awd_attributes::{Attribute, AttributeReader, Value};
use awd_value::{Number, ValueType};
use std::num::{f32_to_bits_with_nan, f64_to_bits_with_nan};

// An attribute: where its key and its value are in the part that is read, and what its value says.
#[repr(C)]
#[derive(Clone, Copy, Default)]
pub struct AwdAttribute {
    pub key_place: u64,
    pub key_length: u64,
    pub value_place: u64,
    pub value_length: u64,
    pub number: u64,
    pub name_space: u8,
    pub value_type: u8,
    pub meaning: u8,
}

// What comes of reading attributes.
#[repr(C)]
#[derive(Clone, Copy, Default)]
pub struct AwdAttributes {
    pub count: u64,
    pub fault: AwdFault,
}

const TEXT: u8 = 0;

const RAW: u8 = 1;

const SIGNED: u8 = 2;

const UNSIGNED: u8 = 3;

const SINGLE: u8 = 4;

const DOUBLE: u8 = 5;

const YES_NO: u8 = 6;

// What a number says: its meaning, and the number itself.
fn number_code(number: Number) -> (u8, u64)
    ensures { result ≡ number_code (told number) }
{
    match number {
        Number::Signed(n) => (SIGNED, i64::from(n).cast_unsigned()),
        Number::Unsigned(n) => (UNSIGNED, u64::from(n)),
        Number::Single(x) => (SINGLE, u64::from(f32_to_bits_with_nan(x))),
        Number::Double(x) => (DOUBLE, f64_to_bits_with_nan(x)),
        Number::YesNo(yes) => (YES_NO, u64::from(yes)),
    }
}

// What the bytes of a value say, whose size suits its type.
fn meaning_of(value_type: ValueType, bytes: &[u8]) -> (u8, u64)
    requires { suits (type_number value_type) (length bytes.now) ≡ true }
    ensures { result ≡ meaning_of (type_number value_type) bytes.now }
{
    match value_type.value(bytes) {
        Some(number) => number_code(number),
        None if value_type == ValueType::Text => (TEXT, 0),
        None => (RAW, 0),
    }
}

// The bytes of a value.
fn bytes_of<'a>(value: Value<'a>) -> &'a [u8]
    ensures { result ≡ value_part value.entry }
{
    match value {
        Value::Text(bytes) | Value::Raw(bytes) | Value::Number(bytes) => bytes,
    }
}

impl AwdAttribute {
    // The attribute that begins at a place of a part.
    fn of(at: u64, attribute: Attribute<'_>) -> AwdAttribute
        requires fits { at + 8 + length attribute.key.now < 2 ^ 64 }
        requires suits { suits (type_number attribute.value_type) (length (value_part attribute.value).now) ≡ true }
        ensures { (s : Bor (List ℕ)) (e : ℕ) → Is s at e attribute.entry → result ≡ attribute_code s.now at }
    {
        let bytes = bytes_of(attribute.value);
        let (meaning, number) = meaning_of(attribute.value_type, bytes);
        // behind the namespace and the key's length
        let key_place = at + 1 + 2;
        let key_length = attribute.key.len() as u64;
        AwdAttribute {
            key_place,
            key_length,
            // behind the key, the type and the value's size
            value_place: key_place + key_length + 1 + 4,
            value_length: bytes.len() as u64,
            number,
            name_space: attribute.namespace,
            value_type: attribute.value_type.number(),
            meaning,
        }
    }
}

// Reads the attributes of a part one after another, and writes as many of them as there is room for.
pub fn read_attributes(part: &[u8], attributes: &mut [AwdAttribute]) -> AwdAttributes
    ensures reading { result ≡ reading_of part.now }
    ensures attributes { attributes.new ≡ over (attributes_of part.now) attributes.old }
{
    let mut reader = AttributeReader::new(part);
    let mut at = 0;
    let mut count = 0;
    loop {
        match reader.next() {
            Ok(Some(attribute)) => {
                let read = AwdAttribute::of(at, attribute);
                if count < attributes.len() {
                    attributes[count] = read;
                }
                at = read.value_place + read.value_length;
                count += 1;
            }
            Ok(None) => {
                return AwdAttributes {
                    count: count as u64,
                    fault: AwdFault::default(),
                };
            }
            Err(fault) => {
                return AwdAttributes {
                    count: count as u64,
                    fault: AwdFault::of(fault),
                };
            }
        }
    }
}
