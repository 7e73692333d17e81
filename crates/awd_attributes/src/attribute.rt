// A user attribute as it is handed out: its key and its value are the very parts of the caller's memory.
ghost use Rattle.std.specs.Prelude.{◌≡◌};
ghost use Rattle.awd_attributes.specs.Attribute.{case_number, case_of, value_part};
ghost use Rattle.awd_value.specs.Types.{type_number};

use awd_value::ValueType;

// A value: the bytes of a text, raw bytes, or those of a number. (The type tells which as well; the case saves a caller a match on thirteen.)
#[derive(Clone, Copy)]
pub enum Value<'a> {
    Text(&'a [u8]),
    Raw(&'a [u8]),
    Number(&'a [u8]),
}

#[derive(Clone, Copy)]
pub struct Attribute<'a> {
    pub namespace: u8,
    pub key: &'a [u8],
    pub value_type: ValueType,
    pub value: Value<'a>,
}

// Bytes as the value of a type.
pub(crate) fn value_of<'a>(value_type: ValueType, bytes: &'a [u8]) -> Value<'a>
    ensures { (case_number result ≡ case_of (type_number value_type)) × (value_part result ≡ bytes.entry) }
{
    match value_type {
        ValueType::Text => Value::Text(bytes),
        ValueType::Raw => Value::Raw(bytes),
        _ => Value::Number(bytes),
    }
}
