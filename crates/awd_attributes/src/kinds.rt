// The two kinds of attribute as entries of runs, and the lists of them.
ghost use Rattle.std.specs.Prelude.{◌≡◌, ◌+◌, ◌≤◌, IfOk};
ghost use Rattle.std.specs.Result.{result_map_both};
ghost use Rattle.awd_source.specs.Holders.{held, Ends};
ghost use Rattle.awd_source.specs.Bytes.{le, part};
ghost use Rattle.awd_format.specs.Shapes.{SetOf, entry_of};
ghost use Rattle.awd_format.specs.Readings.{read_in, entry_in};
ghost use Rattle.awd_attributes.specs.Parts.{FieldsOf};
ghost use Rattle.awd_value.specs.Types.{type_number};
ghost use Rattle.awd_attributes.specs.Attributes.{numeric, typed, user, properties, user_list};
ghost use Rattle.awd_format.proofs.ShapeLaws.{shape-kind};
ghost use Rattle.awd_attributes.specs.Filled.{numeric-filled, user-filled};

use awd_block_fault::{BlockFault, FieldFault};
use awd_fault::Cause;
use awd_format::{EntryKind, list_at, text_at};
use awd_source::{FOUR, Holder, ONE, Source, TWO};
use awd_value::ValueType;

// A number for a key, and a value of which only the size is known here.
#[derive(Clone, Copy)]
pub struct NumericAttribute;

impl EntryKind for NumericAttribute {
    ghost reading = { λ _ i. entry_of (numeric i) };

    ghost members = { λ _ i. SetOf (numeric i) };

    ghost lawful = { λ _. shape-kind numeric numeric-filled };

    fn read<S: Source>(&self, holder: &Holder<S>, at: u64, _index: u64) -> Result<u64, FieldFault> {
        let _key = holder.number_at(at, TWO)?;
        let size = holder.number_at(at + 2, FOUR)?;
        holder.bytes_at(at + 2 + 4, size)
    }
}

// What a typed value says, and where it ends.
#[derive(Clone, Copy)]
pub(crate) struct TypedValue {
    pub value_type: ValueType,
    pub behind: u64,
}

// A typed value: its type, its size and its bytes, each judged before the next.
fn typed_value<S: Source>(holder: &Holder<S>, at: u64) -> Result<TypedValue, FieldFault>
    ensures read { result_map_both (λ v. v.behind) (λ x. x) result ≡ entry_in typed holder.now at }
    ensures parts { let B = held holder.now in IfOk result (λ v. (type_number v.value_type ≡ le (part B at 1)) × (v.behind ≡ at + 1 + 4 + le (part B (at + 1) 4)) × (v.behind ≤ holder.now.end)) }
{
    let number = holder.number_at(at, ONE)?;
    // one byte, so nothing is cut off
    let Ok(value_type) = ValueType::try_from(number as u8) else {
        return Err(FieldFault::new(Cause::ValueNotAllowed, at));
    };
    let size = holder.number_at(at + 1, FOUR)?;
    if !value_type.suits(size) {
        return Err(FieldFault::new(Cause::ValueNotAllowed, at + 1));
    }
    let behind = holder.bytes_at(at + 1 + 4, size)?;
    Ok(TypedValue { value_type, behind })
}

// What a user attribute says, and where its parts lie.
#[derive(Clone, Copy)]
pub(crate) struct UserFields {
    pub namespace: u8,
    pub type_at: u64,
    pub value: TypedValue,
}

// The fields of a user attribute.
pub(crate) fn user_fields<S: Source>(holder: &Holder<S>, at: u64) -> Result<UserFields, FieldFault>
    ensures read { result_map_both (λ f. f.value.behind) (λ x. x) result ≡ entry_in (user 0) holder.now at }
    ensures parts { IfOk result (λ f. FieldsOf (held holder.now) at f × (f.value.behind ≤ holder.now.end)) }
{
    let namespace = holder.number_at(at, ONE)?;
    let type_at = text_at(holder, at + 1)?;
    let value = typed_value(holder, type_at)?;
    Ok(UserFields {
        // one byte, so nothing is cut off
        namespace: namespace as u8,
        type_at,
        value,
    })
}

// A name for a key, and a value with its type.
#[derive(Clone, Copy)]
pub struct UserAttribute;

impl EntryKind for UserAttribute {
    ghost reading = { λ _ i. entry_of (user i) };

    ghost members = { λ _ i. SetOf (user i) };

    ghost lawful = { λ _. shape-kind user user-filled };

    fn read<S: Source>(&self, holder: &Holder<S>, at: u64, _index: u64) -> Result<u64, FieldFault> {
        let fields = user_fields(holder, at)?;
        Ok(fields.value.behind)
    }
}

// The place behind properties, which are a list of numeric attributes. (This and the next are calls of the one text for lists; they carry
// the format's names, and what the names mean.)
pub fn properties_at<S: Source>(holder: &Holder<S>, at: u64) -> Result<u64, BlockFault>
    ensures read { result ≡ read_in properties holder.now at }
    ensures fits { Ends (at + 4 + le (part (held holder.now) at 4)) holder.now.end result }
{
    list_at(holder, &NumericAttribute, at)
}

// The place behind a user list, which is a list of user attributes.
pub fn user_list_at<S: Source>(holder: &Holder<S>, at: u64) -> Result<u64, BlockFault>
    ensures read { result ≡ read_in user_list holder.now at }
    ensures fits { Ends (at + 4 + le (part (held holder.now) at 4)) holder.now.end result }
{
    list_at(holder, &UserAttribute, at)
}
