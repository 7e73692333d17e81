// A reader over a part of the caller's memory that holds user attributes one after another: what is between a user list's total and its
// end.
ghost use Rattle.std.specs.Prelude.{◌≡◌, ◌≤◌, length, IfOk};
ghost use Rattle.awd_fault.specs.Faults.{report};
ghost use Rattle.awd_block_fault.specs.Faults.{in_entry, in_block};
ghost use Rattle.awd_block_fault.specs.declared.BlockFault.TheVariants.{Entry};
ghost use Rattle.awd_format.specs.Shapes.{entry_of};
ghost use Rattle.awd_attributes.specs.Attributes.{user};
ghost use Rattle.awd_attributes.specs.Parts.{FieldsOf};

use crate::attribute::{Attribute, value_of};
use crate::kinds::{UserFields, user_fields};
use awd_block_fault::{BlockFault, FieldFault};
use awd_fault::Fault;
use awd_source::{Holder, Run, Source};

#[derive(Drop)]
pub struct AttributeReader<'a> {
    part: Run<'a>,
    // where the next attribute begins
    at: u64,
    // how many attributes came before it
    index: u64,
    ghost inside: { at ≤ length part.held.now },
    ghost few: { index ≤ at },
}

impl<'a> AttributeReader<'a> {
    ghost use Rattle.awd_attributes.specs.Reader.{Tells, answer_at, as_answer, judged};

    pub fn new(part: &'a [u8]) -> AttributeReader<'a>
        ensures { (result.part.held ≡ part.entry) × (result.at ≡ 0) × (result.index ≡ 0) }
    {
        AttributeReader {
            part: Run::new(part),
            at: 0,
            index: 0,
        }
    }

    // The fields of the attribute that comes next. A fault has the attribute's index in the part.
    fn fields(&self) -> Result<UserFields, Fault>
        ensures answer { let B = self.now.part.held.now in let i = self.now.index in as_answer result ≡ judged i (entry_of (user i) B self.now.at (length B)) }
        ensures parts { let B = self.now.part.held.now in IfOk result (λ f. FieldsOf B self.now.at f × (f.value.behind ≤ length B)) }
    {
        // tried as `map_err`: what is ensured stayed open
        match user_fields(&Holder::whole(&self.part), self.at) {
            Ok(fields) => Ok(fields),
            Err(field) => Err(in_part(self.index, field)),
        }
    }

    // The next attribute, or none at the end. A fault has the layer of entries, block 0, the attribute's index in the part, and a place
    // counted from the part's start; it does not move the reader.
    pub fn next(&mut self) -> Result<Option<Attribute<'a>>, Fault>
        ensures { let before = self.old in Tells before result self.new (answer_at before.part.held.now before.at before.index) }
    {
        if self.at >= self.part.length() {
            return Ok(None);
        }
        let fields = self.fields()?;
        let key_at = self.at + 1 + 2;
        let value_at = fields.type_at + 1 + 4;
        // the whole attribute lies inside the part, and so do these
        let Some(key) = self.part.part(key_at, fields.type_at - key_at) else {
            unreachable()
        };
        let Some(value) = self.part.part(value_at, fields.value.behind - value_at) else {
            unreachable()
        };
        // the reader's state, which a fault must leave as it is, moves only now
        self.at = fields.value.behind;
        self.index += 1;
        Ok(Some(Attribute {
            namespace: fields.namespace,
            key,
            value_type: fields.value.value_type,
            value: value_of(fields.value.value_type, value),
        }))
    }
}

// A field's fault in the entry of an index of a part.
fn in_part(index: u64, field: FieldFault) -> Fault
    ensures { report result ≡ in_block 0 (Entry (in_entry index field)) }
{
    BlockFault::from(field.in_entry(index)).in_block(0)
}
