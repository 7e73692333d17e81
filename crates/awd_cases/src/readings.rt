//! Fields, lists and runs that are read in a holder.

use anyhow::{Result, bail};
use awd_attributes::{NumericAttribute, properties_at, user_list_at};
use awd_block_fault::BlockFault;
use awd_callers::sheets_at;
use awd_calls::Answer;
use awd_format::{counted, measured, text_at};
use awd_source::{Holder, NumberSize, Source};

/// What a reading answers, by the name of its function and what that is given, a place first.
pub fn read<S: Source>(holder: &Holder<S>, words: &[&str]) -> Result<Answer> {
    Ok(match *words {
        ["number_at", at, size] => told(holder.number_at(at.parse()?, number_size(size.parse()?)?)),
        ["bytes_at", at, size] => told(holder.bytes_at(at.parse()?, size.parse()?)),
        ["text_at", at] => told(text_at(holder, at.parse()?)),
        ["properties_at", at] => told(properties_at(holder, at.parse()?)),
        ["user_list_at", at] => told(user_list_at(holder, at.parse()?)),
        ["counted", at, count] => {
            told(counted(holder, &NumericAttribute, at.parse()?, count.parse()?))
        }
        ["measured", at, size] => {
            told(measured(holder, &NumericAttribute, at.parse()?, size.parse()?))
        }
        ["sheets_at", at, count] => told(sheets_at(holder, at.parse()?, count.parse()?)),
        _ => bail!("no reading"),
    })
}

fn number_size(bytes: u64) -> Result<NumberSize> {
    match bytes {
        1..=8 => Ok(NumberSize { bytes }),
        _ => bail!("no size of a number: {bytes}"),
    }
}

/// A number or the place behind what was read, or the fault in a body of block 0.
fn told<F>(read: Result<u64, F>) -> Answer
where
    BlockFault: From<F>,
{
    match read {
        Ok(number) => Answer::Count(number),
        Err(fault) => Answer::Refused(BlockFault::from(fault).in_block(0)),
    }
}
