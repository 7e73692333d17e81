// A whole document: what its header says, its blocks, and the first fault.
ghost use Rattle.std.specs.Prelude.{◌≡◌, map, Ok};
ghost use Rattle.awd_session.specs.Asked.{asked};
ghost use Rattle.awd_session.specs.State.{records_of, next_answer};
ghost use Rattle.awd_session.specs.View.{view};
ghost use Rattle.awd_codes.specs.Listings.{listing_of, blocks_of};
ghost use Rattle.awd_codes.specs.Records.{outcome_code, block_code};
ghost use Rattle.awd_codes.specs.Writing.{over};

use crate::records::{AwdBlock, AwdFault, AwdHeader};
use awd_roster::MAX_BLOCKS;
use awd_session::Session;
use awd_source::{Run, Source};

// What comes of listing a document.
#[repr(C)]
#[derive(Clone, Copy, Default)]
pub struct AwdListing {
    pub length: u64,
    pub count: u64,
    pub fault: AwdFault,
    pub header: AwdHeader,
    pub opened: bool,
}

// Takes all blocks of a session that has taken none yet, and tells why there is no more.
fn take_all<S: Source>(session: &mut Session<S>) -> AwdFault
    requires { (view session.old).taken ≡ 0 }
    ensures state { view session.new ≡ asked 512 (view session.old) }
    ensures fault { result ≡ outcome_code (next_answer (view session.new)) }
{
    // each answer but the last is a block, and 512 blocks are taken at most
    for _ in 0..=MAX_BLOCKS {
        match session.next() {
            Ok(Some(_)) => {}
            Ok(None) => return AwdFault::default(),
            Err(fault) => return AwdFault::of(fault),
        }
    }
    AwdFault::default()
}

// Writes what the taken blocks tell, as many of them as there is room for.
fn write_blocks<S: Source>(session: &Session<S>, blocks: &mut [AwdBlock])
    ensures { blocks.new ≡ over (map block_code (records_of (view session.now))) blocks.old }
{
    for (number, block) in blocks.iter_mut().enumerate() {
        let Some(record) = session.record(number as u64) else {
            break;
        };
        *block = AwdBlock::of(record);
    }
}

// Opens a document and takes all its blocks.
pub fn list(document: &[u8], blocks: &mut [AwdBlock]) -> AwdListing
    ensures listing { result ≡ listing_of document.now }
    ensures blocks { blocks.new ≡ over (blocks_of document.now) blocks.old }
{
    let mut session = Session::new(Run::new(document));
    let length = document.len() as u64;
    match session.open() {
        Ok(header) => {
            let fault = take_all(&mut session);
            write_blocks(&session, blocks);
            AwdListing {
                length,
                count: session.count(),
                fault,
                header: AwdHeader::of(header),
                opened: true,
            }
        }
        Err(fault) => AwdListing {
            length,
            fault: AwdFault::of(fault),
            ..AwdListing::default()
        },
    }
}
