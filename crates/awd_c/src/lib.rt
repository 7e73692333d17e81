// The library for programs in C: what `awd_codes` does, under names that a linker finds. `include/awd.h` declares these functions, and says what
// a caller owes.
#![tactic(auto)]

ghost use Rattle.std.specs.Prelude.{◌≡◌, length, min};
ghost use Rattle.std.specs.Result.{result_and};
ghost use Rattle.awd_source.specs.Copies.{copying, copied};
ghost use Rattle.awd_source.specs.Pages.{filling};
ghost use Rattle.awd_session.specs.State.{fresh, bytes_of};
ghost use Rattle.awd_codes.specs.Attributes.{attributes_of, reading_of};
ghost use Rattle.awd_codes.specs.Causes.{words_for};
ghost use Rattle.awd_codes.specs.Layers.{on_top, if_filled};
ghost use Rattle.awd_codes.specs.Listings.{listing_of, blocks_of};
ghost use Rattle.awd_codes.specs.Records.{outcome_code};
ghost use Rattle.awd_codes.specs.Runs.{led, answered};
ghost use Rattle.awd_codes.specs.Writing.{over};

use awd_codes::{
    AwdAnswer, AwdAttribute, AwdAttributes, AwdBlock, AwdCall, AwdFault, AwdListing, Shown,
};

// Opens a document, takes all its blocks, and writes what they tell.
#[unsafe(no_mangle)]
pub extern "C" fn awd_list(document: &[u8], blocks: &mut [AwdBlock]) -> AwdListing
    ensures listing { result ≡ listing_of document.now }
    ensures blocks { blocks.new ≡ over (blocks_of document.now) blocks.old }
{
    awd_codes::list(document, blocks)
}

// Makes calls on a session over a document, from its making on, and writes their answers.
#[unsafe(no_mangle)]
pub extern "C" fn awd_replay(document: &[u8], calls: &[AwdCall], answers: &mut [AwdAnswer]) -> usize
    ensures count { result ≡ min (length calls.now) (length answers.old) }
    ensures answers { answers.new ≡ over (answered (fresh document.now) calls.now) answers.old }
{
    awd_codes::replay(document, calls, answers)
}

// Makes calls on a session over a document, and copies the session's bytes.
#[unsafe(no_mangle)]
pub extern "C" fn awd_save(document: &[u8], calls: &[AwdCall], buffer: &mut [u8]) -> AwdFault
    ensures answer { let B = bytes_of (led (fresh document.now) calls.now) in result ≡ outcome_code (copying B buffer.old) }
    ensures after { let B = bytes_of (led (fresh document.now) calls.now) in buffer.new ≡ copied B buffer.old }
{
    awd_codes::save(document, calls, buffer)
}

// Makes calls on a session over a session over a window over pages, and writes their answers.
#[unsafe(no_mangle)]
pub extern "C" fn awd_replay_layers(
    run: &[u8],
    pages: &[u16],
    size: u64,
    start: u64,
    shown: u64,
    lower: &[AwdCall],
    calls: &[AwdCall],
    answers: &mut [AwdAnswer],
) -> AwdFault
    ensures answer { result ≡ outcome_code (filling run.now pages.now size) }
    ensures answers { let top = on_top run.now pages.now size start shown lower.now in
        answers.new ≡ if_filled (filling run.now pages.now size) (over (answered top calls.now) answers.old) answers.old }
{
    let below = Shown {
        run,
        pages,
        size,
        start,
        shown,
    };
    awd_codes::replay_layers(below, lower, calls, answers)
}

// Makes calls on a session over a session over a window over pages, and copies its bytes.
#[unsafe(no_mangle)]
pub extern "C" fn awd_save_layers(
    run: &[u8],
    pages: &[u16],
    size: u64,
    start: u64,
    shown: u64,
    lower: &[AwdCall],
    calls: &[AwdCall],
    buffer: &mut [u8],
) -> AwdFault
    ensures answer { let B = bytes_of (led (on_top run.now pages.now size start shown lower.now) calls.now) in
        result ≡ outcome_code (result_and (filling run.now pages.now size) (copying B buffer.old)) }
    ensures after { let B = bytes_of (led (on_top run.now pages.now size start shown lower.now) calls.now) in
        buffer.new ≡ if_filled (filling run.now pages.now size) (copied B buffer.old) buffer.old }
{
    let below = Shown {
        run,
        pages,
        size,
        start,
        shown,
    };
    awd_codes::save_layers(below, lower, calls, buffer)
}

// Reads the user attributes of a part, and writes them.
#[unsafe(no_mangle)]
pub extern "C" fn awd_read_attributes(part: &[u8], attributes: &mut [AwdAttribute]) -> AwdAttributes
    ensures reading { result ≡ reading_of part.now }
    ensures attributes { attributes.new ≡ over (attributes_of part.now) attributes.old }
{
    awd_codes::read_attributes(part, attributes)
}

// Writes a cause in words.
#[unsafe(no_mangle)]
pub extern "C" fn awd_cause_text(cause: u8, buffer: &mut [u8]) -> usize
    ensures length { result ≡ length (words_for cause) }
    ensures text { buffer.new ≡ over (words_for cause) buffer.old }
{
    awd_codes::cause_text(cause, buffer)
}
