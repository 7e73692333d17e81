//! Texts: of faults as a person reads them in a log, and of answers that hold the largest numbers.

use awd_calls::{Answer, NoCall};
use awd_contents::Cell;
use awd_fault::{Cause, Fault, Layer};
use awd_roster::{Record, Span, UnknownKind};
use awd_value::UnknownType;
use std::test::Fail;

const IN_ENTRY: Fault = Fault {
    cause: Cause::IndexTooLarge,
    place: 97,
    block: 11,
    layer: Layer::Entry,
    index: Some(0),
};

#[test]
fn faults(rt: HostRuntime) -> Result<(), Fail> {
    let magic = Fault::in_header(Cause::WrongMagic, 2).to_string(rt.alloc())?;
    assert_eq!(rt;
        magic.as_str(),
        "the document does not begin with AWD (cause 4, place 2, block 0, layer 0)"
    );
    let entry = Fault {
        cause: Cause::DoesNotFit,
        place: 93,
        block: 1,
        layer: Layer::Entry,
        index: Some(7),
    };
    assert_eq!(rt;
        entry.to_string(rt.alloc())?.as_str(),
        "a field, body or run does not fit what holds it (cause 10, place 93, block 1, layer 3, entry 7)"
    );
    let call = Fault::of_call(Cause::NoSuchBlock, 0, 600).to_string(rt.alloc())?;
    assert_eq!(rt;
        call.as_str(),
        "no block with this number is taken (cause 18, place 0, block 600, layer 4)"
    );
    Ok(())
}

fn refuses() -> anyhow::Result<()> {
    Err(Fault::in_header(Cause::CompressedDocument, 7))?;
    Ok(())
}

/// A program that passes a fault on by `?` prints the same text.
#[test]
fn passed_on(rt: HostRuntime) -> Result<(), Fail> {
    let error = refuses().err().ok_or("not refused")?;
    assert_eq!(rt;
        error.to_string(rt.alloc())?.as_str(),
        "the document is compressed (cause 6, place 7, block 0, layer 0)"
    );
    Ok(())
}

#[test]
fn what_is_none(rt: HostRuntime) -> Result<(), Fail> {
    assert_eq!(rt;
        NoCall.to_string(rt.alloc())?.as_str(),
        "the line is no call"
    );
    assert_eq!(rt;
        UnknownType(9).to_string(rt.alloc())?.as_str(),
        "no type of value has number 9"
    );
    assert_eq!(rt;
        UnknownKind(9).to_string(rt.alloc())?.as_str(),
        "no kind of block has number 9"
    );
    Ok(())
}

const NAMED: Record = Record {
    id: 4_294_967_295,
    namespace: 255,
    kind: 22,
    place: 16_777_205,
    size: 63,
    parent: Some(0),
    name: Some(Span {
        place: 88,
        length: 65_535,
    }),
};

const LINES: [(Answer, &str); 7] = [
    (Answer::Refused(IN_ENTRY), "fault 16 97 11 3 0"),
    (Answer::Taken(Some(511)), "some 511"),
    (
        Answer::Count(18_446_744_073_709_551_615),
        "18446744073709551615",
    ),
    (
        Answer::Record(Some(NAMED)),
        "some 4294967295 255 22 16777205 63 0 88 65535",
    ),
    (Answer::Address(Some(4_294_967_295)), "some 4294967295"),
    (
        Answer::Content(Some(Cell::Double(1.5))),
        "some d 3ff8000000000000",
    ),
    (Answer::Byte(Some(255)), "some 255"),
];

#[test]
fn answers(rt: HostRuntime) -> Result<(), Fail> {
    for (answer, line) in LINES {
        assert_eq!(rt; answer.to_string(rt.alloc())?.as_str(), line);
    }
    Ok(())
}
