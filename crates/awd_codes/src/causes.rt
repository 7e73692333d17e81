// Causes in words.
ghost use Rattle.std.specs.Prelude.{◌≡◌, [], length, MatchOption};
ghost use Rattle.awd_fault.specs.Texts.{cause_text};
ghost use Rattle.awd_codes.specs.Causes.{words_for};
ghost use Rattle.awd_codes.specs.Writing.{over};

use awd_fault::Cause;

// The cause of a number.
fn cause_of(number: u8) -> Option<Cause>
    ensures { MatchOption result (words_for number ≡ []) (λ cause. words_for number ≡ cause_text cause) }
{
    match number {
        1 => Some(Cause::AlreadyOpen),
        2 => Some(Cause::HeaderTooShort),
        3 => Some(Cause::DocumentTooLong),
        4 => Some(Cause::WrongMagic),
        5 => Some(Cause::WrongVersion),
        6 => Some(Cause::CompressedDocument),
        7 => Some(Cause::WrongBodyLength),
        8 => Some(Cause::NotOpen),
        9 => Some(Cause::TooManyBlocks),
        10 => Some(Cause::DoesNotFit),
        11 => Some(Cause::IdOutOfSequence),
        12 => Some(Cause::CompressedBlock),
        13 => Some(Cause::ValueNotAllowed),
        14 => Some(Cause::AddressNotLawful),
        15 => Some(Cause::BytesLeftOver),
        16 => Some(Cause::IndexTooLarge),
        17 => Some(Cause::StreamOutOfPlace),
        18 => Some(Cause::NoSuchBlock),
        19 => Some(Cause::NoSuchField),
        20 => Some(Cause::TooManyEdits),
        21 => Some(Cause::NoSuchMaterial),
        22 => Some(Cause::NoSuchCell),
        23 => Some(Cause::WrongWidth),
        24 => Some(Cause::NotANumber),
        25 => Some(Cause::NothingToUndo),
        26 => Some(Cause::BufferTooShort),
        27 => Some(Cause::LengthOverPages),
        28 => Some(Cause::PageOutsideRun),
        _ => None,
    }
}

// Writes a cause in words to the start of a buffer, as much of it as there is room for, and tells its length; nothing, and 0, for a number that
// is no cause's.
pub fn cause_text(number: u8, buffer: &mut [u8]) -> usize
    ensures length { result ≡ length (words_for number) }
    ensures text { buffer.new ≡ over (words_for number) buffer.old }
{
    let Some(cause) = cause_of(number) else {
        return 0;
    };
    let text = cause.text().as_bytes();
    let shown = text.len().min(buffer.len());
    buffer[..shown].copy_from_slice(&text[..shown]);
    text.len()
}
