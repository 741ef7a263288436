//! The texts of refusals.
ghost use Rattle.std.specs.Prelude.{◌≡◌, ◌++◌, OnOk, OnErr};
ghost use Rattle.shell_text.specs.Replies.{ended, not_formed_text, refusal_text};
ghost use Rattle.shell_text.specs.Replies.{done_word, phase_word, turn_word};

use crate::line_text::{append_counted, append_line, append_paired, append_words};
use crate::reply::{DoneText, PhaseText, Refused, RegionText, TurnText};
use hse_io::NoMemory;

/// Appends the line of why a line was refused.
pub(crate) fn append_refusal(refused: &Refused, into: &mut Vec<u8>) -> Result<(), NoMemory>
    ensures written { OnOk result
        (into.new.items ≡ into.old.items ++ ended (refusal_text refused.now)) }
    ensures unchanged { OnErr result (into.new.items ≡ into.old.items) }
{
    match refused {
        Refused::Line => append_line(b"err line", into),
        Refused::Memory => append_line(b"err memory", into),
        Refused::StoreExists => append_line(b"err store-exists", into),
        Refused::NoStore => append_line(b"err no-store", into),
        Refused::StoreMode => append_line(b"err store-mode", into),
        Refused::KeyLength(bytes) => append_counted(b"err key-length ", *bytes, into),
        Refused::ValueLength(bytes) => append_counted(b"err value-length ", *bytes, into),
        Refused::PrefixLength(bytes) => append_counted(b"err prefix-length ", *bytes, into),
        Refused::Broken => append_line(b"err broken", into),
        Refused::TooMany(limit) => append_counted(b"err too-many ", *limit, into),
        Refused::Spent => append_line(b"err spent", into),
        Refused::Busy(kind) => append_words(b"err busy ", turn_word(*kind), into),
        Refused::Turn(phase) => append_words(b"err turn ", phase_word(*phase), into),
        Refused::ManifestFull(need, room) => {
            append_paired(b"err manifest-full ", *need, *room, into)
        }
        Refused::StoreHeld(name) => append_words(b"err store-held ", name.bytes(), into),
        Refused::NameUsed => append_line(b"err name-used", into),
        Refused::NoName => append_line(b"err no-name", into),
        Refused::Done(done) => append_words(b"err done ", done_word(*done), into),
        Refused::TxnSize(need, room) => append_paired(b"err txn-size ", *need, *room, into),
        Refused::LogFull(need, room) => append_paired(b"err log-full ", *need, *room, into),
        Refused::Held(name) => append_words(b"canceled held ", name.bytes(), into),
        Refused::Since(number) => append_counted(b"canceled since ", *number, into),
        Refused::ForwardOnly => append_line(b"err forward-only", into),
        Refused::NotFormed(region, place) => append_not_formed(region, *place, into),
        Refused::Version(version) => append_counted(b"err version ", u64::from(*version), into),
        Refused::Device => append_line(b"err device", into),
    }
}

/// Appends the line of a region that is out of form.
fn append_not_formed(region: &RegionText, place: u64, into: &mut Vec<u8>) -> Result<(), NoMemory>
    ensures written { OnOk result
        (into.new.items ≡ into.old.items ++ ended (not_formed_text region.now place)) }
    ensures unchanged { OnErr result (into.new.items ≡ into.old.items) }
{
    match region {
        RegionText::Super => append_counted(b"err not-formed super ", place, into),
        RegionText::Manifest(half) => {
            append_paired(b"err not-formed manifest-", u64::from(*half), place, into)
        }
        RegionText::Log(segment) => {
            append_paired(b"err not-formed log-", u64::from(*segment), place, into)
        }
        RegionText::Slot(slot) => {
            append_paired(b"err not-formed slot-", u64::from(*slot), place, into)
        }
    }
}

/// The word for what a turn is for.
fn turn_word(kind: TurnText) -> &'static [u8]
    ensures { result.now ≡ turn_word kind }
{
    match kind {
        TurnText::Sync => b"sync",
        TurnText::Freeze => b"freeze",
        TurnText::Install => b"install",
        TurnText::Create => b"create",
        TurnText::Drop => b"drop",
    }
}

/// The word for how far a turn is.
fn phase_word(phase: PhaseText) -> &'static [u8]
    ensures { result.now ≡ phase_word phase }
{
    match phase {
        PhaseText::In => b"in",
        PhaseText::Taken => b"taken",
        PhaseText::Run => b"run",
    }
}

/// The word for how a transaction ended.
fn done_word(done: DoneText) -> &'static [u8]
    ensures { result.now ≡ done_word done }
{
    match done {
        DoneText::Committed => b"committed",
        DoneText::Aborted => b"aborted",
    }
}
