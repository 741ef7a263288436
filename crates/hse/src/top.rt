//! The program's words, and what they ask for.
ghost use Rattle.std.specs.Prelude.{◌≡◌, ◌↔◌, ◌⊎◌, ◌<◌, [], map, codes, IsTrue};
ghost use Rattle.std.specs.String.{string_bytes};
ghost use Rattle.hse_io.specs.Faults.{Rose};
ghost use Rattle.hse_shell.specs.Ending.{status_text, AppendsOrFails};
ghost use Rattle.hse_shell.specs.Ends.{Ends, IsGoodImage, IsGoodInput};
ghost use Rattle.hse_shell.specs.Logged.{WasEmptyOrStays};
ghost use Rattle.hse.specs.Words.{AsksRun, IsPath, third_of};

use hse_io::{Outcome, Sink, Source, Status};
use hse_shell::{run_script, tell};
use media_disk::Disk;
use std::alloc::Global;

fn is_run(action: &[u8]) -> bool
    ensures { IsTrue result ↔ (action.now ≡ codes "run") }
{
    action == b"run".as_slice()
}

// Whether the path is not empty and does not begin with a dash.
fn is_path(path: &[u8]) -> bool
    ensures { IsTrue result ↔ IsPath path.now }
{
    match path {
        [first, ..] => *first != b'-',
        [] => false,
    }
}

/// Whether the words are a program's name, `run` and a path that is not empty and does not begin with a dash.
fn asks_run(words: &[String]) -> bool
    ensures { IsTrue result ↔ AsksRun (map string_bytes words.now) }
{
    match words {
        [_, action, path] => is_run(action.as_bytes()) && is_path(path.as_bytes()),
        _ => false,
    }
}

/// The path among the words: the third one, or the empty text.
pub fn device_path(words: &[String]) -> &str
    ensures { result.now ≡ third_of (map string_bytes words.now) }
{
    match words {
        [_, _, path, ..] => path.as_str(),
        _ => "",
    }
}

/// Does what the words ask for, over this source, this sink and this device. Words that are not the program's are
/// `Usage`, and touch no device.
pub fn top<S: Source, K: Sink, D: Disk>(
    alloc: Global,
    words: &[String],
    source: &mut S,
    sink: &mut K,
    disk: &mut D,
) -> Outcome
    // Exactly other words than the program's are a faulty command line, and then only its line was written.
    ensures usage { (AsksRun (map string_bytes words.now) → ⊥) → result.status ≡ Status.Usage }
    ensures usage_only { result.status ≡ Status.Usage → AsksRun (map string_bytes words.now) → ⊥ }
    ensures usage_disk { result.status ≡ Status.Usage → disk.new ≡ disk.old }
    ensures usage_source { result.status ≡ Status.Usage → source.new ≡ source.old }
    ensures usage_told { result.status ≡ Status.Usage
        → AppendsOrFails (K.faults sink.old) (K.faults sink.new)
        (K.contents sink.old) (K.contents sink.new) (status_text Status.Usage) }

    // For `run` the outcome, what is written and the device are those of the script's run, by its status.
    ensures run { AsksRun (map string_bytes words.now) → Ends D.Device result.status
        (record { device = disk.old; input = S.remaining source.old; held = K.contents sink.old })
        (S.remaining source.new) (K.contents sink.new) (K.faults sink.old) (K.faults sink.new) disk.new result.marks.items }
    ensures read { result.status ≡ Status.ReadFault → Rose (S.faults source.old) (S.faults source.new) }
    ensures write { result.status ≡ Status.WriteFault → Rose (K.faults sink.old) (K.faults sink.new) }
    ensures device { result.status ≡ Status.DeviceFault → Rose (D.faults disk.old) (D.faults disk.new) }
    ensures complete { AsksRun (map string_bytes words.now)
        → D.tells → IsGoodImage (D.seen disk.old) → IsGoodInput (S.remaining source.old)
        → ¬ Rose (S.faults source.old) (S.faults source.new) → ¬ Rose (K.faults sink.old) (K.faults sink.new)
        → ¬ Rose (D.faults disk.old) (D.faults disk.new)
        → (result.status ≡ Status.Done) ⊎ (result.status ≡ Status.NoMemory) }
    // Without a mark a device that held something stays as it was; for other words there is none.
    ensures kept { result.marks.items ≡ [] → WasEmptyOrStays D.Device disk.old disk.new }
    ensures usage_marks { result.status ≡ Status.Usage → result.marks.items ≡ [] }
{
    if !asks_run(words) {
        tell(sink, Status::Usage);
        return Outcome {
            status: Status::Usage,
            marks: Vec::new(alloc),
        };
    }
    run_script(alloc, source, sink, disk)
}
