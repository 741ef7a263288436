//! One line of a script.
ghost use Rattle.std.specs.Prelude.{◌≡◌, ◌≢◌, ◌^◌, ◌<◌, ◌≤◌, ◌++◌, ℕ, length, OnOk, IfOk, IfErr, IsOk, IsErrOf};
ghost use Rattle.hse_io.specs.Faults.{Rose};
ghost use Rattle.hse_shell.specs.Grammar.{Means, puts, dels, gets, syncs};
ghost use Rattle.hse_shell.specs.Replies.{answer_line, bad_line};
ghost use Rattle.hse_shell.specs.Machine.{Machine};
ghost use Rattle.hse_shell.specs.Marks.{Marked};
ghost use Rattle.hse_shell.specs.Stands.{Stands};
ghost use Rattle.hse_shell.specs.Logged.{Serves};
ghost use Rattle.hse_shell.specs.Stored.{device_size};
ghost use Rattle.hse_shell.specs.Turns.{Said, SyncTurns, Turns};

use crate::command::{Command, parse};
use crate::engine::Engine;
use crate::reply::{Reply, print};
use hse_io::NoMemory;
use media_disk::Disk;
use std::alloc::Global;

/// Why a line ended the run.
#[derive(Clone, Copy, Debug, PartialEq, Eq)]
pub(crate) enum Stop {
    Device,
    NoMemory,
}

// Want of memory for a reply ends the run.
fn stop_of(printed: Result<(), NoMemory>) -> Result<(), Stop>
    ensures ok { OnOk result (IsOk printed) }
    ensures no_device { IsErrOf result Stop.Device → ⊥ }
{
    match printed {
        Ok(()) => Ok(()),
        Err(NoMemory) => Err(Stop::NoMemory),
    }
}

fn put_line(engine: &mut Engine, key: &[u8], value: &[u8], text: &mut Vec<u8>) -> Result<(), Stop>
    requires some { 1 ≤ length key.now }
    requires short { length value.now < 2 ^ 32 }
    ensures said { (m : Machine) → Stands engine.old m
        → Said m (puts key.now value.now) engine.old engine.new text.old.items text.new.items result }
    ensures no_device { IsErrOf result Stop.Device → ⊥ }
{
    let reply = engine.put(key, value);
    stop_of(print(&reply, text))
}

fn del_line(engine: &mut Engine, key: &[u8], text: &mut Vec<u8>) -> Result<(), Stop>
    requires { 1 ≤ length key.now }
    ensures said { (m : Machine) → Stands engine.old m
        → Said m (dels key.now) engine.old engine.new text.old.items text.new.items result }
    ensures no_device { IsErrOf result Stop.Device → ⊥ }
{
    let reply = engine.del(key);
    stop_of(print(&reply, text))
}

fn get_line(engine: &Engine, key: &[u8], text: &mut Vec<u8>) -> Result<(), Stop>
    ensures said { (m : Machine) → Stands engine.now m
        → Said m (gets key.now) engine.now engine.now text.old.items text.new.items result }
    ensures no_device { IsErrOf result Stop.Device → ⊥ }
{
    let reply = engine.get(key);
    stop_of(print(&reply, text))
}

fn unknown_line(text: &mut Vec<u8>) -> Result<(), Stop>
    ensures said { OnOk result (text.new.items ≡ text.old.items ++ answer_line bad_line) }
    ensures no_device { IsErrOf result Stop.Device → ⊥ }
{
    stop_of(print(&Reply::BadLine, text))
}

fn sync_line<D: Disk>(
    alloc: Global,
    engine: &mut Engine,
    disk: &mut D,
    text: &mut Vec<u8>,
) -> Result<(), Stop>
    requires { D.extent disk.old ≡ device_size }
    ensures turns { (m : Machine) → Serves D.Device disk.old engine.old m
        → SyncTurns D.Device m text.old.items text.new.items disk.new engine.new result }
    ensures device { IsErrOf result Stop.Device → Rose (D.faults disk.old) (D.faults disk.new) }
    ensures later { D.faults disk.old ≤ D.faults disk.new }
    ensures extent { D.extent disk.new ≡ D.extent disk.old }
{
    let Ok(reply) = engine.sync(alloc, disk) else {
        return Err(Stop::Device);
    };
    stop_of(print(&reply, text))
}

/// Answers one line: adds its reply to the text, a silent line nothing. An `Err` ends the run.
pub(crate) fn turn<D: Disk>(
    alloc: Global,
    engine: &mut Engine,
    disk: &mut D,
    line: &[u8],
    text: &mut Vec<u8>,
) -> Result<(), Stop>
    requires extent { D.extent disk.old ≡ device_size }
    requires short { length line.now < 2 ^ 32 }
    // The device is asked in a sync alone, and only where commits wait.
    ensures turns { (m : Machine) → Serves D.Device disk.old engine.old m
        → Turns D.Device m line.now text.old.items text.new.items disk.new engine.new result }
    ensures device { IsErrOf result Stop.Device → Rose (D.faults disk.old) (D.faults disk.new) }
    ensures later { D.faults disk.old ≤ D.faults disk.new }
    ensures extent { D.extent disk.new ≡ D.extent disk.old }
{
    match parse(line) {
        Command::Put(key, value) => put_line(engine, key, value, text),
        Command::Del(key) => del_line(engine, key, text),
        Command::Get(key) => get_line(engine, key, text),
        Command::Sync => sync_line(alloc, engine, disk, text),
        Command::Silent => Ok(()),
        Command::Unknown => unknown_line(text),
    }
}
