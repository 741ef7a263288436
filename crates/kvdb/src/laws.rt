//! Laws of engines. The contract of each function is the law.
ghost use Rattle.kvdb.specs.Lives.{LivesAreSound, OpeningsBeginSound};

use back::loaded_lives_keep_limits;
use engine_state::steps_keep_states_sound;
use media_disk::Disk;

/// An engine that is opened begins a sound life, and so does one that is opened again in place.
pub fn engines_begin_sound_lives<D: Disk>()
    ensures openings { OpeningsBeginSound D.Device }
    ensures lives { LivesAreSound D.Device }
{
    loaded_lives_keep_limits();
    steps_keep_states_sound();
}
