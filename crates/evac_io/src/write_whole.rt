//! Writing a whole text.

ghost use Rattle.std.specs.Prelude.{◌≡◌, ℕ, ◌<◌, ◌≤◌, length, take, OnOk, OnErr};
ghost use Rattle.evac_model.specs.Counts.{Rose};
ghost use Rattle.evac_io.specs.Told.{Takes};

use crate::{Failed, Sink};

/// Writes all of `text`, in as many writes as it takes, up to the first that fails. It takes no
/// memory.
pub fn write_all<K: Sink>(k: &mut K, text: &[u8]) -> Result<(), Failed>
    ensures ok { OnOk result (Takes (K.taken k.old) (K.taken k.new) text.now) }

    // No write failed.
    ensures sure { OnOk result (K.faults k.new ≡ K.faults k.old) }

    ensures cause { OnErr result (Rose (K.faults k.old) (K.faults k.new)) }

    // Where it fails, some of the text wasn't taken; whatever it answers, a prefix of it was.
    ensures cut { OnErr result ((n : ℕ) × (n < length text.now) × Takes (K.taken k.old) (K.taken k.new) (take n text.now)) }
    ensures prefix { (n : ℕ) × (n ≤ length text.now) × Takes (K.taken k.old) (K.taken k.new) (take n text.now) }
    ensures counts { K.faults k.old ≤ K.faults k.new }
{
    let mut at = 0;
    while at < text.len() {
        at += k.write(&text[at..])?;
    }
    Ok(())
}
