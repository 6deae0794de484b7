//! Keys, and what gets of them saw.
ghost use Rattle.std.specs.Prelude.{[], length, vec_capacity, vec_len, ◌++◌, ◌<◌, ◌∷◌, ◌≡◌, ◌≤◌};
ghost use Rattle.mu_model.specs.Histories.{IsPrefixOf};
ghost use Rattle.snap_reads.specs.Published.{AllBegin};
ghost use Rattle.snap_reads.specs.Sights.{AreRight, NeverFall};
ghost use Rattle.snap_reads.specs.declared.sight.Sight.{Sight};

use crate::reader::SnapReader;
use crate::seen::Seen;
use kv_store::Key;

/// A key, and what a get of it saw.
#[derive(Clone, Copy, Debug, PartialEq, Eq)]
pub struct Sight {
    /// The key.
    pub key: Key,
    /// What the get saw.
    pub seen: Seen,
}

/// Gets the key, and notes what it saw. Takes no memory, and does not wait.
pub(crate) fn see(reader: &mut SnapReader, key: &Key, sights: &mut Vec<Sight>)
    requires room { vec_len sights.old < vec_capacity sights.old }
    requires right { AreRight reader.old.seen sights.old.items }
    requires rise { NeverFall 0 sights.old.items }
    ensures same { reader.new ≡ record reader.old { seen = reader.new.seen } }
    ensures seen { IsPrefixOf reader.old.seen reader.new.seen }
    ensures told { AllBegin reader.old.told reader.new.seen }
    ensures within { length reader.new.seen ≤ reader.new.capacity }
    ensures sight { (sight : Sight) × (sights.new.items ≡ sights.old.items ++ sight ∷ [])
        × (sight.key ≡ key.now) × (sight.seen.upto ≡ length reader.new.seen) }
    ensures right { AreRight reader.new.seen sights.new.items }
    ensures rise { NeverFall 0 sights.new.items }
    ensures room { vec_capacity sights.new ≡ vec_capacity sights.old }
{
    let seen = reader.get(key);
    sights.push_reserved(Sight { key: *key, seen });
}
