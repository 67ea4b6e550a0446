ghost use Rattle.std.specs.Prelude.{◌≡◌, IfOk};

use crate::list::TryCopy;
use std::alloc::{AllocError, Global};
use std::collections::BTreeMap;

/// A copy of a map, or `AllocError` if there is no memory for it.
#[tactic(auto, using(crate::proofs::Entries::one_more))]
pub fn copy_map<K: Ord + TryCopy + Drop, V: TryCopy + Drop>(
    alloc: Global,
    map: &BTreeMap<K, V>,
) -> Result<BTreeMap<K, V>, AllocError>
    ensures value { IfOk result (λ copy. copy.entries ≡ map.now.entries) }
{
    let mut copy = BTreeMap::new(alloc);
    for (key, value) in map {
        copy.insert(key.try_copy(alloc)?, value.try_copy(alloc)?)?;
    }
    Ok(copy)
}
