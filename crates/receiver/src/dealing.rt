//! Readers are dealt, and given away.

ghost use Rattle.std.specs.Prelude.{◌≡◌, ◌+◌, ◌<◌, ◌≤◌, ◌∷◌, [], length, vec_capacity, IfOk};
ghost use Rattle.std.specs.Arc.{arc_value};
ghost use Rattle.image.specs.Rebuilding.{IsInserterOf, join_of};
ghost use Rattle.receiver.specs.Dealt.{AreDealt};

use crate::readers::Readers;
use image::{Image, ImageReader, Inserter, deal};
use std::alloc::{AllocError, Global};
use std::sync::Arc;

/// Room for so many readers of an image. The error comes only where memory was refused.
pub(crate) fn room_for(
    alloc: Global,
    image: &Arc<Image, Global>,
    consumers: usize,
) -> Result<Readers, AllocError>
    ensures image { IfOk result (λ r. arc_value r.image ≡ arc_value image.now) }
    ensures empty { IfOk result (λ r. r.readers.items ≡ []) }
    ensures room { IfOk result (λ r. consumers ≤ vec_capacity r.readers) }
{
    let readers = Vec::with_capacity(alloc, consumers)?;
    let image = Arc::try_clone(image)?;
    Ok(Readers { image, readers })
}

/// Takes all readers that the inserter has, into a list that has room for them.
pub(crate) fn deal_all(
    image: &Image,
    inserter: &mut Inserter,
    readers: &mut Vec<ImageReader>,
    count: u64,
)
    requires fits { IsInserterOf image.now inserter.old }
    requires few { count ≤ 8 }
    requires undealt { inserter.old.undealt ≡ count }
    requires empty { readers.old.items ≡ [] }
    requires room { count ≤ vec_capacity readers.old }
    ensures left { inserter.new ≡ record inserter.old { undealt = 0 } }
    ensures readers { AreDealt image.now (join_of inserter.old) 0 readers.new.items }
    ensures count { length readers.new.items ≡ count }
{
    let mut number = count;
    while number > 0 {
        number -= 1;
        let reader = deal(image, inserter, number);
        readers.push_reserved(reader);
    }
}

/// The one reader of an image that has one.
pub(crate) fn only_reader(taken: Readers) -> ImageReader
    requires { length taken.readers.items ≡ 1 }
    ensures { taken.readers.items ≡ result ∷ [] }
{
    let mut readers = taken.readers;
    let Some(first) = readers.pop() else {
        unreachable!()
    };
    first
}
