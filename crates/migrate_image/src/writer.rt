//! Writes images.

ghost use Rattle.std.specs.Prelude.{◌≡◌, IfOk};
ghost use Rattle.migrate_image.specs.Images.{image_bytes};

use crate::blocks::put_blocks;
use crate::field::put_mark;
use crate::frames::put_frames;
use crate::image::Image;
use crate::sizes::put_sizes;
use evac_model::{ByteList, Listed, OutOfMemory};
use std::alloc::Global;

/// The one spelling of the image.
pub fn write_image(alloc: Global, i: &Image) -> Result<ByteList, OutOfMemory>
    ensures { IfOk result (λ bytes. bytes ≡ image_bytes i.now) }
{
    let mut out = Vec::new(alloc);
    put_mark(&mut out)?;
    put_sizes(&mut out, i.geometry)?;
    put_blocks(&mut out, i.plugged.as_slice())?;
    put_frames(&mut out, i.frames.as_slice())?;
    Ok(Listed::from_vec(out))
}
