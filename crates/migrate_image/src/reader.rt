//! Reads images.

ghost use Rattle.std.specs.Prelude.{◌≡◌, IfOk, Ok};
ghost use Rattle.migrate_image.specs.Images.{ImageParts, IsImage, HasWords, image_bytes};
ghost use Rattle.migrate_image.specs.Reading.{Gives, image_of};

use crate::blocks::blocks_of;
use crate::fault::ImageFault;
use crate::field::behind_mark;
use crate::frames::frames_of;
use crate::image::Image;
use crate::sizes::{geometry_of, header_of};
use evac_model::Listed;
use std::alloc::Global;

// The image, field by field.
#[tactic(auto, unfolding(crate::specs::Reading::image_of))]
fn image_from(alloc: Global, bytes: &[u8]) -> Result<Image, ImageFault>
    ensures { Gives (λ i. i) result (image_of bytes.now) }
{
    let rest = behind_mark(bytes)?;
    let (header, rest) = header_of(rest)?;
    let geometry = geometry_of(header)?;
    let (plugged, rest) = blocks_of(alloc, geometry.managed(), geometry.plugged(), rest)?;
    let (frames, rest) = frames_of(alloc, geometry, &plugged, rest)?;
    if !rest.is_empty() {
        return Err(ImageFault::Trailing);
    }
    Ok(Image {
        geometry,
        plugged: Listed::from_vec(plugged),
        frames: Listed::from_vec(frames),
    })
}

/// The image that the bytes spell. A fault is the first that is met, field by field: `Truncated`, the
/// bytes end inside a field or where one must begin; `BadMark`, the first 8 bytes aren't the mark;
/// `BadHeader`, the five sizes break a limit of a geometry, or a block isn't below the managed blocks or
/// not above the one before; `Repeated`, a frame that was read before; `BadFrame`, another frame than the
/// next one due; `Trailing`, a byte behind the last frame. `OutOfMemory` may come in place of any.
pub fn read_image(alloc: Global, bytes: &[u8]) -> Result<Image, ImageFault>
    // What is read is an image, and is spelled so.
    ensures found { IfOk result (λ i. IsImage i × HasWords i × (bytes.now ≡ image_bytes i)) }
    // What is spelled so is read, unless memory runs out.
    ensures only { (i : ImageParts) → IsImage i → HasWords i → bytes.now ≡ image_bytes i → Gives (λ j. j) result (Ok i) }
    // Which fault it is.
    ensures exact { Gives (λ i. i) result (image_of bytes.now) }
{
    image_from(alloc, bytes)
}
