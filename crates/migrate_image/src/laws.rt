//! Laws of images. Each function has an empty body: its contract is the law.

ghost use Rattle.std.specs.Prelude.{◌≡◌, ◌↔◌, IsTrue, ℕ, List, ◌∷◌, ◌++◌, Ok, Err};
ghost use Rattle.evac_model.specs.Geometry.{Sizes, IsWithinLimits};
ghost use Rattle.migrate_image.specs.declared.fault.ImageFault.{ImageFault};
ghost use Rattle.migrate_image.specs.Images.{ImageParts, IsImage, HasWords, image_bytes};
ghost use Rattle.migrate_image.specs.Reading.{image_of, is_within};

/// What is written for an image is read as that image.
pub fn images_read_back()
    ensures { (i : ImageParts) → IsImage i → HasWords i → image_of (image_bytes i) ≡ Ok i }
{}

/// Bytes spell at most one image.
pub fn one_image()
    ensures { (i j : ImageParts) → IsImage i → HasWords i → IsImage j → HasWords j → image_bytes i ≡ image_bytes j → i ≡ j }
{}

/// An image with bytes behind it is refused for them.
pub fn trailing_bytes_are_refused()
    ensures { (i : ImageParts) (b : ℕ) (more : List ℕ) → IsImage i → HasWords i → image_of (image_bytes i ++ b ∷ more) ≡ Err ImageFault.Trailing }
{}

/// The test of an image's sizes is the limits of a geometry.
pub fn limits_are_tested()
    ensures { (s : Sizes) → IsTrue (is_within s) ↔ IsWithinLimits s }
{}
