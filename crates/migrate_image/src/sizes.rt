//! The five sizes of an image's header.

ghost use Rattle.std.specs.Prelude.{◌≡◌, ◌++◌, OnOk};
ghost use Rattle.migrate_image.specs.Images.{size_bytes};
ghost use Rattle.migrate_image.specs.Headers.{sizes_of};
ghost use Rattle.migrate_image.specs.Reading.{Gives, judged, sizes_at};

use crate::fault::ImageFault;
use crate::field::{put_u32, u32_at};
use evac_model::{Geometry, OutOfMemory};

/// The five sizes, not judged yet.
#[derive(Clone, Copy, Debug)]
pub struct Header {
    cells: u32,
    block: u32,
    boot: u32,
    managed: u32,
    plugged: u32,
}

/// The sizes at the front of the bytes, and the bytes behind them.
#[tactic(auto, unfolding(crate::specs::Reading::sizes_at))]
pub fn header_of(bytes: &[u8]) -> Result<(Header, &[u8]), ImageFault>
    ensures { Gives (λ x. (sizes_of x.0, x.1.now)) result (sizes_at bytes.now) }
{
    let (cells, rest) = u32_at(bytes)?;
    let (block, rest) = u32_at(rest)?;
    let (boot, rest) = u32_at(rest)?;
    let (managed, rest) = u32_at(rest)?;
    let (plugged, rest) = u32_at(rest)?;
    let header = Header {
        cells,
        block,
        boot,
        managed,
        plugged,
    };
    Ok((header, rest))
}

/// The geometry with these sizes, within their limits, and with one page.
pub fn geometry_of(header: Header) -> Result<Geometry, ImageFault>
    ensures { Gives (λ g. g) result (judged (sizes_of header)) }
{
    match Geometry::new(
        header.cells,
        header.block,
        header.boot,
        header.managed,
        header.plugged,
        1,
    ) {
        Ok(geometry) => Ok(geometry),
        Err(_) => Err(ImageFault::BadHeader),
    }
}

/// Writes the sizes.
pub fn put_sizes(out: &mut Vec<u8>, geometry: Geometry) -> Result<(), OutOfMemory>
    ensures { OnOk result (out.new.items ≡ out.old.items ++ size_bytes geometry) }
{
    put_u32(out, geometry.cells())?;
    put_u32(out, geometry.block())?;
    put_u32(out, geometry.boot())?;
    put_u32(out, geometry.managed())?;
    put_u32(out, geometry.plugged())
}
