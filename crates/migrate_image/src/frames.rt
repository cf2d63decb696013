//! The frames of an image.

ghost use Rattle.std.specs.Prelude.{◌≡◌, ◌+◌, ◌*◌, ◌^◌, ◌<◌, ◌≤◌, [], ◌++◌, OnOk, length};
ghost use Rattle.std.specs.List.{flat_map, range_with_len, AllByRecursion};
ghost use Rattle.evac_model.specs.Numbers.{is_in};
ghost use Rattle.migrate_image.specs.Images.{frame_bytes, frame_numbers, frames_due};
ghost use Rattle.migrate_image.specs.Reading.{Gives, number_at, frame_at, frames_at};

use crate::cells::{cells_of, put_cells};
use crate::fault::ImageFault;
use crate::field::{put_u32, u32_at};
use crate::frame::ImageFrame;
use evac_model::{BlockNo, FrameNo, Geometry, Listed, OutOfMemory};
use std::alloc::Global;

// Whether a frame is among those read before.
fn was_read(frames: &[ImageFrame], n: u32) -> bool
    ensures { result ≡ is_in n (frame_numbers frames.now) }
{
    for f in frames {
        if n == f.frame.0 {
            return true;
        }
    }
    false
}

// The bytes behind the number of the frame that is due.
#[tactic(auto, unfolding(crate::specs::Reading::number_at))]
fn behind_number<'a>(
    before: &[ImageFrame],
    due: u32,
    bytes: &'a [u8],
) -> Result<&'a [u8], ImageFault>
    ensures { Gives (λ rest. rest.now) result (number_at (frame_numbers before.now) due bytes.now) }
{
    let (n, rest) = u32_at(bytes)?;
    if n == due {
        return Ok(rest);
    }
    if was_read(before, n) {
        return Err(ImageFault::Repeated { n });
    }
    Err(ImageFault::BadFrame { n })
}

// The frame that is due, and the bytes behind it.
#[tactic(auto, unfolding(crate::specs::Reading::frame_at))]
fn frame_of<'a>(
    alloc: Global,
    cells: u32,
    before: &[ImageFrame],
    due: u32,
    bytes: &'a [u8],
) -> Result<(ImageFrame, &'a [u8]), ImageFault>
    ensures { Gives (λ x. (x.0, x.1.now)) result (frame_at cells (frame_numbers before.now) due bytes.now) }
{
    let rest = behind_number(before, due, bytes)?;
    let (content, rest) = cells_of(alloc, cells, rest)?;
    let frame = ImageFrame {
        frame: FrameNo(due),
        cells: Listed::from_vec(content),
    };
    Ok((frame, rest))
}

// The frames read so far and those of one run, and the bytes behind them.
fn run_of<'a>(
    alloc: Global,
    cells: u32,
    read: Vec<ImageFrame>,
    first: u32,
    count: u32,
    bytes: &'a [u8],
) -> Result<(Vec<ImageFrame>, &'a [u8]), ImageFault>
    requires { first + count < 2 ^ 32 }
    ensures { Gives (λ x. (x.0.items, x.1.now)) result (frames_at cells read.items (range_with_len first count) bytes.now) }
{
    let mut frames = read;
    let mut rest = bytes;
    for k in 0..count {
        let (frame, after) = frame_of(alloc, cells, &frames, first + k, rest)?;
        frames.push(frame)?;
        rest = after;
    }
    Ok((frames, rest))
}

/// The frames of boot blocks and of plugged blocks, and the bytes behind them.
pub fn frames_of<'a>(
    alloc: Global,
    geometry: Geometry,
    plugged: &[BlockNo],
    bytes: &'a [u8],
) -> Result<(Vec<ImageFrame>, &'a [u8]), ImageFault>
    requires { AllByRecursion (λ b. b.0 < geometry.managed) plugged.now }
    ensures { Gives (λ x. (x.0.items, x.1.now)) result (frames_at geometry.cells [] (frames_due geometry plugged.now) bytes.now) }
{
    let cells = geometry.cells();
    let block = geometry.block();
    let boot = geometry.boot();
    let (mut frames, mut rest) = run_of(alloc, cells, Vec::new(alloc), 0, boot * block, bytes)?;
    for b in plugged {
        let (more, after) = run_of(alloc, cells, frames, (boot + b.0) * block, block, rest)?;
        frames = more;
        rest = after;
    }
    Ok((frames, rest))
}

// Writes a frame.
fn put_frame(out: &mut Vec<u8>, frame: &ImageFrame) -> Result<(), OutOfMemory>
    ensures { OnOk result (out.new.items ≡ out.old.items ++ frame_bytes frame.now) }
{
    put_u32(out, frame.frame.0)?;
    put_cells(out, frame.cells.as_slice())
}

/// Writes the frames.
pub fn put_frames(out: &mut Vec<u8>, frames: &[ImageFrame]) -> Result<(), OutOfMemory>
    ensures { OnOk result (out.new.items ≡ out.old.items ++ flat_map frame_bytes frames.now) }
{
    for frame in frames {
        put_frame(out, frame)?;
    }
    Ok(())
}
