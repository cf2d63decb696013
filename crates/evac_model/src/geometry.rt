//! The numbers of a machine, and what follows from them.

ghost use Rattle.std.specs.Prelude.{◌↔◌, IsTrue};
ghost use Rattle.evac_model.specs.GeometryLimits.{IsPowerTo512, IsCountTo65536};

use crate::names::{BlockNo, FrameNo};
use std::marker::Model;

/// The sizes of a machine, within the limits. The managed region is modelled on that of a
/// virtio-mem device (Virtio 1.2, 5.15.4): it begins behind the boot blocks, and its blocks
/// are what the device plugs and unplugs.
#[derive(Clone, Copy, Debug, PartialEq, Eq)]
pub struct Geometry {
    cells: u32,
    block: u32,
    boot: u32,
    managed: u32,
    plugged: u32,
    pages: u32,
}

impl Model for Geometry {
    ghost use Rattle.evac_model.specs.Geometry.{Sizes, IsWithinLimits};

    ghost Value = { Sizes };

    ghost view = { λ g. record { cells = g.cells; block = g.block; boot = g.boot; managed = g.managed; plugged = g.plugged; pages = g.pages } };

    ghost invariant = { λ g. IsWithinLimits (record { cells = g.cells; block = g.block; boot = g.boot; managed = g.managed; plugged = g.plugged; pages = g.pages }) };

    ghost inverse = { λ s. record { cells = s.cells; block = s.block; boot = s.boot; managed = s.managed; plugged = s.plugged; pages = s.pages } };
}

/// The first limit that the sizes of a machine break, in this order.
#[derive(Clone, Copy, Debug, PartialEq, Eq)]
pub enum GeometryFault {
    /// Cells in a page: a power of two from 1 to 512.
    Cells,
    /// Frames in a block: a power of two from 1 to 512.
    Block,
    /// Boot blocks: 1 to 65,536.
    Boot,
    /// Managed blocks: 1 to 65,536.
    Managed,
    /// Blocks plugged at the start: at most the managed ones.
    Plugged,
    /// Page numbers: 1 to 65,536.
    Pages,
    /// Frames in all: at most 65,536.
    Frames,
    /// Cells in all frames: at most 2^22.
    TotalCells,
}

/// Whether a number is a power of two from 1 to 512.
fn is_power_to_512(n: u32) -> bool
    ensures { IsTrue result ↔ IsPowerTo512 n }
{
    [1, 2, 4, 8, 16, 32, 64, 128, 256, 512].contains(&n)
}

/// Whether a number is from 1 to 65,536.
fn is_count(n: u32) -> bool
    ensures { IsTrue result ↔ IsCountTo65536 n }
{
    1 <= n && n <= 65_536
}

impl Geometry {
    ghost use Rattle.std.specs.Prelude.{◌≡◌, ◌+◌, ◌-◌, ◌*◌, ◌<◌, ◌≤◌, MatchResult};
    ghost use Rattle.evac_model.specs.Geometry.{Sizes, IsWithinLimits, BreaksFirst, block_bytes, address, first_frame, frame_count};
    ghost use Rattle.evac_model.specs.DeviceBlocks.{device_blocks, plugged_at_start, device_block_bytes, device_address, region_bytes};

    /// The machine with these sizes, or the first limit that they break.
    pub fn new(
        cells: u32,
        block: u32,
        boot: u32,
        managed: u32,
        plugged: u32,
        pages: u32,
    ) -> Result<Geometry, GeometryFault>
        ensures { let sizes : Sizes = record { cells = cells; block = block; boot = boot; managed = managed; plugged = plugged; pages = pages } in
            MatchResult result (λ g. (g ≡ sizes) × IsWithinLimits sizes) (λ f. BreaksFirst sizes f) }
    {
        if !is_power_to_512(cells) {
            return Err(GeometryFault::Cells);
        }
        if !is_power_to_512(block) {
            return Err(GeometryFault::Block);
        }
        if !is_count(boot) {
            return Err(GeometryFault::Boot);
        }
        if !is_count(managed) {
            return Err(GeometryFault::Managed);
        }
        if plugged > managed {
            return Err(GeometryFault::Plugged);
        }
        if !is_count(pages) {
            return Err(GeometryFault::Pages);
        }
        let frames = (boot + managed) * block;
        if frames > 65_536 {
            return Err(GeometryFault::Frames);
        }
        if frames * cells > 4_194_304 {
            return Err(GeometryFault::TotalCells);
        }
        Ok(Geometry {
            cells,
            block,
            boot,
            managed,
            plugged,
            pages,
        })
    }

    /// Cells in a page, a power of two from 1 to 512. A cell has 8 bytes.
    pub fn cells(&self) -> u32
        ensures size { result ≡ self.now.cells }
        ensures within { IsWithinLimits self.now }
    {
        self.cells
    }

    /// Frames in a block, a power of two from 1 to 512.
    pub fn block(&self) -> u32
        ensures size { result ≡ self.now.block }
        ensures within { IsWithinLimits self.now }
    {
        self.block
    }

    /// Boot blocks, at least 1.
    pub fn boot(&self) -> u32
        ensures size { result ≡ self.now.boot }
        ensures within { IsWithinLimits self.now }
    {
        self.boot
    }

    /// Managed blocks, at least 1.
    pub fn managed(&self) -> u32
        ensures size { result ≡ self.now.managed }
        ensures within { IsWithinLimits self.now }
    {
        self.managed
    }

    /// Managed blocks plugged at the start: those from 0 on.
    pub fn plugged(&self) -> u32
        ensures size { result ≡ self.now.plugged }
        ensures within { IsWithinLimits self.now }
    {
        self.plugged
    }

    /// Page numbers, at least 1: pages are numbered from 0 to one below.
    pub fn pages(&self) -> u32
        ensures size { result ≡ self.now.pages }
        ensures within { IsWithinLimits self.now }
    {
        self.pages
    }

    /// The frames of all blocks, at most 65,536.
    pub fn frames(&self) -> u32
        ensures { result ≡ frame_count self.now }
    {
        (self.boot + self.managed) * self.block
    }

    /// The bytes of a block.
    pub fn block_bytes(&self) -> u64
        ensures { result ≡ block_bytes self.now }
    {
        self.cells as u64 * 8 * self.block as u64
    }

    /// The first byte of a managed block.
    pub fn address(&self, b: BlockNo) -> u64
        requires { b.0 < self.now.managed }
        ensures { result ≡ address self.now b.0 }
    {
        (self.boot as u64 + b.0 as u64) * self.block_bytes()
    }

    /// The first and the last frame of a managed block.
    pub fn frames_of(&self, b: BlockNo) -> (FrameNo, FrameNo)
        requires { b.0 < self.now.managed }
        ensures first { result.0.0 ≡ first_frame self.now b.0 }
        ensures last { result.1.0 + 1 ≡ first_frame self.now b.0 + self.now.block }
    {
        let first = (self.boot + b.0) * self.block;
        (FrameNo(first), FrameNo(first + (self.block - 1)))
    }

    /// The blocks that the memory device of the machine plugs and unplugs, at least 1. They lie in the
    /// managed region, and each is a managed block.
    pub fn device_blocks(&self) -> u32
        ensures size { result ≡ device_blocks self.now }
        ensures within { IsWithinLimits self.now }
    {
        self.managed
    }

    /// Device blocks plugged at the start: those from 0 on.
    pub fn plugged_at_start(&self) -> u32
        ensures size { result ≡ plugged_at_start self.now }
        ensures most { plugged_at_start self.now ≤ device_blocks self.now }
    {
        self.plugged
    }

    /// The bytes of a device block.
    pub fn device_block_bytes(&self) -> u64
        ensures { result ≡ device_block_bytes self.now }
    {
        self.block_bytes()
    }

    /// The first byte of a device block; that of number 0 is the first of the managed region.
    pub fn device_address(&self, b: BlockNo) -> u64
        requires { b.0 < device_blocks self.now }
        ensures { result ≡ device_address self.now b.0 }
    {
        self.address(b)
    }

    /// The bytes of the managed region.
    pub fn region_bytes(&self) -> u64
        ensures { result ≡ region_bytes self.now }
    {
        self.device_blocks() as u64 * self.device_block_bytes()
    }
}
