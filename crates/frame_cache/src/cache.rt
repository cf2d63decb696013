//! The frames that one caller keeps at hand.

ghost use Rattle.std.specs.Prelude.{◌≡◌, ◌∷◌, [], ◌++◌, drop, length};

use evac_model::FrameNo;
use std::marker::Model;

/// At most 8 frames. Contracts see the list of them, the frame put last standing first.
#[derive(Debug, Drop)]
pub struct Cache {
    // the frame put first stands first
    frames: [u32; 8],
    count: u32,
}

impl Model for Cache {
    ghost use Rattle.std.specs.Prelude.{List, ℕ, ◌≤◌, take, reverse};

    ghost Value = { List ℕ };

    ghost view = { λ a. reverse (take a.count a.frames) };

    ghost invariant = { λ a. a.count ≤ 8 };
}

// Puts a frame behind the others, and loses the first.
fn shift_in(frames: &mut [u32; 8], frame: u32)
    ensures { frames.new ≡ drop 1 frames.old ++ frame ∷ [] }
{
    frames.rotate_left(1);
    frames[7] = frame;
}

impl Cache {
    ghost use Rattle.std.specs.Prelude.{◌≡◌, ◌≤◌, [], ◌∷◌, length, take, drop, reverse, slice_get};
    ghost use Rattle.std.specs.Option.{option_map};

    /// The most frames that a cache keeps.
    pub const MOST: u32 = 8;

    /// A cache without frames.
    pub fn new() -> Cache
        ensures { result ≡ [] }
    {
        Cache {
            frames: [0; 8],
            count: 0,
        }
    }

    /// The frames, the one put first standing first.
    pub fn frames(&self) -> &[u32]
        ensures frames { result.now ≡ reverse self.now }
        ensures few { length self.now ≤ 8 }
    {
        &self.frames[..self.count as usize]
    }

    /// Takes the frame that was put last, if there is one.
    pub fn take(&mut self) -> Option<FrameNo>
        ensures frame { result ≡ option_map (λ f. record { 0 = f }) (slice_get self.old 0) }
        ensures rest { self.new ≡ drop 1 self.old }
        ensures few { length self.old ≤ 8 }
    {
        if self.count == 0 {
            return None;
        }
        self.count -= 1;
        Some(FrameNo(self.frames[self.count as usize]))
    }

    /// Puts a frame. Where 8 are there, it pushes out the one that was put first.
    pub fn put(&mut self, frame: FrameNo) -> Option<FrameNo>
        ensures pushed_out { result ≡ option_map (λ f. record { 0 = f }) (slice_get self.old 7) }
        ensures frames { self.new ≡ take 8 (frame.0 ∷ self.old) }
    {
        if self.count < Cache::MOST {
            self.frames[self.count as usize] = frame.0;
            self.count += 1;
            return None;
        }
        let first = self.frames[0];
        shift_in(&mut self.frames, frame.0);
        Some(FrameNo(first))
    }
}
