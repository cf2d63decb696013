//! What holds the frames of blocks.

ghost use Rattle.std.specs.Prelude.{◌≡◌, ℕ, ◌+◌, ◌<◌, ◌≤◌, true, false, List};
ghost use Rattle.std.specs.List.{range_with_len};
ghost use Rattle.evac_model.specs.Numbers.{is_in, united, without_range};

use evac_model::BlockNo;

/// What holds the frames of blocks. No call takes memory.
pub trait Held {
    /// The blocks whose frames are all held, rising.
    ghost blocks: { Self → List ℕ };

    /// The number of blocks, from 0 on, for which there is room.
    ghost room: { Self → ℕ };

    /// Takes out the frames of `n` blocks from `first` on, which are all held, and gives them.
    fn part(&mut self, first: BlockNo, n: u32) -> Self
        requires below { first.0 + n ≤ room self.old }
        requires has { (b : ℕ) → first.0 ≤ b → b < first.0 + n → is_in b (blocks self.old) ≡ true }
        ensures gives { blocks result ≡ range_with_len first.0 n }
        ensures keeps { blocks self.new ≡ without_range first.0 n (blocks self.old) }
        ensures room { room self.new ≡ room self.old };

    /// Takes in all that another holds, none of which is held already.
    fn merge(&mut self, other: Self)
        requires below { (b : ℕ) → is_in b (blocks other) ≡ true → b < room self.old }
        requires apart { (b : ℕ) → is_in b (blocks other) ≡ true → is_in b (blocks self.old) ≡ false }
        ensures takes { blocks self.new ≡ united (blocks self.old) (blocks other) }
        ensures room { room self.new ≡ room self.old };
}
