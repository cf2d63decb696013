//! The words found for the frames of a block.

ghost use Rattle.std.specs.Prelude.{◌≡◌, ◌<◌};
ghost use Rattle.evacuate.specs.Evacuating as spec;

/// The most frames that a block has.
pub const FRAMES: usize = 512;

/// No word for any frame: 20 KiB.
pub fn no_words() -> [[u64; 5]; FRAMES]
    ensures { result ≡ spec.no_words }
{
    [[0; 5]; FRAMES]
}

/// Keeps the word found in a round for the frame at that place of the block.
pub fn keep_word(words: &mut [[u64; 5]; FRAMES], place: u32, round: u32, word: u64)
    requires place { place < 512 }
    requires round { round < 5 }
    ensures { words.new ≡ spec.with_word words.old place round word }
{
    words[place as usize][round as usize] = word;
}

/// The words found in the five rounds for the frame at that place of the block.
pub fn five_words(words: &[[u64; 5]; FRAMES], place: u32) -> [u64; 5]
    requires { place < 512 }
    ensures { result ≡ spec.words_of words.now place }
{
    words[place as usize]
}
