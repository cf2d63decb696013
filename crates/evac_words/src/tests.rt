use super::*;

const NOTHING: Flags = Flags {
    taken: false,
    moving: false,
    mapped: false,
    unmovable: false,
    pins: 0,
    frame: 0,
    bound: 0,
};

#[test]
fn words_say_what_was_packed(rt: HostRuntime) {
    let held = Flags {
        taken: true,
        mapped: true,
        frame: 20,
        ..NOTHING
    };
    let pinned = Flags {
        mapped: true,
        pins: 1,
        frame: 20,
        bound: 1,
        ..NOTHING
    };
    let numbers_full = Flags {
        pins: 63,
        frame: 1_048_575,
        bound: 17_179_869_183,
        ..NOTHING
    };
    let full = Flags {
        taken: true,
        moving: true,
        mapped: true,
        unmovable: true,
        ..numbers_full
    };
    let table = [
        (NOTHING, 0),
        (held, 20_485),
        (pinned, 1_073_762_324),
        (numbers_full, 18_446_744_073_709_551_600),
        (full, 18_446_744_073_709_551_615),
    ];
    for (flags, word) in table {
        assert!(rt; flags.pins <= 63 && flags.frame < 1_048_576 && flags.bound < 17_179_869_184);
        assert_eq!(rt; pack(flags), word);
        assert_eq!(rt; unpack(word), flags);
    }
}

// The page is taken, being moved and mapped to frame 20, with 2 pins and bound 3:
// 1 + 2 + 4 + 2 * 16 + 20 * 1024 + 3 * 2^30.
const WORD: u64 = 3_221_245_991;

#[test]
fn steps_on_one_word(rt: HostRuntime) {
    let table = [
        ("take", after_take(WORD), WORD),
        ("take a free page", after_take(3_221_245_990), WORD),
        ("release", after_release(WORD, None), 3_221_245_990),
        (
            "release with ticket 9",
            after_release(WORD, Some(9)),
            10_737_438_758,
        ),
        ("begin to move", after_begin_move(3_221_245_989), WORD),
        ("remap to 21", after_remap(WORD, 21), 3_221_247_013),
        ("map", after_map(3_221_225_473, 20, false), 3_221_245_957),
        (
            "map unmovable",
            after_map(3_221_225_473, 20, true),
            3_221_245_965,
        ),
        ("unmap", after_unmap(WORD), 3_221_225_473),
        ("63 pins", with_pins(WORD, 63), 3_221_246_967),
    ];
    for (step, word, expected) in table {
        assert_eq!(rt; word, expected, "{step}");
    }
}

#[test]
fn places_of_a_small_table(rt: HostRuntime) {
    let table = [
        (entry_index(0), 1),
        (entry_index(7), 8),
        (dirty_index(8, 0), 9),
        (dirty_index(8, 23), 32),
        (cell_index(8, 24, 2, 0, 0), 33),
        (cell_index(8, 24, 2, 23, 1), 80),
    ];
    for (index, expected) in table {
        assert_eq!(rt; index, expected);
    }
}
