//! Laws of the words and of their places. Each function has an empty body: its contract is the law.

ghost use Rattle.std.specs.Prelude.{◌≡◌, ℕ, ◌/◌, ◌%◌, ◌^◌, ◌<◌, true, false, bit_or};
ghost use Rattle.evac_words.specs.declared.flags.Flags.{Flags};
ghost use Rattle.evac_words.specs.Word.{unmovable_bit, pins_of, bound_of, flags_of, word_of, FitsWord};
ghost use Rattle.evac_words.specs.Table.{Place, HasPlace, index_of, table_length};

/// A word is the word of what it says, and what fits a word is what its word says.
pub fn words_and_flags_agree()
    ensures word { (w : ℕ) → word_of (flags_of w) ≡ w }
    ensures flags { (f : Flags) → FitsWord f → flags_of (word_of f) ≡ f }
    ensures below { (f : Flags) → FitsWord f → word_of f < 2 ^ 64 }
    ensures fits { (w : ℕ) → w < 2 ^ 64 → FitsWord (flags_of w) }
{}

/// A move to another frame keeps the bound, the pins and the kind of the page.
pub fn bound_pins_and_kind_survive_a_remap()
    ensures bound { (w r frame : ℕ) → flags_of r ≡ record (flags_of w) { moving = false; frame = frame }
        → bound_of r ≡ bound_of w }
    ensures pins { (w r frame : ℕ) → flags_of r ≡ record (flags_of w) { moving = false; frame = frame }
        → pins_of r ≡ pins_of w }
    ensures kind { (w r frame : ℕ) → flags_of r ≡ record (flags_of w) { moving = false; frame = frame }
        → unmovable_bit r ≡ unmovable_bit w }
{}

/// Once a page is unmapped, bits 1 to 29 of its word are 0.
pub fn unmapped_words_are_clear()
    ensures { (w r : ℕ)
        → flags_of r
        ≡ record (flags_of w)
        { moving = false; mapped = false; unmovable = false; pins = 0; frame = 0 }
        → r / 2 % 2 ^ 29 ≡ 0 }
{}

/// To set bit 0 of a word, and nothing else, is to take the page.
pub fn setting_bit_0_takes()
    ensures flags { (w : ℕ) → flags_of (bit_or w 1) ≡ record (flags_of w) { taken = true } }
    ensures word { (w : ℕ) → bit_or w 1 ≡ word_of (record (flags_of w) { taken = true }) }
{}

/// No two things of a table have one index.
pub fn places_are_apart()
    ensures { (pages frames cells : ℕ) (p q : Place)
        → HasPlace pages frames cells p → HasPlace pages frames cells q
        → index_of pages frames cells p ≡ index_of pages frames cells q → p ≡ q }
{}

/// Each thing of a table lies in its words.
pub fn places_are_inside()
    ensures { (pages frames cells : ℕ) (p : Place) → HasPlace pages frames cells p
        → index_of pages frames cells p < table_length pages frames cells }
{}
