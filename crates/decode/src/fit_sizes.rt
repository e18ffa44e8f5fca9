// Sizes in range, and where the parts of a description of them begin.

ghost use Rattle.std.specs.Prelude.{◌≡◌, ◌≤◌};
ghost use Rattle.meaning.specs.Description.{map_at, loading_at, line_at, words_of};
ghost use Rattle.decode.specs.Offsets.{Sized};

use meaning::{LINE_WORDS, Sizes};

// Sizes that refusal 2 lets pass.
#[derive(Clone, Copy)]
pub struct FitSizes {
    pub sizes: Sizes,
    ghost fit: { Sized sizes },
}

impl FitSizes {
    // The word at which index map i begins.
    pub(crate) fn map_at(self, i: u32) -> u32
        requires { i ≤ 6 }
        ensures { (result ≡ map_at self.sizes i) × (result ≤ 57) }
    {
        if self.sizes.loops == 2 {
            13 + 2 * i
        } else {
            21 + 6 * i
        }
    }

    // The word at which loading vector i begins.
    pub fn loading_at(self, i: u32) -> u32
        requires { i ≤ 6 }
        ensures { (result ≡ loading_at self.sizes i) × (result ≤ 69) }
    {
        let streams = self.sizes.streams;
        if self.sizes.loops == 2 {
            13 + 2 * streams + i
        } else {
            21 + 6 * streams + 2 * i
        }
    }

    // The word at which line i begins.
    pub fn line_at(self, i: u32) -> u32
        requires { i ≤ 8 }
        ensures { (result ≡ line_at self.sizes i) × (result ≤ 125) }
    {
        let streams = self.sizes.streams;
        if self.sizes.loops == 2 {
            13 + 3 * streams + LINE_WORDS * i
        } else {
            21 + 8 * streams + LINE_WORDS * i
        }
    }

    // The number of words.
    pub fn words(self) -> u32
        ensures { (result ≡ words_of self.sizes) × (result ≤ 125) }
    {
        self.line_at(self.sizes.lines)
    }
}
