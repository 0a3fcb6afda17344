// A 32-bit word, of the medium and of a table's image alike: its tag, its content, and the word of both. A tag is a number of two
// bits and no enum: a medium's words are an id's, a value's or a mark's by it, while an image's are told apart by their places.
#![tactic(auto)]

ghost use Rattle.std.specs.Prelude.{◌≡◌, ◌<◌};
ghost use Rattle.limits.specs.Limits.{content_range};
ghost use Rattle.words.specs.Word.{tag_of, content_of, tagged};

use limits::CONTENT_RANGE;

// The word of a tag and a content.
pub fn tagged(tag: u32, content: u32) -> u32
    requires { (tag < 4) × (content < content_range) }
    ensures { result ≡ tagged tag content }
{
    tag * CONTENT_RANGE + content
}

pub fn tag_of(word: u32) -> u32
    ensures { result ≡ tag_of word }
{
    word / CONTENT_RANGE
}

pub fn content_of(word: u32) -> u32
    ensures { result ≡ content_of word }
{
    word % CONTENT_RANGE
}
