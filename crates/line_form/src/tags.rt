// 3: the tag of a line, and whether it has the tag's number of fields.
ghost use Rattle.std.specs.Prelude.{◌≡◌};
ghost use Rattle.meaning.specs.Line.{rank as rank_of, size, tag_of_letter, tag_of_field};
ghost use Rattle.line_form.specs.Views.{tag_view, known_view};
ghost use Rattle.line_form.specs.Tags.{known_tag};

use crate::Tag;

// The tag of a letter. A function and no TryFrom: its one caller wants an Option, and would drop what an error holds.
#[tactic(auto, unfolding(meaning::specs::Line::tag_of_letter))]
fn tag_of_letter(letter: u8) -> Option<Tag>
    ensures { known_view result ≡ tag_of_letter letter }
{
    match letter {
        b'S' => Some(Tag::S),
        b'C' => Some(Tag::C),
        b'X' => Some(Tag::X),
        b'D' => Some(Tag::D),
        b'P' => Some(Tag::P),
        b'B' => Some(Tag::B),
        b'R' => Some(Tag::R),
        b'E' => Some(Tag::E),
        _ => None,
    }
}

// The tag of a field, which is the field as a whole.
#[tactic(auto, using(crate::proofs::LetterLaws::tag_one, crate::proofs::LetterLaws::tag_none))]
fn tag_of(field: &[u8]) -> Option<Tag>
    ensures { known_view result ≡ tag_of_field field.now }
{
    match field {
        [letter] => tag_of_letter(*letter),
        _ => None,
    }
}

// The place of a tag in file order. A record keeps the last tag by its rank.
pub fn rank(tag: Tag) -> u64
    ensures { result ≡ rank_of (tag_view tag) }
{
    tag as u64
}

// The number of fields of a line of a tag, the tag included: a table of the rules.
fn field_count(tag: Tag) -> usize
    ensures { result ≡ size (tag_view tag) }
{
    match tag {
        Tag::C | Tag::P => 24,
        Tag::S | Tag::X => 6,
        Tag::D => 5,
        Tag::R => 3,
        Tag::B | Tag::E => 2,
    }
}

// The tag of a line, none where it is unknown or the line does not have the tag's number of fields (3).
#[tactic(auto, using(crate::proofs::TagLaws::tag_parts))]
pub fn known_tag(line: &[u8]) -> Option<Tag>
    ensures { known_view result ≡ known_tag line.now }
{
    let tag = tag_of(text::field(line))?;
    (text::tab_count(line) == field_count(tag) - 1).then_some(tag)
}
