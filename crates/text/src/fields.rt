// The fields of a line: each is a part of the caller's own bytes.
ghost use Rattle.std.specs.Prelude.{◌≡◌, ◌≤◌, ◌==◌, length, position};
ghost use Rattle.text.specs.Fields.{up_to, past, tabs, reads, edition};

use crate::TAB;

// A line in two parts: its first field, and what follows the tab after it.
#[derive(Clone, Copy)]
pub struct SplitLine<'a> {
    pub field: &'a [u8],
    pub rest: &'a [u8],
}

// The place of the first tab. A function of its own: the search for it is proved where it is what the function returns.
fn first_tab(line: &[u8]) -> Option<usize>
    ensures { result ≡ position (λ b. b == 9) line.now }
{
    line.iter().position(|byte| *byte == TAB)
}

// A line split at its first tab; with no tab the field is the whole line, and nothing follows it.
#[tactic(auto, using(crate::proofs::Laws::split_parts))]
pub fn split(line: &[u8]) -> SplitLine<'_>
    ensures first { result.field.now ≡ up_to line.now }
    ensures after { result.rest.now ≡ past line.now }
{
    match first_tab(line) {
        Some(tab) => SplitLine {
            field: &line[..tab],
            rest: &line[tab + 1..],
        },
        None => SplitLine {
            field: line,
            rest: &line[line.len()..],
        },
    }
}

// The first field of a line.
pub fn field(line: &[u8]) -> &[u8]
    ensures { result.now ≡ up_to line.now }
{
    split(line).field
}

// What follows the first tab of a line.
pub fn rest(line: &[u8]) -> &[u8]
    ensures { result.now ≡ past line.now }
{
    split(line).rest
}

// The number of tabs in at most 255 bytes. A count that a byte holds: the machine counts sixteen bytes at once.
#[tactic(auto, using(crate::proofs::Laws::tab_steps), unfolding(crate::specs::Fields::tabs))]
fn few_tabs(part: &[u8]) -> u8
    requires { length part.now ≤ 255 }
    ensures { result ≡ tabs part.now }
{
    let mut count = 0;
    for &byte in part {
        if byte == TAB {
            count += 1;
        }
    }
    count
}

// The number of tabs in a line: one fewer than it has fields.
pub fn tab_count(line: &[u8]) -> usize
    ensures { result ≡ tabs line.now }
{
    let mut count = 0;
    for part in line.chunks(255) {
        count += usize::from(few_tabs(part));
    }
    count
}

// Whether a field is a text, byte for byte.
#[tactic(auto, using(crate::proofs::Laws::reads_lem))]
pub fn reads(field: &[u8], text: &[u8]) -> bool
    ensures { result ≡ reads field.now text.now }
{
    field == text
}

// Whether a field is the text of the edition.
#[tactic(auto, unfolding(crate::specs::Fields::edition))]
pub fn is_edition(field: &[u8]) -> bool
    ensures { result ≡ reads field.now edition }
{
    reads(field, b"CF_96E/11")
}
