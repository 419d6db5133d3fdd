// Bytes read and written: the fields, numbers and invalid bytes of a line, and text and decimal numbers put into lent bytes.
#![tactic(auto)]

mod fields; // a line split at its first tab, its tabs counted, and a field against a text
mod numbers; // the number of a field
mod invalid_bytes; // invalid bytes: other than tab and 32 to 126
mod written_text; // bytes put from a place on, or none of them where they do not fit
mod written_numbers; // the decimal digits of a number, likewise

pub use fields::{SplitLine, field, is_edition, reads, rest, split, tab_count};
pub use invalid_bytes::some_invalid;
pub use numbers::number;
pub use written_numbers::put_number;
pub use written_text::{put_byte, put_text};

pub(crate) const TAB: u8 = b'\t';
