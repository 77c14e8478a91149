// Not for outsiders. Slices of rows of words: words read, stored and listed. Word c of every row is column c.
#![tactic(auto)]

mod links;
mod words;

pub use links::{LIST_PLACES, link_to, linked_row, list_links};
pub use words::{Word, get, put};

// A row of the searches: 64-bit words. C lends a row as so many words, so its columns are numbers of words and no fields of a struct; and since a word is a
// number, one that may have none is 0 then: KEY, VALUE, PLACE and the links of 16 bits, which are else 1 more than what they have, and LINK.
pub const WORDS: usize = 8;

// Its columns. Key, link and order are the forward search's, value and hop the backward search's; both have places and heap. Notes are free for whoever
// reads what the searches leave.
pub const KEY: usize = 0;

pub const LINK: usize = 1;

pub const ORDER: usize = 2;

pub const VALUE: usize = 3;

pub const HOP: usize = 4;

pub const NOTE: usize = 5;

pub const PLACE: usize = 6;

pub const HEAP: usize = 7;

// The transitions of a row, by action: 16-bit words.
pub const LINK_WORDS: usize = 64;

// Where transitions are kept as chains, the first half of a row has their heads, and the second, from here, each one's next older link.
pub const OLDER_LINKS: usize = LINK_WORDS / 2;

// A place of a hash table, its heads and link: 16-bit words.
pub const BUCKET_WORDS: usize = 4;
