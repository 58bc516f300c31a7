//! Which lines does a certificate of version 3 have, how are they spelled, and how are they read and written?
//!
//! A line is a word and fields, each after a blank: a number, the column and row of a cell, or a word in place of one.
//! `line_of` reads the shape of the whole line first and judges the ranges of its numbers after that, so a line that is
//! wrong in both is an error of its shape. Words that two shapes share are tried with one after the other.
//!
//! Most lines of a certificate are labels. `LemmaLines` reads the line of a label of one cell or of two within the
//! buffer, in one pass from left to right (`label_there`). Every other line, including that of a label that is wrong or
//! incomplete, is first cut at its LF and then read, so its error doesn't depend on the pieces in which the text comes.
//!
//! `PartReader` reads a certificate part by part: counts, price lists, lemmas, and the nodes of trees. It keeps which
//! part is due (`Due`), and compares the first line of each part with it. What a part lists is read by `list`, for
//! which the trait `Listed` says what the line of a value is and which value may come before which.
//!
//! `LemmaWriter` puts lines on a page, which goes to the sink when it is full. `write_lemma_cert` returns the text of a
//! whole certificate.
#![tactic(auto)]

mod cert_writer;
mod constraint_line;
mod due;
mod front_reader;
mod label_line;
pub mod laws;
mod leaf_line;
mod lemma_line;
mod line;
mod line_reader;
mod line_writer;
mod lines;
mod listed;
mod lists;
mod part;
pub mod part_laws;
mod part_lines;
mod part_reader;
mod part_writer;
mod parts;
mod place;
mod price_line;
pub mod ranges;
mod sizes;
mod split_line;
mod text_writer;

pub use cert_writer::{WriteFault, write_lemma_cert};
pub use line::LemmaLine;
pub use line_reader::line_of;
pub use lines::LemmaLines;
pub use part::{CasesHead, NeverLemma, OneLemma, Part, TwoLemma};
pub use part_reader::PartReader;
pub use sizes::{LinePlace, LineSizes};
pub use text_writer::LemmaWriter;
