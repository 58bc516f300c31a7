//! Which plan, which certificate do these bytes spell, and how is one written?
//!
//! Most lines of a certificate are entries. `CertLines` reads an entry's line within the buffer, in one pass from left
//! to right (`entry_front`), and takes it if it may follow the entry before. Every other line, including an entry's
//! line that is wrong or incomplete, is first cut at its LF and then read (`line_of`), so its error doesn't depend on
//! the pieces in which the text comes. The two rising lists of a certificate, the entries of a block and the blocks of
//! a node, are read by `Lines::list`, for which the trait `Listed` says what a value is and how the next one is read.
//!
//! `TextWriter` puts lines on a page, which goes to the sink when it is full. Neither text of `solve` is ever in memory
//! as a whole. Once the search has ended nothing more is allocated, so nothing is written before all memory is there.
#![tactic(auto)]

mod buffer;
mod cert;
mod cert_converter;
mod cert_lines;
mod cert_reader;
mod cert_writer;
mod entry_line;
pub mod laws;
mod line;
mod line_writer;
mod lines;
mod listed;
mod memory_sink;
mod plan_lines;
mod plan_reader;
mod plan_text;
mod plan_writer;
mod sizes;
mod text_writer;
mod tree_line;
mod version;

pub use buffer::{LineBuffer, NoLine};
pub use cert::{Cert, CertFault, LinesFault};
pub use cert_converter::convert_cert;
pub use cert_lines::CertLines;
pub use cert_reader::read_cert;
pub use cert_writer::write_cert;
pub use line::CertLine;
pub use memory_sink::MemorySink;
pub use plan_reader::read_plan;
pub use plan_text::{PlanAnswer, PlanText, PlanTextFault};
pub use plan_writer::write_plan;
pub use text_writer::TextWriter;
pub use version::Version;
