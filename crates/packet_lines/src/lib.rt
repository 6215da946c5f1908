//! Packets as lines of text: 376 upper case hexadecimal digits each, as a source, as a sink, and the cut over them.
//! It stands on the packets of `ts_packet`, the cut of `unit_cut` and the digits of `hex_digits`.
//! What a caller uses: a `LineReader` gives the packets of lines and a `LineWriter` writes them, for what is generic in packets;
//! `cut_lines` says which lines come out and what each fault means.
#![tactic(auto)]

pub mod laws;
mod line_reader;
mod line_writer;
mod lines;

pub use line_reader::LineReader;
pub use line_writer::LineWriter;
pub use lines::{LinesFault, cut_lines};
